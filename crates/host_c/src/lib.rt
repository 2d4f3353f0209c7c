// The library for C hosts, and for hosts in what calls C: each function of crates/host under its own name, with the same promises. include/replay.h
// declares them. They are functions of their own for the C interface: a host in Rattle calls those, and C finds what is exported here.

#![tactic(auto)]

ghost use Rattle.std.specs.Prelude.{◌≡◌, length, get_or};
ghost use Rattle.lane.specs.Refusals.{lane_step};
ghost use Rattle.runner.specs.Run.{outcome_of, run_image, run_dst};
ghost use Rattle.runner.specs.Walk as Walks;
ghost use Rattle.runner.specs.Image.{register_start, register_count};
ghost use Rattle.listing.specs.Listing.{settings_of, read_text, write_list, in_front};
ghost use Rattle.listing.specs.Program.{output};
ghost use Rattle.listing.specs.Report.{reported, reporting};
ghost use Rattle.host.specs.Words.{settings_words, insn_of, outcome_words, begun_words, walk_of, walk_begun, cells_words, reading_words, writing_words, version};

// A run of a list over an image and a Dst: a refusal leaves both as they were. The answer is returned, and stands first in `outcome`; the ties of the
// columns, and then their stores, stand last.
#[unsafe(no_mangle)]
pub extern "C" fn replay_run(
    settings: &[u32; 8],
    image: &mut [u32],
    dst: &mut [u16],
    list: &[u32],
    outcome: &mut [u32; 20],
) -> u32
    ensures value { result ≡ (outcome_of (settings_of settings.now) image.old dst.old list.now).answer }
    ensures outcome_after { outcome.new ≡ outcome_words (outcome_of (settings_of settings.now) image.old dst.old list.now) }
    ensures image_after { image.new ≡ run_image (settings_of settings.now) image.old dst.old list.now }
    ensures dst_after { dst.new ≡ run_dst (settings_of settings.now) image.old dst.old list.now }
{
    host::replay_run(settings, image, dst, list, outcome)
}

// The start of a walk over a list: the checks of a run, and no step done. A refusal leaves `walk` as it was.
#[unsafe(no_mangle)]
pub extern "C" fn replay_begin(
    settings: &[u32; 8],
    image: &[u32],
    dst: &[u16],
    list: &[u32],
    outcome: &mut [u32; 4],
    walk: &mut [u32; 2],
) -> u32
    ensures value { result ≡ (Walks.begun (settings_of settings.now) image.now dst.now list.now).answer }
    ensures outcome_after { outcome.new ≡ begun_words (Walks.begun (settings_of settings.now) image.now dst.now list.now) }
    ensures walk_after { walk.new ≡ walk_begun (Walks.begun (settings_of settings.now) image.now dst.now list.now) walk.old }
{
    host::replay_begin(settings, image, dst, list, outcome, walk)
}

// A step forward, its entry kept in `store`: a refusal leaves all that is lent as it was.
#[unsafe(no_mangle)]
pub extern "C" fn replay_forward(
    settings: &[u32; 8],
    image: &mut [u32],
    dst: &mut [u16],
    list: &[u32],
    store: &mut [u32],
    walk: &mut [u32; 2],
) -> u32
    ensures { Walks.Called Walks.forward (settings_of settings.now) list.now (Walks.standing (walk_of walk.old) image.old dst.old store.old) result (Walks.standing (walk_of walk.new) image.new dst.new store.new) }
{
    host::replay_forward(settings, image, dst, list, store, walk)
}

// A step back, by its entry in `store`: a refusal leaves all that is lent as it was.
#[unsafe(no_mangle)]
pub extern "C" fn replay_back(
    settings: &[u32; 8],
    image: &mut [u32],
    dst: &mut [u16],
    list: &[u32],
    store: &mut [u32],
    walk: &mut [u32; 2],
) -> u32
    ensures { Walks.Called Walks.back (settings_of settings.now) list.now (Walks.standing (walk_of walk.old) image.old dst.old store.old) result (Walks.standing (walk_of walk.new) image.new dst.new store.new) }
{
    host::replay_back(settings, image, dst, list, store, walk)
}

// One instruction in one lane, by the lane rules: a refusal leaves the lane's words and its two cells, even and odd, as they were.
#[unsafe(no_mangle)]
pub extern "C" fn replay_lane(
    settings: &[u32; 8],
    lane: u32,
    insn: &[u32; 6],
    own: &mut [u32; 24],
    head: &[u32; 24],
    cells: &mut [u16; 2],
) -> u32
    ensures value { result ≡ (lane_step (settings_of settings.now) lane (insn_of insn.now) own.old head.now (get_or cells.old 0 0) (get_or cells.old 1 0)).answer }
    ensures own_after { own.new ≡ (lane_step (settings_of settings.now) lane (insn_of insn.now) own.old head.now (get_or cells.old 0 0) (get_or cells.old 1 0)).words }
    ensures cells_after { cells.new ≡ cells_words (lane_step (settings_of settings.now) lane (insn_of insn.now) own.old head.now (get_or cells.old 0 0) (get_or cells.old 1 0)).cells }
{
    host::replay_lane(settings, lane, insn, own, head, cells)
}

// A listing read: its settings, and its list in front of the lent room.
#[unsafe(no_mangle)]
pub extern "C" fn replay_read(
    text: &[u8],
    list: &mut [u32],
    settings: &mut [u32; 8],
    outcome: &mut [u32; 5],
) -> u32
    ensures value { result ≡ (read_text (length list.old) text.now).reading.answer }
    ensures settings_after { settings.new ≡ settings_words (read_text (length list.old) text.now).reading.settings }
    ensures outcome_after { outcome.new ≡ reading_words (read_text (length list.old) text.now).reading }
    ensures list_after { list.new ≡ in_front (read_text (length list.old) text.now).list list.old }
{
    host::replay_read(text, list, settings, outcome)
}

// Settings and a list written as a listing, in front of the lent room.
#[unsafe(no_mangle)]
pub extern "C" fn replay_write(
    settings: &[u32; 8],
    list: &[u32],
    text: &mut [u8],
    outcome: &mut [u32; 5],
) -> u32
    ensures value { result ≡ (write_list (length text.old) (settings_of settings.now) list.now).writing.answer }
    ensures outcome_after { outcome.new ≡ writing_words (write_list (length text.old) (settings_of settings.now) list.now).writing }
    ensures text_after { text.new ≡ in_front (write_list (length text.old) (settings_of settings.now) list.now).bytes text.old }
{
    host::replay_write(settings, list, text, outcome)
}

// The program's whole output for a listing, in front of the lent room; `taken` is how many bytes it takes there.
#[unsafe(no_mangle)]
pub extern "C" fn replay_report(text: &[u8], room: &mut [u8], taken: &mut usize) -> u32
    ensures value { result ≡ (reporting (length room.old) (output text.now)).answer }
    ensures taken_after { taken.new ≡ (reporting (length room.old) (output text.now)).length }
    ensures room_after { room.new ≡ in_front (reported (length room.old) (output text.now).bytes) room.old }
{
    host::replay_report(text, room, taken)
}

// Where a register's words start in an image of `size` words.
#[unsafe(no_mangle)]
pub extern "C" fn replay_register_start(size: usize, register: u32) -> usize
    ensures { result ≡ register_start size register }
{
    host::replay_register_start(size, register)
}

// How many words a register has in an image of `size` words: one for each lane, or none.
#[unsafe(no_mangle)]
pub extern "C" fn replay_register_count(size: usize, register: u32) -> usize
    ensures { result ≡ register_count size register }
{
    host::replay_register_count(size, register)
}

// What this library replays: a host compares it with the number that it was compiled with.
#[unsafe(no_mangle)]
pub extern "C" fn replay_version() -> u32
    ensures { result ≡ version }
{
    host::replay_version()
}
