// The replay for hosts: what a host lends is laid out in words, and each function answers by the layers below. Hosts in C have these functions by
// crates/host_c.
//
// Every function here is total: it has a promise that settles its answer and every lent word, and no `requires`.

#![tactic(auto, using(crate::proofs::Lengths::read_fits, crate::proofs::Lengths::write_fits), unfolding(listing::specs::Listing::settings_of, crate::specs::Words::insn_of, crate::specs::Words::walk_of, crate::specs::Words::begun_words, crate::specs::Words::walk_begun, crate::specs::Words::cells_words, crate::specs::Words::settings_words, crate::specs::Words::reading_words, crate::specs::Words::writing_words, lane::specs::Words::pick))]

ghost use Rattle.std.specs.Prelude.{◌≡◌, length, get_or};
ghost use Rattle.lane.specs.Refusals.{lane_step};
ghost use Rattle.runner.specs.Run.{outcome_of, run_image, run_dst};
ghost use Rattle.runner.specs.Walk as Walks;
ghost use Rattle.runner.specs.Image.{register_start, register_count};
ghost use Rattle.listing.specs.Listing.{settings_of, read_text, write_list, in_front};
ghost use Rattle.listing.specs.Program.{output};
ghost use Rattle.listing.specs.Report.{reported, reporting};
ghost use Rattle.host.specs.Words.{settings_words, insn_of, outcome_words, begun_words, walk_of, walk_begun, cells_words, reading_words, writing_words, version};

use lane::step::step_lane;
use lane::{Cells, Insn, Settings};
use listing::program::replay;
use listing::reader::read;
use listing::writer::write;
use runner::run::run;
use runner::view::{register_count, register_start};
use runner::walk::{Walk, back, begin, forward};

// What the library replays, as specs/ counts it.
const VERSION: u32 = 1106;

// A run of a list over an image and a Dst: a refusal leaves both as they were. The answer is returned, and stands first in `outcome`; the ties of the
// columns, and then their stores, stand last.
pub fn replay_run(
    settings: &[u32; 8],
    image: &mut [u32],
    dst: &mut [u16],
    list: &[u32],
    outcome: &mut [u32; 20],
) -> u32
    ensures value { result ≡ (outcome_of (settings_of settings.now) image.old dst.old list.now).answer }
    ensures outcome_after { outcome.new ≡ outcome_words (outcome_of (settings_of settings.now) image.old dst.old list.now) }
    ensures image_after { image.new ≡ run_image (settings_of settings.now) image.old dst.old list.now }
    ensures dst_after { dst.new ≡ run_dst (settings_of settings.now) image.old dst.old list.now }
{
    let o = run(Settings::from(*settings), image, dst, list);
    outcome[..4].copy_from_slice(&[o.answer, o.steps, o.place, o.cursor]);
    outcome[4..12].copy_from_slice(&o.ties);
    outcome[12..].copy_from_slice(&o.stores);
    o.answer
}

// The start of a walk over a list: the checks of a run, and no step done. A refusal leaves `walk` as it was.
pub fn replay_begin(
    settings: &[u32; 8],
    image: &[u32],
    dst: &[u16],
    list: &[u32],
    outcome: &mut [u32; 4],
    walk: &mut [u32; 2],
) -> u32
    ensures value { result ≡ (Walks.begun (settings_of settings.now) image.now dst.now list.now).answer }
    ensures outcome_after { outcome.new ≡ begun_words (Walks.begun (settings_of settings.now) image.now dst.now list.now) }
    ensures walk_after { walk.new ≡ walk_begun (Walks.begun (settings_of settings.now) image.now dst.now list.now) walk.old }
{
    let b = begin(Settings::from(*settings), image, dst, list);
    *outcome = [b.answer, 0, b.place, b.walk.cursor];
    let accepted = b.answer == 0;
    if accepted {
        *walk = <[u32; 2]>::from(b.walk);
    }
    b.answer
}

// A step forward, its entry kept in `store`: a refusal leaves all that is lent as it was.
pub fn replay_forward(
    settings: &[u32; 8],
    image: &mut [u32],
    dst: &mut [u16],
    list: &[u32],
    store: &mut [u32],
    walk: &mut [u32; 2],
) -> u32
    ensures { Walks.Called Walks.forward (settings_of settings.now) list.now (Walks.standing (walk_of walk.old) image.old dst.old store.old) result (Walks.standing (walk_of walk.new) image.new dst.new store.new) }
{
    let stepped = forward(
        Settings::from(*settings),
        Walk::from(*walk),
        image,
        dst,
        list,
        store,
    );
    *walk = <[u32; 2]>::from(stepped.walk);
    stepped.answer
}

// A step back, by its entry in `store`: a refusal leaves all that is lent as it was. It and `replay_forward` are two, since the C interface has both.
pub fn replay_back(
    settings: &[u32; 8],
    image: &mut [u32],
    dst: &mut [u16],
    list: &[u32],
    store: &mut [u32],
    walk: &mut [u32; 2],
) -> u32
    ensures { Walks.Called Walks.back (settings_of settings.now) list.now (Walks.standing (walk_of walk.old) image.old dst.old store.old) result (Walks.standing (walk_of walk.new) image.new dst.new store.new) }
{
    let stepped = back(
        Settings::from(*settings),
        Walk::from(*walk),
        image,
        dst,
        list,
        store,
    );
    *walk = <[u32; 2]>::from(stepped.walk);
    stepped.answer
}

// One instruction in one lane, by the lane rules: a refusal leaves the lane's words and its two cells, even and odd, as they were.
pub fn replay_lane(
    settings: &[u32; 8],
    lane: u32,
    insn: &[u32; 6],
    own: &mut [u32; 24],
    head: &[u32; 24],
    cells: &mut [u16; 2],
) -> u32
    ensures value { result ≡ (lane_step (settings_of settings.now) lane (insn_of insn.now) own.old head.now (get_or cells.old 0 0) (get_or cells.old 1 0)).answer }
    ensures own_after { own.new ≡ (lane_step (settings_of settings.now) lane (insn_of insn.now) own.old head.now (get_or cells.old 0 0) (get_or cells.old 1 0)).words }
    ensures cells_after { cells.new ≡ cells_words (lane_step (settings_of settings.now) lane (insn_of insn.now) own.old head.now (get_or cells.old 0 0) (get_or cells.old 1 0)).cells }
{
    let stepped = step_lane(
        Settings::from(*settings),
        lane,
        Insn::from(*insn),
        *own,
        *head,
        Cells {
            even: cells[0],
            odd: cells[1],
        },
    );
    let words = stepped.words;
    let after = stepped.cells;
    *own = words;
    *cells = [after.even, after.odd];
    stepped.answer
}

// A listing read: its settings, and its list in front of the lent room.
pub fn replay_read(
    text: &[u8],
    list: &mut [u32],
    settings: &mut [u32; 8],
    outcome: &mut [u32; 5],
) -> u32
    ensures value { result ≡ (read_text (length list.old) text.now).reading.answer }
    ensures settings_after { settings.new ≡ settings_words (read_text (length list.old) text.now).reading.settings }
    ensures outcome_after { outcome.new ≡ reading_words (read_text (length list.old) text.now).reading }
    ensures list_after { list.new ≡ in_front (read_text (length list.old) text.now).list list.old }
{
    let got = read(text, list);
    *settings = <[u32; 8]>::from(got.settings);
    *outcome = [
        got.answer,
        got.steps,
        got.place,
        got.cursor,
        got.length as u32,
    ];
    got.answer
}

// Settings and a list written as a listing, in front of the lent room.
pub fn replay_write(
    settings: &[u32; 8],
    list: &[u32],
    text: &mut [u8],
    outcome: &mut [u32; 5],
) -> u32
    ensures value { result ≡ (write_list (length text.old) (settings_of settings.now) list.now).writing.answer }
    ensures outcome_after { outcome.new ≡ writing_words (write_list (length text.old) (settings_of settings.now) list.now).writing }
    ensures text_after { text.new ≡ in_front (write_list (length text.old) (settings_of settings.now) list.now).bytes text.old }
{
    let put = write(Settings::from(*settings), list, text);
    *outcome = [
        put.answer,
        put.steps,
        put.place,
        put.cursor,
        put.length as u32,
    ];
    put.answer
}

// The program's whole output for a listing, in front of the lent room; `taken` is how many bytes it takes there.
pub fn replay_report(text: &[u8], room: &mut [u8], taken: &mut usize) -> u32
    ensures value { result ≡ (reporting (length room.old) (output text.now)).answer }
    ensures taken_after { taken.new ≡ (reporting (length room.old) (output text.now)).length }
    ensures room_after { room.new ≡ in_front (reported (length room.old) (output text.now).bytes) room.old }
{
    let put = replay(text, room);
    *taken = put.length;
    put.answer
}

// Where a register's words start in an image of `size` words.
pub fn replay_register_start(size: usize, register: u32) -> usize
    ensures { result ≡ register_start size register }
{
    register_start(size, register)
}

// How many words a register has in an image of `size` words: one for each lane, or none.
pub fn replay_register_count(size: usize, register: u32) -> usize
    ensures { result ≡ register_count size register }
{
    register_count(size, register)
}

// What this library replays: a host compares it with the number that it was compiled with.
pub fn replay_version() -> u32
    ensures { result ≡ version }
{
    VERSION
}
