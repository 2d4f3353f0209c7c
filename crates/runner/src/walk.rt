// A walk over a list: one instruction at a time, each with its entry in a lent store, and back.
ghost use Rattle.std.specs.Prelude.{◌≡◌, ◌+◌, ◌*◌, ◌<◌, ◌≤◌, length};
ghost use Rattle.runner.specs.Checks.{insn_at, list_limit};
ghost use Rattle.lane.specs.Refusals.{answer_of};
ghost use Rattle.runner.specs.Walk as Walks;

use crate::checks::{first_answer, number_of, run_answer, told};
use crate::load::{cells, odd_row};
use crate::rows::copied;
use crate::run::step_list;
use crate::store::store_rows;
use crate::{Dst, Image, insn_at};
use lane::load::address;
use lane::refuse::instruction_answer;
use lane::{Insn, Refusal, Settings, op};

// Where a walk stands: how many steps are done, and the cursor.
#[derive(Clone, Copy)]
pub struct Walk {
    pub at: u32,
    pub cursor: u32,
}

// What the start of a walk returns: what a run's checks found, and the walk. It is no Result, since `begun` gives a walk with a refusal too.
#[derive(Clone, Copy)]
pub struct Begun {
    pub answer: u32,
    pub place: u32,
    pub walk: Walk,
}

// What a step returns: a number of the clerk's, and where the walk stands then. It is no Result, since `Called` and the theorem RefusedStepTouchesNothing (crate
// claims) say where it stands after a refusal.
#[derive(Clone, Copy)]
pub struct Walked {
    pub answer: u32,
    pub walk: Walk,
}

// The words of an entry: the image, the cursor, the address and 32 cells.
const ENTRY: usize = 802;

// The start of a walk: the checks of a run, and no step done.
pub fn begin(s: Settings, image: &[u32], dst: &[u16], list: &[u32]) -> Begun
    ensures { result ≡ Walks.begun s image.now dst.now list.now }
{
    let (answer, place) = told(run_answer(s, image, dst, list));
    Begun {
        answer,
        place,
        walk: Walk {
            at: 0,
            cursor: s.cursor,
        },
    }
}

// 1 to 6, as of a run; the walk's cursor is tried with the settings.
fn lent_answer(
    s: Settings,
    cursor: u32,
    image: &[u32],
    dst: &[u16],
    list: &[u32],
) -> Result<(), Refusal>
    ensures { answer_of result ≡ Walks.lent_answer s list.now (record { image = image.now; dst = dst.now; cursor = cursor }) }
{
    if image.len() != 768 {
        return Err(Refusal::ImageSize);
    }
    if dst.len() != 16384 {
        return Err(Refusal::DstSize);
    }
    if 1024 <= cursor {
        return Err(Refusal::Setting);
    }
    first_answer(s, image, dst, list)
}

// 12 where there is no instruction to go forward to, or no room for its entry; then 7, 8 and 9 of that instruction.
fn next_answer(at: u32, list: &[u32], size: usize) -> Result<(), Refusal>
    ensures { answer_of result ≡ Walks.next_answer at list.now size }
{
    let k = at as usize;
    if (k < list.len() / 6) & (ENTRY * k + ENTRY <= size) {
        return instruction_answer(true, insn_at(list, k));
    }
    Err(Refusal::Step)
}

// 12 where there is no step to take back, or none can have been taken.
fn last_answer(at: u32, list: &[u32], size: usize) -> Result<(), Refusal>
    ensures { answer_of result ≡ Walks.last_answer at list.now size }
{
    let k = at as usize;
    if (1 <= k) & (k <= list.len() / 6) & (ENTRY * k <= size) {
        return Ok(());
    }
    Err(Refusal::Step)
}

// The cells that a STORE at address `a` could overwrite, for an op that is one.
fn kept_cells(op: u32, a: u16, image: &Image, dst: &Dst) -> [u32; 32]
    requires { a < 1024 }
    ensures { result ≡ Walks.kept_cells op a image.now dst.now }
{
    if op == op::STORE {
        let odds = odd_row(image, a);
        return cells(dst, 64 * ((a as usize) / 4), &odds);
    }
    [0u32; 32]
}

// An entry of 802 words: what there is before instruction `i`, which is at address `a`. A part, since with an array by `as_mut_array` the proof of `step_kept`
// didn't close: its goal has what goes back into the store only by a name of the checker's own.
fn keep(entry: &mut [u32], i: Insn, a: u16, cursor: u32, image: &Image, dst: &Dst)
    requires entry { length entry.old ≡ 802 }
    requires address { a < 1024 }
    ensures { entry.new ≡ Walks.entry_at i a (record { image = image.now; dst = dst.now; cursor = cursor }) }
{
    let met = kept_cells(i.op, a, image, dst);
    entry[..768].copy_from_slice(image);
    entry[768..770].copy_from_slice(&[cursor, a as u32]);
    entry[770..802].copy_from_slice(&met);
}

// Instruction `k` of a list from a cursor, its entry kept first; the cursor after it.
fn step_kept(
    s: Settings,
    k: usize,
    cursor: u32,
    image: &mut Image,
    dst: &mut Dst,
    list: &[u32],
    store: &mut [u32],
) -> u32
    requires { (6 * k + 6 ≤ length list.now) × ((k < list_limit) × (802 * k + 802 ≤ length store.old)) }
    ensures { Walks.standing (record { at = k + 1; cursor = result }) image.new dst.new store.new ≡ Walks.forwarded s list.now (Walks.standing (record { at = k; cursor = cursor }) image.old dst.old store.old) }
{
    let from = ENTRY * k;
    let to = from + ENTRY;
    let i = insn_at(list, k);
    let a = address(i.imm, s.offset, cursor);
    keep(&mut store[from..to], i, a, cursor, image, dst);
    let first = 6 * k;
    let last = first + 6;
    let ended = step_list(s, cursor, image, dst, &list[first..last]);
    ended.cursor
}

// The checks of a step forward. A step back has a function of its own, since one for both would take the last check as a closure and a clause on it.
fn forward_answer(
    s: Settings,
    w: Walk,
    image: &[u32],
    dst: &[u16],
    list: &[u32],
    store: &[u32],
) -> Result<(), Refusal>
    ensures { answer_of result ≡ Walks.call_answer Walks.forward s list.now (Walks.standing w image.now dst.now store.now) }
{
    lent_answer(s, w.cursor, image, dst, list)?;
    next_answer(w.at, list, store.len())
}

// A step forward: a refusal leaves all as it was. Whether it is accepted has a name, since a must-fail edit changes it.
pub fn forward(
    s: Settings,
    w: Walk,
    image: &mut [u32],
    dst: &mut [u16],
    list: &[u32],
    store: &mut [u32],
) -> Walked
    ensures { Walks.Called Walks.forward s list.now (Walks.standing w image.old dst.old store.old) result.answer (Walks.standing result.walk image.new dst.new store.new) }
{
    let answer = number_of(forward_answer(s, w, image, dst, list, store));
    let accepted = answer == 0;
    if !accepted {
        return Walked { answer, walk: w };
    }
    let Some(image) = image.as_mut_array::<768>() else {
        unreachable!()
    };
    let Some(dst) = dst.as_mut_array::<16384>() else {
        unreachable!()
    };
    let cursor = step_kept(s, w.at as usize, w.cursor, image, dst, list, store);
    Walked {
        answer: 0,
        walk: Walk {
            at: w.at + 1,
            cursor,
        },
    }
}

// The cells of an entry back in their places; `image` is the entry's own. They go back as a STORE of low halves would put them, in every lane.
fn put_cells(dst: &mut Dst, image: &Image, entry: &[u32; ENTRY])
    requires { image.now ≡ Walks.image_of entry.now }
    ensures { dst.new ≡ Walks.with_kept entry.now dst.old }
{
    let a = (entry[769] % 1024) as u16;
    let odds = odd_row(image, a);
    let words = copied(entry, 770);
    let every = [0xFFFFFFFFu32; 128];
    store_rows(dst, a, 6, &words, &odds, &every);
}

// After a STORE its cells, and after any other op nothing.
fn bring_cells(op: u32, dst: &mut Dst, image: &Image, entry: &[u32; ENTRY])
    requires { image.now ≡ Walks.image_of entry.now }
    ensures { dst.new ≡ Walks.dst_back op entry.now dst.old }
{
    if op == op::STORE {
        put_cells(dst, image, entry);
    }
}

// All that an entry brings back, after an instruction with that op; the cursor.
fn bring_back(op: u32, image: &mut Image, dst: &mut Dst, entry: &[u32; ENTRY]) -> u32
    ensures { record { image = image.new; dst = dst.new; cursor = result } ≡ Walks.brought_back op entry.now dst.old }
{
    image.copy_from_slice(&entry[..768]);
    bring_cells(op, dst, image, entry);
    entry[768]
}

// Instruction `k` of a list taken back by its entry; the cursor before it.
fn step_back(k: usize, image: &mut Image, dst: &mut Dst, list: &[u32], store: &[u32]) -> u32
    requires { (6 * k + 6 ≤ length list.now) × ((k < list_limit) × (802 * k + 802 ≤ length store.now)) }
    ensures { record { image = image.new; dst = dst.new; cursor = result } ≡ Walks.brought_back (insn_at list.now k).op (Walks.entry_in store.now k) dst.old }
{
    let first = 6 * k;
    let start = ENTRY * k;
    let end = start + ENTRY;
    let Some(entry) = store[start..end].as_array::<ENTRY>() else {
        unreachable!()
    };
    bring_back(list[first], image, dst, entry)
}

// The checks of a step back.
fn back_answer(
    s: Settings,
    w: Walk,
    image: &[u32],
    dst: &[u16],
    list: &[u32],
    store: &[u32],
) -> Result<(), Refusal>
    ensures { answer_of result ≡ Walks.call_answer Walks.back s list.now (Walks.standing w image.now dst.now store.now) }
{
    lent_answer(s, w.cursor, image, dst, list)?;
    last_answer(w.at, list, store.len())
}

// A step back: a refusal leaves all as it was.
pub fn back(
    s: Settings,
    w: Walk,
    image: &mut [u32],
    dst: &mut [u16],
    list: &[u32],
    store: &[u32],
) -> Walked
    ensures { Walks.Called Walks.back s list.now (Walks.standing w image.old dst.old store.now) result.answer (Walks.standing result.walk image.new dst.new store.now) }
{
    let answer = number_of(back_answer(s, w, image, dst, list, store));
    if answer != 0 {
        return Walked { answer, walk: w };
    }
    let at = w.at - 1;
    let Some(image) = image.as_mut_array::<768>() else {
        unreachable!()
    };
    let Some(dst) = dst.as_mut_array::<16384>() else {
        unreachable!()
    };
    let cursor = step_back(at as usize, image, dst, list, store);
    Walked {
        answer: 0,
        walk: Walk { at, cursor },
    }
}
