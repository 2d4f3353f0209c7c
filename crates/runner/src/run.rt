// One instruction over all lanes, and a run: all is checked before the first step.
ghost use Rattle.std.specs.Prelude.{◌≡◌, ℕ, ◌+◌, ◌*◌, ◌<◌, ◌≤◌, true, false, length};
ghost use Rattle.lane.specs.Load as Load;
ghost use Rattle.lane.specs.Swap as Swap;
ghost use Rattle.runner.specs.Checks as Checks;
ghost use Rattle.runner.specs.Run as Run;
ghost use Rattle.runner.specs.PrivateRows as Rows;
ghost use Rattle.runner.specs.PrivateCompute as Compute;
ghost use Rattle.runner.specs.PrivateSteps as Steps;

use crate::checks::{run_answer, told};
use crate::compute::{changes_flags, exexp, exexp_words, iadd, iadd_words, lz, valued};
use crate::config::config;
use crate::load::{load, loadi};
use crate::lut::lut;
use crate::rows::enabled_row;
use crate::store::store;
use crate::swap::swap;
use crate::tables::Tables;
use crate::traffic::{count_enabled, once, settle};
use crate::{Dst, Ended, Image, Onward, Outcome, Tally, insn_at};
use lane::load::{address, meets_dst, next_cursor, stride};
use lane::{Insn, Settings, op};

// An operation that stores once in each lane that is enabled, where vd is stored to, and leaves the flags. The op is a constant where one function serves several,
// which no table of functions would keep.
fn step_noted(i: Insn, image: &mut Image, go: &[u32; 128], tables: &Tables)
    requires enabled { Rows.Enabled go.now image.old }
    requires noted { Steps.IsNoted i.op i.md }
    ensures { Steps.Noted i image.old image.new go.now }
{
    let op = i.op;
    match op {
        op::LOADI => loadi(image, i, go),
        op::IADD => iadd_words(image, i, go, tables),
        op::ABS => valued(image, op::ABS, i, go, tables),
        op::AND => valued(image, op::AND, i, go, tables),
        op::OR => valued(image, op::OR, i, go, tables),
        op::XOR => valued(image, op::XOR, i, go, tables),
        op::NOT => valued(image, op::NOT, i, go, tables),
        op::EXEXP => exexp_words(image, i, go, tables),
        _ => valued(image, op::EXMAN, i, go, tables),
    }
}

// Any instruction that does not meet Dst and sets no flags, in every lane; the stores that are owed after it. `go` are the run's rows of masks.
fn step_stored(
    s: Settings,
    i: Insn,
    image: &mut Image,
    go: &mut [u32; 128],
    tables: &Tables,
    owed: u32,
    counts: &mut Tally,
) -> u32
    requires enabled { Rows.Enabled go.old image.old }
    requires ties { Steps.Room 4 counts.old.ties }
    requires stores { Steps.Room (4 * owed + 28) counts.old.stores }
    requires meets { Load.meets_dst i.op ≡ false }
    requires flags { Compute.changes_flags i.op i.md ≡ false }
    ensures { Steps.Stored s i image.old image.new go.new counts.old.ties counts.new.ties owed counts.old.stores result counts.new.stores }
{
    let op = i.op;
    match op {
        op::LUT => lut(image, i, go, &mut counts.stores),
        op::SWAP => swap(image, i, go, tables, counts),
        op::CONFIG => config(image, s.edition, i, &mut counts.stores),
        op::NOP => {}
        _ => {
            step_noted(i, image, go, tables);
            return owed + once(i.vd);
        }
    }
    owed
}

// IADD, LZ or EXEXP in every lane, where flags may change: what is owed is counted before the lanes that are enabled change, and their masks are kept up. It is
// counted in each arm: before them it would cost a second jump.
fn step_flagged(
    i: Insn,
    image: &mut Image,
    go: &mut [u32; 128],
    tables: &Tables,
    owed: u32,
    stores: &mut [u32],
)
    requires enabled { Rows.Enabled go.old image.old }
    requires stores { Steps.Room (4 * owed + 28) stores.old }
    requires flags { Compute.changes_flags i.op i.md ≡ true }
    ensures { Steps.Flagged i image.old image.new go.new owed stores.old stores.new }
{
    let op = i.op;
    match op {
        op::IADD => {
            settle(i.vd, owed, go, stores);
            iadd(image, i, go, tables)
        }
        op::LZ => {
            settle(i.vd, owed, go, stores);
            lz(image, i, go, tables)
        }
        _ => {
            settle(i.vd, owed, go, stores);
            exexp(image, i, go, tables)
        }
    }
}

// An instruction that meets Dst, at address `a`, in every lane: LOAD or STORE.
fn step_dst(
    s: Settings,
    i: Insn,
    a: u16,
    image: &mut Image,
    dst: &mut Dst,
    go: &[u32; 128],
    tables: &Tables,
    stores: &mut [u32],
)
    requires enabled { Rows.Enabled go.now image.old }
    requires address { a < 1024 }
    requires stores { Steps.Room 24 stores.old }
    requires meets { Load.meets_dst i.op ≡ true }
    ensures { (owed : ℕ) → Steps.Met s i a image.old dst.old image.new dst.new go.now owed stores.old stores.new }
{
    if i.op == op::LOAD {
        load(image, dst, s.srcb, a, i, go, stores);
        return;
    }
    store(image, dst, a, i, go, tables);
}

// One instruction, in every lane; the cursor after it, and the stores that are owed. Before the lanes that are enabled may change, what is owed to them is counted.
fn step_lanes(
    s: Settings,
    i: Insn,
    cursor: u32,
    image: &mut Image,
    dst: &mut Dst,
    go: &mut [u32; 128],
    tables: &Tables,
    owed: u32,
    counts: &mut Tally,
) -> Onward
    requires enabled { Rows.Enabled go.old image.old }
    requires ties { Steps.Room 4 counts.old.ties }
    requires stores { Steps.Room (4 * owed + 28) counts.old.stores }
    requires flags { Compute.changes_flags i.op i.md ≡ false }
    ensures { Steps.Left s i cursor image.old dst.old counts.old.ties owed counts.old.stores result image.new dst.new go.new counts.new.ties counts.new.stores }
{
    if meets_dst(i.op) {
        let a = address(i.imm, s.offset, cursor);
        step_dst(s, i, a, image, dst, go, tables, &mut counts.stores);
        return Onward {
            cursor: next_cursor(i.op, cursor, stride(s, i.vb)),
            owed,
        };
    }
    let due = step_stored(s, i, image, go, tables, owed, counts);
    Onward { cursor, owed: due }
}

// All instructions of a list in turn, from a cursor; the cursor after them, the ties that they met, and the stores that they made. What lasts through them is made
// once; `owed` are the stores that the counters lack of each lane that is enabled. The limit is a clause here and in `scanned`: a type for a list within it would be
// made in four places. By index, since a must-fail edit changes where the steps end.
pub(crate) fn step_list(
    s: Settings,
    cursor: u32,
    image: &mut Image,
    dst: &mut Dst,
    list: &[u32],
) -> Ended
    requires { length list.now ≤ 6 * Checks.list_limit }
    ensures { Steps.Through s cursor image.old dst.old list.now result.cursor image.new dst.new result.counts.ties result.counts.stores }
{
    let mut go = [0u32; 128];
    enabled_row(image, &mut go);
    let tables = Tables::new();
    let mut counts = Tally {
        ties: [0; 8],
        stores: [0; 8],
    };
    let mut owed: u32 = 0;
    let mut at = cursor;
    for k in 0..list.len() / 6 {
        let i = insn_at(list, k);
        if changes_flags(i.op, i.md) {
            step_flagged(i, image, &mut go, &tables, owed, &mut counts.stores);
            owed = 0;
        } else {
            let next = step_lanes(s, i, at, image, dst, &mut go, &tables, owed, &mut counts);
            at = next.cursor;
            owed = next.owed;
        }
    }
    count_enabled(&go, owed, &mut counts.stores);
    Ended { cursor: at, counts }
}

// A run of a list over an image and a Dst: a refusal leaves both untouched, and counts nothing. Whether it is accepted has a name, since a must-fail edit changes it.
pub fn run(s: Settings, image: &mut [u32], dst: &mut [u16], list: &[u32]) -> Outcome
    ensures { Run.Ran s image.old dst.old list.now result image.new dst.new }
{
    let (answer, place) = told(run_answer(s, image, dst, list));
    let accepted = answer == 0;
    if !accepted {
        return Outcome {
            answer,
            steps: 0,
            place,
            cursor: s.cursor,
            ties: [0u32; 8],
            stores: [0u32; 8],
        };
    }
    let Some(image) = image.as_mut_array::<768>() else {
        unreachable!()
    };
    let Some(dst) = dst.as_mut_array::<16384>() else {
        unreachable!()
    };
    let ended = step_list(s, s.cursor, image, dst, list);
    let ties = ended.counts.ties;
    let stores = ended.counts.stores;
    Outcome {
        answer: 0,
        steps: (list.len() / 6) as u32,
        place: 0,
        cursor: ended.cursor,
        ties,
        stores,
    }
}
