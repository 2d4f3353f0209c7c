// Register traffic: the stores to registers, counted by column.
//
// LOAD, LUT, SWAP and CONFIG count by the masks that they store under. Any other operation stores at most once in each lane that is enabled, and only adds to
// what is owed to every such lane. The lanes that are enabled change by IADD, LZ and EXEXP alone, and not with every mod: before they may, and at the end,
// what is owed is counted.
//
// The counters are lent as a part, as for ties. Each function says what room it needs in them: there is no one bound for a type to hold.
ghost use Rattle.std.specs.Prelude.{◌≡◌, ℕ, ◌+◌, ◌*◌, ◌<◌, ◌≤◌, Bool, length, nat_lt};
ghost use Rattle.lane.specs.Words.{flag_of};
ghost use Rattle.runner.specs.Run.{over_column};
ghost use Rattle.runner.specs.PrivateRows as Rows;
ghost use Rattle.runner.specs.PrivateSteps as Steps;

use std::num::wrapping_sub_u32;

// One store in each lane that is enabled, where vd is stored to.
pub(crate) fn once(vd: u32) -> u32
    ensures { result ≡ flag_of (nat_lt vd 8) }
{
    (vd < 8) as u32
}

// How many of a column's four lanes are marked, by the masks from `at` on: a mask taken away is 1 added.
fn marked_in(t: &[u32], at: usize, j: usize) -> u32
    requires within { at + 32 ≤ length t.now }
    requires masks { Rows.MasksAt at t.now }
    requires column { j < 8 }
    ensures { result ≡ over_column (λ L. flag_of (Rows.marked t.now (at + L))) j }
{
    let last = wrapping_sub_u32(0, t[at + 24 + j]);
    let third = wrapping_sub_u32(last, t[at + 16 + j]);
    let second = wrapping_sub_u32(third, t[at + 8 + j]);
    wrapping_sub_u32(second, t[at + j])
}

// So many stores in each lane that is marked by the 32 masks from `at` on. The number is a constant in every call. The columns go by index, by which their masks
// are read too.
pub(crate) fn count_marked(t: &[u32], at: usize, each: u32, stores: &mut [u32])
    requires within { at + 32 ≤ length t.now }
    requires masks { Rows.MasksAt at t.now }
    requires stores { Steps.Room (4 * each) stores.old }
    ensures { (e : ℕ → Bool) → Rows.MarksAt at e t.now → stores.new ≡ Steps.counted stores.old (Steps.times each e) }
{
    for j in 0..stores.len() {
        stores[j] = stores[j] + each * marked_in(t, at, j);
    }
}

// The same for the lanes that are enabled, and for any number.
pub(crate) fn count_enabled(go: &[u32; 128], each: u32, stores: &mut [u32])
    requires { Steps.Room (4 * each) stores.old }
    ensures { (e : ℕ → Bool) → Rows.MarksAt 0 e go.now → stores.new ≡ Steps.counted stores.old (Steps.times each e) }
{
    for j in 0..stores.len() {
        stores[j] = stores[j]
            + (go[j] & each)
            + (go[8 + j] & each)
            + (go[16 + j] & each)
            + (go[24 + j] & each);
    }
}

// What is owed counted, and the stores of an instruction that may change flags with it.
pub(crate) fn settle(vd: u32, owed: u32, go: &[u32; 128], stores: &mut [u32])
    requires { Steps.Room (4 * (owed + 1)) stores.old }
    ensures { (e : ℕ → Bool) → Rows.MarksAt 0 e go.now → stores.new ≡ Steps.counted stores.old (Steps.times (owed + flag_of (nat_lt vd 8)) e) }
{
    count_enabled(go, owed + once(vd), stores);
}
