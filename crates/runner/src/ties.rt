// SWAP's ties: the equal pairs that the lanes meet, counted by column, before anything is stored.
ghost use Rattle.std.specs.Prelude.{◌≡◌, ◌<◌, Bool, ◌&&◌, ◌||◌, length, slice_index};
ghost use Rattle.lane.specs.Words.{bit, flag_of, reg};
ghost use Rattle.lane.specs.Swap as Rules;
ghost use Rattle.runner.specs.Image.{lane_in};
ghost use Rattle.runner.specs.PrivateRows as Rows;
ghost use Rattle.runner.specs.PrivateSteps as Steps;
ghost use Rattle.runner.specs.PrivateSwap as Swaps;

use crate::Image;
use crate::rows::{full, may_act, word_at};
use lane::Insn;
use lane::words::LANE_CONFIG;

// 1 if a lane meets an equal pair, else 0, from its mask of being enabled: `free` of bit 4 for vd below 12. Words of equal rank are equal, so that no rank is
// worked out.
fn tie_flag(go: u32, free: bool, config: u32, c: u32, d: u32) -> u32
    ensures { (e : Bool) → go ≡ Rows.full e → result ≡ flag_of (((free || bit config 4) && e) && Rules.is_equal (Rules.compared c d)) }
{
    go & full(may_act(free, config) & (c == d)) & 1
}

// The same for lane `n`.
fn tie_at(image: &Image, free: bool, go: &[u32; 128], c: &[u32; 32], d: &[u32; 32], n: usize) -> u32
    requires enabled { Rows.Enabled go.now image.now }
    requires lane { n < 32 }
    ensures { result ≡ flag_of (Swaps.tied_by free (slice_index c.now n) (slice_index d.now n) (lane_in image.now n)) }
{
    let config = word_at(image, LANE_CONFIG, n);
    tie_flag(go[n], free, config, c[n], d[n])
}

// The columns one by one by index, by which each one's four lanes are read too, so that eight counters are read and written where 32 would be. They are lent as a
// part, whose length the compiler learns late: else it unrolls the loop before it weighs the steps, which then come close to its bound for one function
// (bench/RESULTS.md).
fn count_columns(
    image: &Image,
    free: bool,
    go: &[u32; 128],
    c: &[u32; 32],
    d: &[u32; 32],
    ties: &mut [u32],
)
    requires enabled { Rows.Enabled go.now image.now }
    requires ties { Steps.Room 4 ties.old }
    ensures { ties.new ≡ Steps.counted ties.old (λ L. flag_of (Swaps.tied_by free (slice_index c.now L) (slice_index d.now L) (lane_in image.now L))) }
{
    for j in 0..ties.len() {
        ties[j] = ties[j]
            + tie_at(image, free, go, c, d, j)
            + tie_at(image, free, go, c, d, 8 + j)
            + tie_at(image, free, go, c, d, 16 + j)
            + tie_at(image, free, go, c, d, 24 + j);
    }
}

// The ties of a SWAP whose vc and vd have the rows `c` and `d`: none under mod 0. Each call has a constant, so that each has a loop of its own once compiled.
// Here and in swap.rt the rows go as two, each with its equation: no struct of them could hold that, since it speaks of the image, which is lent apart.
pub(crate) fn count_ties(
    image: &Image,
    i: Insn,
    go: &[u32; 128],
    c: &[u32; 32],
    d: &[u32; 32],
    ties: &mut [u32],
)
    requires enabled { Rows.Enabled go.now image.now }
    requires ties { Steps.Room 4 ties.old }
    requires c { c.now ≡ Rows.row (λ L. reg L (lane_in image.now L) i.vc) }
    requires d { d.now ≡ Rows.row (λ L. reg L (lane_in image.now L) i.vd) }
    ensures { ties.new ≡ Steps.counted ties.old (λ L. flag_of (Rules.tied i L (lane_in image.now L))) }
{
    let ties_count = i.md != 0;
    if ties_count {
        if i.vd < 12 {
            count_columns(image, true, go, c, d, ties);
        } else {
            count_columns(image, false, go, c, d, ties);
        }
    }
}
