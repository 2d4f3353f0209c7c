// SWAP: which lanes act, the comparison of words, and the decision.

// The proofs here look into these definitions.
#![tactic(auto, unfolding(crate::specs::Words::pick))]

ghost use Rattle.std.specs.Prelude.{◌≡◌, ◌+◌, ◌-◌, nat_lt, slice_index};
ghost use Rattle.lane.specs.Words.{pick, lane_of};
ghost use Rattle.lane.specs.Swap as Swap;

use crate::Order;
use crate::words::{LANE_CONFIG, is_enabled, is_set, keep};

// For each mod, the lanes in which vd wants the minimum, lane 0 the lowest bit.
pub const MASKS: [u32; 16] = [
    0, 0xFFFFFFFF, 0x0000FFFF, 0x00FF00FF, 0xFF0000FF, 0x000000FF, 0x0000FF00, 0x00FF0000,
    0xFF000000, 0, 0, 0, 0, 0, 0, 0,
];

// The mask of mod `m` in a table that is lent, so that a run makes it once; none for a number that is no mod.
pub fn mask_in(masks: &[u32; 16], m: u32) -> u32
    ensures { result ≡ pick (nat_lt m 16) (slice_index masks.now m) 0 }
{
    masks.get(m as usize).copied().unwrap_or(0)
}

// The lanes in which vd wants the minimum, for mod `m`.
pub(crate) fn mask_of(m: u32) -> u32
    ensures { result ≡ Swap.mask_of m }
{
    mask_in(&MASKS, m)
}

// Whether a lane is among those of a mask.
pub fn in_mask(mask: u32, lane: u8) -> bool
    ensures { result ≡ Swap.in_mask mask lane }
{
    is_set(mask, (lane % 32) as u32)
}

// Whether SWAP, or LUT, acts in a lane.
pub(crate) fn acts(vd: u32, own: &[u32; 24]) -> bool
    ensures { result ≡ Swap.acts vd (lane_of own.now) }
{
    ((vd < 12) | (own[LANE_CONFIG] / 16 % 2 == 1)) & is_enabled(own)
}

// A word's place in the order of ranks, the lowest 0, so that comparing numbers compares ranks. The last exclusive or is that of a signed comparison's
// turn, so that a processor that compares signed words alone has none to add.
fn key(x: u32) -> u32
    ensures { result ≡ pick (nat_lt x 0x80000000) (x + 0x80000000) (0xFFFFFFFF - x) }
{
    (x ^ keep(0x80000000 <= x, 0x7FFFFFFF, 0)) ^ 0x80000000
}

// How `c` ranks against `d`.
pub fn compared(c: u32, d: u32) -> Order
    ensures { result ≡ Swap.compared c d }
{
    let a = key(c);
    let b = key(d);
    if a < b {
        Order::Below
    } else if a == b {
        Order::Equal
    } else {
        Order::Above
    }
}

// Whether that answer is below, by which SWAP decides.
pub fn is_below(order: Order) -> bool
    ensures { result ≡ Swap.is_below order }
{
    order == Order::Below
}

// Whether a lane swaps: always, or by the order that vd wants, which bit 8 reverses.
pub(crate) fn swaps(always: bool, minimum: bool, reversed: bool, c: u32, d: u32) -> bool
    ensures { result ≡ Swap.swaps always minimum reversed c d }
{
    always | (reversed != (minimum == is_below(compared(c, d))))
}
