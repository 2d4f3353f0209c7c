// Rows: a word for each of the 32 lanes. A test for each lane is a row of masks, a word of ones or of zeros. `put` is the one function in the crate that stores
// a word to an image; a step back copies a whole one back (`bring_back`).
ghost use Rattle.std.specs.Prelude.{◌≡◌, ℕ, ◌+◌, ◌*◌, ◌<◌, ◌≤◌, Bool, ◌||◌, [], ◌∷◌, length, slice_index};
ghost use Rattle.lane.specs.Words.{bit, pick, reg, is_stored, slot_of};
ghost use Rattle.runner.specs.Image.{word_at, lane_in};
ghost use Rattle.runner.specs.PrivateRows as Rows;

use crate::Image;
use crate::tables::Tables;
use lane::words::{LANE_FLAG, USE_FLAG, enabled, fixed_word, keep};
use std::array;

// A test as a mask.
pub(crate) fn full(test: bool) -> u32
    ensures { result ≡ Rows.full test }
{
    if test { 0xFFFFFFFF } else { 0 }
}

// One word or the other, by a mask.
pub(crate) fn masked(mask: u32, new: u32, old: u32) -> u32
    ensures { (t : Bool) → mask ≡ Rows.full t → result ≡ pick t new old }
{
    old ^ ((old ^ new) & mask)
}

// Whether SWAP and LUT may act in a lane with this LaneConfig: `free` of its bit 4 for vd below 12.
pub(crate) fn may_act(free: bool, config: u32) -> bool
    ensures { result ≡ (free || bit config 4) }
{
    free | (config / 16 % 2 == 1)
}

// Where the word of a slot in lane `n` lies. Slots below 24, lanes below 32 and, where it is stored to, vd below 8 stand in clauses: a type of each would be made
// anew from each number.
fn place(slot: usize, n: usize) -> usize
    requires slot { slot < 24 }
    requires lane { n < 32 }
    ensures { result ≡ word_at slot n }
{
    32 * slot + n
}

// The word of a slot in lane `n`.
pub(crate) fn word_at(image: &Image, slot: usize, n: usize) -> u32
    requires slot { slot < 24 }
    requires lane { n < 32 }
    ensures { result ≡ lane_in image.now n slot }
{
    let at = place(slot, n);
    image[at]
}

// A word stored to a slot in lane `n`, under a mask. The store always happens, so that a loop over the lanes has no branch.
pub(crate) fn put(image: &mut Image, slot: usize, n: usize, mask: u32, word: u32)
    requires slot { slot < 24 }
    requires lane { n < 32 }
    ensures { (t : Bool) → mask ≡ Rows.full t → image.new ≡ Rows.storing_in image.old n (pick t ((slot, word) ∷ []) []) }
{
    let at = place(slot, n);
    image[at] = masked(mask, word, image[at]);
}

// A row, lane by lane.
pub(crate) fn row<F: Fn(usize) -> u32>(word: F) -> [u32; 32]
    requires { (n : ℕ) → n < 32 → F.pre word n }
    ensures { (w : ℕ → ℕ) → ((n v : ℕ) → n < 32 → F.post word n v → v ≡ w n) → result ≡ Rows.row w }
{
    array::from_fn(word)
}

// A row that holds the same word in the four lanes of a column, column by column.
pub(crate) fn by_columns<F: Fn(usize) -> u32>(word: F) -> [u32; 32]
    requires { (j : ℕ) → j < 8 → F.pre word j }
    ensures { (w : ℕ → ℕ) → ((j v : ℕ) → j < 8 → F.post word j v → v ≡ w j) → result ≡ Rows.columns w }
{
    let mut words = [0u32; 32];
    for j in 0..8 {
        let value = word(j);
        words[j] = value;
        words[8 + j] = value;
        words[16 + j] = value;
        words[24 + j] = value;
    }
    words
}

// 32 words of a part, from `at` on.
pub(crate) fn copied(part: &[u32], at: usize) -> [u32; 32]
    requires { at + 32 ≤ length part.now }
    ensures { result ≡ Rows.row (λ L. slice_index part.now (at + L)) }
{
    row(|n| part[at + n])
}

// The row of a slot.
pub(crate) fn slot_row(image: &Image, slot: usize) -> [u32; 32]
    requires { slot < 24 }
    ensures { result ≡ Rows.row (λ L. lane_in image.now L slot) }
{
    copied(image, place(slot, 0))
}

// The masks of the lanes that are enabled, in the first of a run's four rows of masks: the three operations that set flags keep it up. The other three are
// SWAP's scratch. The rows are lent and not returned, so that they stay where they are; so the loop fills the lent row, and `row` would make one to be copied.
//
// Image and masks are in no struct that holds `Enabled`: it fails between a store to LaneFlag and the update of that lane's mask (`flagged_put`), and the image
// is lent to be stored to while the masks are lent to be read. `Rows.Masks` asks less of such words, and follows from what made them.
// The four rows are one array: as four, `masks_at` would choose one to lend and not a number, and all that lend `t` on would lend three or four.
pub(crate) fn enabled_row(image: &Image, go: &mut [u32; 128])
    ensures { Rows.Enabled go.new image.now }
{
    for n in 0..32 {
        go[n] = full(enabled(word_at(image, USE_FLAG, n), word_at(image, LANE_FLAG, n)));
    }
}

// The rows of the registers that are never stored, one after the other: 8, 9, 10 and 15. They are one array, not four that `row` makes, since `source` copies one
// by where it begins, as it copies one of an image.
pub(crate) fn fixed_rows() -> [u32; 128]
    ensures { result ≡ Rows.fixed_rows }
{
    let mut rows = [0u32; 128];
    for n in 0..32 {
        rows[n] = fixed_word(8, n as u8);
        rows[32 + n] = fixed_word(9, n as u8);
        rows[64 + n] = fixed_word(10, n as u8);
        rows[96 + n] = fixed_word(15, n as u8);
    }
    rows
}

// A register's number, any past the last taken for the last: both read the same.
fn register_of(r: u32) -> u32
    ensures { (result < 16) × (result ≡ Rows.register_of r) }
{
    if r < 16 { r } else { 15 }
}

// Whether a register is stored, by a mask with its bit set where it is: by hand, since lane's `is_set` is lane's own.
fn is_stored(q: u32) -> bool
    requires { q < 16 }
    ensures { result ≡ is_stored q }
{
    (0x78FFu32 >> q) % 2 == 1
}

// The slot of a stored register.
fn slot_of(q: u32) -> u32
    requires { q < 16 }
    ensures { (result < 16) × (result ≡ slot_of q) }
{
    if q < 8 { q } else { q - 3 }
}

// The row of a register, as an operand; of the rows that are never stored, register q's is the q mod 4th. Where the row begins is worked
// out without a branch, since no processor could guess it.
pub(crate) fn source(image: &Image, tables: &Tables, r: u32) -> [u32; 32]
    ensures { result ≡ Rows.row (λ L. reg L (lane_in image.now L) r) }
{
    let q = register_of(r);
    let stored = is_stored(q);
    let at = 32 * (keep(stored, slot_of(q), q % 4) as usize);
    if stored {
        return copied(image, at);
    }
    copied(&tables.fixed, at)
}
