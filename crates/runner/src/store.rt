// STORE over all lanes. A lane's two cells lie side by side: they are read as one word and written as one, with the new cell in the half that
// the lane's masks open, so that no place is worked out for each lane.
ghost use Rattle.std.specs.Prelude.{◌≡◌, ℕ, ◌+◌, ◌*◌, ◌/◌, ◌%◌, ◌<◌, ◌≤◌, Bool, length, slice_index, slice_set};
ghost use Rattle.lane.specs.Words.{pick, bit};
ghost use Rattle.lane.specs.Load.{with_high, with_low};
ghost use Rattle.lane.specs.Store as Rules;
ghost use Rattle.runner.specs.Image.{lane_in};
ghost use Rattle.runner.specs.Run.{even_cell, odd_cell, with_cells};
ghost use Rattle.runner.specs.PrivateRows as Rows;
ghost use Rattle.runner.specs.PrivateStore as StoreRows;

use crate::load::odd_row;
use crate::rows::{row, source};
use crate::tables::Tables;
use crate::{Dst, Image};
use lane::Insn;
use lane::store::stored_cell;

// A pair of cells as a word, the even one in its low half. The word is used once, so that the compiler reads both cells at a time.
fn pair_at(dst: &Dst, at: usize) -> u32
    requires { at + 1 < 16384 }
    ensures { result ≡ StoreRows.pair_of (slice_index dst.now at) (slice_index dst.now (at + 1)) }
{
    dst[at] as u32 + dst[at + 1] as u32 * 0x10000
}

// The pairs of all lanes, from `first` on, in a loop of their own before any is written.
fn pairs_of(dst: &Dst, first: usize) -> [u32; 32]
    requires { first + 64 ≤ 16384 }
    ensures { result ≡ Rows.row (λ L. StoreRows.pair_of (slice_index dst.now (first + 2 * L)) (slice_index dst.now (first + 2 * L + 1))) }
{
    row(|n| pair_at(dst, first + 2 * n))
}

// A pair of cells from such a word.
fn put_pair(dst: &mut Dst, at: usize, both: u32)
    requires { at + 1 < 16384 }
    ensures { dst.new ≡ slice_set (slice_set dst.old at (both % 65536)) (at + 1) (both / 65536) }
{
    dst[at] = (both % 0x10000) as u16;
    dst[at + 1] = (both / 0x10000) as u16;
}

// The pair afterwards, by the masks of whether the lane is enabled and of whether its cell is the odd one. The halves are cut out and added, and not
// mixed as `masked` does, which would use the old pair twice.
fn pair_after(go: u32, odd: u32, cell: u16, old: u32) -> u32
    ensures { (s t : Bool) → go ≡ Rows.full s → odd ≡ Rows.full t → result ≡ pick s (pick t (with_high old cell) (with_low old cell)) old }
{
    let half = go & (odd ^ 0xFFFF);
    (old & !half) + ((cell as u32 * 0x10001) & half)
}

// STORE's cells with mod `m`, of a row of words.
pub(crate) fn store_rows(
    dst: &mut Dst,
    a: u16,
    m: u32,
    words: &[u32; 32],
    odds: &[u32; 32],
    go: &[u32; 128],
)
    requires address { a < 1024 }
    requires odds { Rows.Masks 32 odds.now }
    requires go { Rows.Masks 32 go.now }
    ensures { dst.new ≡ with_cells a dst.old (StoreRows.stored_by m words.now odds.now go.now dst.old a) }
{
    let first = 64 * ((a as usize) / 4);
    let old = pairs_of(dst, first);
    for n in 0..32 {
        let cell = stored_cell(m, words[n]);
        let both = pair_after(go[n], odds[n], cell, old[n]);
        put_pair(dst, first + 2 * n, both);
    }
}

// The mod is a constant in each arm, so that each has a loop of its own once compiled. 9 is as 6.
fn store_by_mod(dst: &mut Dst, a: u16, m: u32, words: &[u32; 32], odds: &[u32; 32], go: &[u32; 128])
    requires address { a < 1024 }
    requires odds { Rows.Masks 32 odds.now }
    requires go { Rows.Masks 32 go.now }
    ensures { dst.new ≡ with_cells a dst.old (StoreRows.stored_by m words.now odds.now go.now dst.old a) }
{
    match m {
        2 => store_rows(dst, a, 2, words, odds, go),
        7 => store_rows(dst, a, 7, words, odds, go),
        _ => store_rows(dst, a, 6, words, odds, go),
    }
}

// STORE over all lanes, at address `a`.
pub(crate) fn store(image: &Image, dst: &mut Dst, a: u16, i: Insn, go: &[u32; 128], tables: &Tables)
    requires enabled { Rows.Enabled go.now image.now }
    requires address { a < 1024 }
    ensures { dst.new ≡ with_cells a dst.old (λ L. Rules.store a i L (bit (lane_in image.now (L % 8) 12) 5) (even_cell dst.old a L) (odd_cell dst.old a L) (lane_in image.now L)) }
{
    let odds = odd_row(image, a);
    let words = source(image, tables, i.vd);
    store_by_mod(dst, a, i.md, &words, &odds, go);
}
