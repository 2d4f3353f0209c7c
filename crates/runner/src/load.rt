// LOAD and LOADI over all lanes. LOAD reads both cells of each lane's pair and keeps one by a mask, so that no place is worked out for each
// lane; then it stores the words, and the captured places in a loop of their own, and counts both by the masks they were stored under.
//
// That an address has ten bits is said in each contract, here, in store.rt and above: a type for it would be made anew from each u16 that lane's `address`
// returns, and taken apart where it is used. That `opens` is the row of an image is said in each too: no struct holds it, since the image is stored to meanwhile.
ghost use Rattle.std.specs.Prelude.{◌≡◌, ℕ, ◌+◌, ◌*◌, ◌%◌, ◌<◌, ◌≤◌, Bool, length, slice_index};
ghost use Rattle.lane.specs.Words.{bit, build, register_stores};
ghost use Rattle.lane.specs.Load as Rules;
ghost use Rattle.runner.specs.Image.{lane_in};
ghost use Rattle.runner.specs.Run.{even_cell, odd_cell};
ghost use Rattle.runner.specs.PrivateRows as Rows;
ghost use Rattle.runner.specs.PrivateLoad as LoadRows;
ghost use Rattle.runner.specs.PrivateSteps as Steps;

use crate::rows::{by_columns, full, masked, put, row, word_at};
use crate::traffic::count_marked;
use crate::{Dst, Image};
use lane::Insn;
use lane::load::{captures, immediate, loaded, resolved};
use lane::words::LANE_CONFIG;

// The masks of the lanes whose cell is the odd one of its pair. The four lanes of a column go by the first one's LaneConfig.
pub(crate) fn odd_row(image: &Image, a: u16) -> [u32; 32]
    ensures { result ≡ LoadRows.odd_in image.now a }
{
    let all = full(a / 2 % 2 == 1);
    by_columns(|j| all | full(word_at(image, LANE_CONFIG, j) / 32 % 2 == 1))
}

// Both cells of every lane, one pair after the other from `at` on. These are 64 words, and `row`'s are 32; after `array::from_fn` the search leaves
// `returns` open.
fn pairs(dst: &Dst, at: usize) -> [u32; 64]
    requires { at + 64 ≤ 16384 }
    ensures { result ≡ build 64 (λ k. slice_index dst.now (at + k)) }
{
    let mut both = [0u32; 64];
    for k in 0..64 {
        both[k] = dst[at + k] as u32;
    }
    both
}

// The cell of each lane: the odd one of its pair, or the even one, by its mask.
pub(crate) fn cells(dst: &Dst, at: usize, odds: &[u32; 32]) -> [u32; 32]
    requires { at + 64 ≤ 16384 }
    ensures { (odd : ℕ → Bool) → odds.now ≡ Rows.row (λ L. Rows.full (odd L)) → result ≡ Rows.row (λ L. LoadRows.cell_of dst.now at (odd L) L) }
{
    let both = pairs(dst, at);
    row(|n| masked(odds[n], both[2 * n + 1], both[2 * n]))
}

// The masks of the lanes that LOAD stores in: enabled, and not held back by bit 1 of LaneConfig.
fn open_row(image: &Image, go: &[u32; 128]) -> [u32; 32]
    requires { Rows.Enabled go.now image.now }
    ensures { result ≡ LoadRows.open_in image.now }
{
    row(|n| go[n] & full(!(word_at(image, LANE_CONFIG, n) / 2 % 2 == 1)))
}

// LOAD's words with mod `m`. The words of `got` are cells: cutting them to 16 bits changes nothing, and `loaded` takes no more.
fn load_rows(image: &mut Image, vd: usize, m: u32, got: &[u32; 32], opens: &[u32; 32])
    requires vd { vd < 8 }
    requires opens { opens.now ≡ LoadRows.open_in image.old }
    ensures { image.new ≡ Rows.storing image.old (λ L. LoadRows.loaded_only vd m (slice_index got.now L % 65536) (lane_in image.old L)) }
{
    for n in 0..32 {
        let inf = word_at(image, LANE_CONFIG, n) % 2 == 1;
        let word = loaded(m, inf, word_at(image, vd, n), (got[n] % 65536) as u16);
        put(image, vd, n, opens[n], word);
    }
}

// The mod is a constant in each arm, so that each has a loop of its own once compiled. A mod that has no conversion gives 0, as 11 does.
fn load_by_mod(image: &mut Image, vd: usize, m: u32, got: &[u32; 32], opens: &[u32; 32])
    requires vd { vd < 8 }
    requires opens { opens.now ≡ LoadRows.open_in image.old }
    ensures { image.new ≡ Rows.storing image.old (λ L. LoadRows.loaded_only vd m (slice_index got.now L % 65536) (lane_in image.old L)) }
{
    match m {
        1 => load_rows(image, vd, 1, got, opens),
        2 => load_rows(image, vd, 2, got, opens),
        5 => load_rows(image, vd, 5, got, opens),
        6 => load_rows(image, vd, 6, got, opens),
        7 => load_rows(image, vd, 7, got, opens),
        8 => load_rows(image, vd, 8, got, opens),
        9 => load_rows(image, vd, 9, got, opens),
        13 => load_rows(image, vd, 13, got, opens),
        14 => load_rows(image, vd, 14, got, opens),
        15 => load_rows(image, vd, 15, got, opens),
        _ => load_rows(image, vd, 11, got, opens),
    }
}

// The captured places, vd being below 4; `first` is the place of lane 0's even cell. The masks of the lanes that capture are returned.
fn capture_rows(
    image: &mut Image,
    vd: usize,
    first: u32,
    odds: &[u32; 32],
    opens: &[u32; 32],
) -> [u32; 32]
    requires vd { vd < 4 }
    requires first { first < 16384 }
    requires opens { opens.now ≡ LoadRows.open_in image.old }
    ensures { (image.new ≡ Rows.storing image.old (λ L. LoadRows.captured_only vd (first + 2 * L + slice_index odds.now L % 2) (lane_in image.old L))) × (result ≡ LoadRows.caught_in vd image.old) }
{
    let mut caught = [0u32; 32];
    for n in 0..32 {
        let mask = opens[n] & full(captures(vd as u32, word_at(image, LANE_CONFIG, n)));
        put(image, vd + 4, n, mask, first + 2 * (n as u32) + odds[n] % 2);
        caught[n] = mask;
    }
    caught
}

// The captured places, for any vd below 8, and the count of them: none from 4 on.
fn capture(
    image: &mut Image,
    vd: usize,
    first: u32,
    odds: &[u32; 32],
    opens: &[u32; 32],
    stores: &mut [u32],
)
    requires first { first < 16384 }
    requires opens { opens.now ≡ LoadRows.open_in image.old }
    requires stores { Steps.Room 4 stores.old }
    ensures { (image.new ≡ Rows.storing image.old (λ L. LoadRows.captured_only vd (first + 2 * L + slice_index odds.now L % 2) (lane_in image.old L))) × (stores.new ≡ Steps.counted stores.old (Steps.times 1 (LoadRows.is_caught vd image.old))) }
{
    if vd < 4 {
        let caught = capture_rows(image, vd, first, odds, opens);
        count_marked(&caught, 0, 1, stores);
    }
}

// LOAD with mod `m` at address `a`, vd being below 8.
fn load_words(
    image: &mut Image,
    dst: &Dst,
    a: u16,
    vd: usize,
    m: u32,
    go: &[u32; 128],
    stores: &mut [u32],
)
    requires enabled { Rows.Enabled go.now image.old }
    requires address { a < 1024 }
    requires vd { vd < 8 }
    requires stores { Steps.Room 24 stores.old }
    ensures { (image.new ≡ Rows.storing image.old (λ L. LoadRows.loaded_at image.old dst.now a vd m L)) × (stores.new ≡ Steps.counted stores.old (λ L. register_stores (LoadRows.loaded_at image.old dst.now a vd m L))) }
{
    let odds = odd_row(image, a);
    let first = 64 * ((a as usize) / 4);
    let got = cells(dst, first, &odds);
    let opens = open_row(image, go);
    load_by_mod(image, vd, m, &got, &opens);
    capture(image, vd, first as u32, &odds, &opens, stores);
    count_marked(&opens, 0, 1, stores);
}

// LOAD over all lanes, at address `a`.
pub(crate) fn load(
    image: &mut Image,
    dst: &Dst,
    srcb: u32,
    a: u16,
    i: Insn,
    go: &[u32; 128],
    stores: &mut [u32],
)
    requires enabled { Rows.Enabled go.now image.old }
    requires address { a < 1024 }
    requires stores { Steps.Room 24 stores.old }
    ensures { (image.new ≡ Rows.storing image.old (λ L. Rules.load srcb a i L (bit (lane_in image.old (L % 8) 12) 5) (even_cell dst.now a L) (odd_cell dst.now a L) (lane_in image.old L))) × (stores.new ≡ Steps.counted stores.old (λ L. register_stores (Rules.load srcb a i L (bit (lane_in image.old (L % 8) 12) 5) (even_cell dst.now a L) (odd_cell dst.now a L) (lane_in image.old L)))) }
{
    if i.vd < 8 {
        load_words(
            image,
            dst,
            a,
            i.vd as usize,
            resolved(srcb, i.md),
            go,
            stores,
        );
    }
}

// LOADI's words, vd being below 8.
fn loadi_rows(image: &mut Image, i: Insn, go: &[u32; 128])
    requires enabled { Rows.Enabled go.now image.old }
    requires vd { i.vd < 8 }
    ensures { image.new ≡ Rows.storing image.old (λ L. Rules.loadi i (lane_in image.old L)) }
{
    let vd = i.vd as usize;
    for n in 0..32 {
        let word = immediate(i.md, i.imm, word_at(image, vd, n));
        put(image, vd, n, go[n], word);
    }
}

// LOADI over all lanes.
pub(crate) fn loadi(image: &mut Image, i: Insn, go: &[u32; 128])
    requires { Rows.Enabled go.now image.old }
    ensures { image.new ≡ Rows.storing image.old (λ L. Rules.loadi i (lane_in image.old L)) }
{
    if i.vd < 8 {
        loadi_rows(image, i, go);
    }
}
