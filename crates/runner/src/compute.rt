// IADD, ABS, AND, OR, XOR, NOT, LZ, EXEXP and EXMAN over all lanes: the row of vc, and of vb where it is read, is copied first, vd is read in
// place. The op is a constant wherever a loop is called, so that each has a loop of its own once compiled.
ghost use Rattle.std.specs.Prelude.{◌≡◌, ℕ, ◌<◌, false, not, ◌||◌, length, slice_index};
ghost use Rattle.lane.specs.Words.{has, enabled};
ghost use Rattle.lane.specs.Compute as Rules;
ghost use Rattle.runner.specs.Image.{lane_in};
ghost use Rattle.runner.specs.PrivateRows as Rows;
ghost use Rattle.runner.specs.PrivateCompute as Compute;

use crate::Image;
use crate::rows::{full, put, row, source, word_at};
use crate::tables::Tables;
use lane::compute::{exexp_word, flag_after, iadd_word, value_word};
use lane::words::{LANE_FLAG, USE_FLAG, enabled, keep};
use lane::{Insn, op};
use std::num::wrapping_add_u32;

// What vc is cut by before LZ counts: mod's 4 clears the top bit.
fn lz_limit(m: u32) -> u32
    ensures { result ≡ Compute.lz_limit m }
{
    0xFFFFFFFF - m / 4 % 2 * 0x80000000
}

// The zeros that LZ counts, the lowest digit taken as set, so that the word 0 has 31: of a word that is not zero a processor counts them in one
// instruction.
fn lz_count(limit: u32, c: u32) -> u32
    ensures { (m : ℕ) → limit ≡ Compute.lz_limit m → result ≡ Compute.lz_count m c }
{
    u32::leading_zeros((c & limit) | 1)
}

// LZ's word, from that count.
fn lz_from(m: u32, count: u32, c: u32) -> u32
    ensures { result ≡ Compute.lz_from m count c }
{
    wrapping_add_u32(count, keep(c & lz_limit(m) == 0, 1, 0))
}

// The word that an operation computes. LZ's comes counted, in vb's place.
fn word_of(op: u32, i: Insn, b: u32, c: u32, d: u32) -> u32
    ensures { result ≡ Compute.word_of op i b c d }
{
    match op {
        op::IADD => iadd_word(i.md, i.imm, c, d),
        op::LZ => lz_from(i.md, b, c),
        op::EXEXP => exexp_word(i.md, c),
        _ => value_word(op, i.md, b, c, d),
    }
}

// The word stored to vd in lane `n`, whose mask is `mask`.
fn word_put(image: &mut Image, n: usize, op: u32, i: Insn, b: u32, c: u32, mask: u32)
    requires lane { n < 32 }
    requires vd { i.vd < 8 }
    requires mask { mask ≡ Rows.full (enabled (lane_in image.old n)) }
    ensures { image.new ≡ Rows.storing_in image.old n (Compute.word_with op i b c (lane_in image.old n)) }
{
    let vd = i.vd as usize;
    let word = word_of(op, i, b, c, word_at(image, vd, n));
    put(image, vd, n, mask, word);
}

fn word_rows(image: &mut Image, op: u32, i: Insn, b: &[u32; 32], c: &[u32; 32], go: &[u32; 128])
    requires enabled { Rows.Enabled go.now image.old }
    requires vd { i.vd < 8 }
    ensures { image.new ≡ Rows.storing image.old (λ L. Compute.word_with op i (slice_index b.now L) (slice_index c.now L) (lane_in image.old L)) }
{
    for n in 0..32 {
        word_put(image, n, op, i, b[n], c[n], go[n]);
    }
}

// What LaneFlag is set to, from the word: negative, or for LZ, which counts 32 in no word but 0, not zero.
fn truth_of(op: u32, word: u32) -> bool
    ensures { result ≡ Compute.truth_of op word }
{
    if op == op::LZ {
        word < 32
    } else {
        0x80000000 <= word
    }
}

// The word stored to vd in lane `n`, and the flag; the lane's mask afterwards.
fn flagged_put(
    image: &mut Image,
    n: usize,
    op: u32,
    i: Insn,
    sets: bool,
    b: u32,
    c: u32,
    mask: u32,
) -> u32
    requires lane { n < 32 }
    requires vd { i.vd < 8 }
    requires mask { mask ≡ Rows.full (enabled (lane_in image.old n)) }
    ensures { (image.new ≡ Rows.storing_in image.old n (Compute.flagged_with op i sets b c (lane_in image.old n))) × (result ≡ Rows.full (enabled (lane_in image.new n))) }
{
    let vd = i.vd as usize;
    let word = word_of(op, i, b, c, word_at(image, vd, n));
    let old = word_at(image, LANE_FLAG, n);
    let flag = flag_after(sets, truth_of(op, word), i.md, old);
    put(image, vd, n, mask, word);
    put(image, LANE_FLAG, n, mask, flag);
    full(enabled(word_at(image, USE_FLAG, n), word_at(image, LANE_FLAG, n)))
}

fn flagged_rows(
    image: &mut Image,
    op: u32,
    i: Insn,
    sets: bool,
    b: &[u32; 32],
    c: &[u32; 32],
    go: &mut [u32; 128],
)
    requires enabled { Rows.Enabled go.old image.old }
    requires vd { i.vd < 8 }
    ensures { (image.new ≡ Rows.storing image.old (λ L. Compute.flagged_with op i sets (slice_index b.now L) (slice_index c.now L) (lane_in image.old L))) × Rows.Enabled go.new image.new }
{
    for n in 0..32 {
        go[n] = flagged_put(image, n, op, i, sets, b[n], c[n], go[n]);
    }
}

// The counts for LZ: in a loop of its own, since many processors count in no vector.
fn lz_counts(m: u32, c: &[u32; 32]) -> [u32; 32]
    ensures { result ≡ Rows.row (λ L. Compute.lz_count m (slice_index c.now L)) }
{
    let limit = lz_limit(m);
    row(|n| lz_count(limit, c[n]))
}

// An instruction with another mod.
fn with_mod(i: Insn, m: u32) -> Insn
    ensures { result ≡ Compute.with_mod i m }
{
    Insn { md: m, ..i }
}

// ABS, AND, OR, XOR, NOT or EXMAN over all lanes. AND and OR are of vb and vc with mod 0 too, vd then standing for vb; in the others mod is odd or even.
// So mod is a constant in every loop.
pub(crate) fn valued(image: &mut Image, op: u32, i: Insn, go: &[u32; 128], tables: &Tables)
    requires enabled { Rows.Enabled go.now image.old }
    requires op { Compute.sets_flags op ≡ false }
    ensures { image.new ≡ Rows.storing image.old (λ L. Rules.valued op i L (lane_in image.old L)) }
{
    if i.vd < 8 {
        let c = source(image, tables, i.vc);
        let two = (op == op::AND) | (op == op::OR);
        if two {
            let b = source(image, tables, keep(i.md % 2 == 1, i.vb, i.vd));
            word_rows(image, op, with_mod(i, 1), &b, &c, go);
        } else if i.md % 2 == 1 {
            word_rows(image, op, with_mod(i, 1), &c, &c, go);
        } else {
            word_rows(image, op, with_mod(i, 0), &c, &c, go);
        }
    }
}

// Whether LaneFlag is set or inverted; where it is neither, the words are stored alone.
fn touches(sets: bool, m: u32) -> bool
    ensures { result ≡ (sets || has m 8) }
{
    sets | (m / 8 % 2 == 1)
}

// Whether an instruction may change flags. LZ is taken to with every mod, so that its counts have one loop.
pub(crate) fn changes_flags(op: u32, m: u32) -> bool
    ensures { result ≡ Compute.changes_flags op m }
{
    match op {
        op::IADD => touches(!(m / 4 % 2 == 1), m),
        op::LZ => true,
        op::EXEXP => touches(m / 2 % 2 == 1, m),
        _ => false,
    }
}

// IADD over all lanes, the words alone: for a mod that leaves the flags. It and EXEXP's are two functions: their promises name two rules, `Rules.iadd` and
// `Rules.exexp`, each for the mods that leave its flags, and each has a loop of its own once compiled.
pub(crate) fn iadd_words(image: &mut Image, i: Insn, go: &[u32; 128], tables: &Tables)
    requires enabled { Rows.Enabled go.now image.old }
    requires md { (not (has i.md 4) || has i.md 8) ≡ false }
    ensures { (image.new ≡ Rows.storing image.old (λ L. Rules.iadd i L (lane_in image.old L))) × Rows.Enabled go.now image.new }
{
    if i.vd < 8 {
        let c = source(image, tables, i.vc);
        word_rows(image, op::IADD, i, &c, &c, go);
    }
}

// EXEXP's words alone.
pub(crate) fn exexp_words(image: &mut Image, i: Insn, go: &[u32; 128], tables: &Tables)
    requires enabled { Rows.Enabled go.now image.old }
    requires md { (has i.md 2 || has i.md 8) ≡ false }
    ensures { (image.new ≡ Rows.storing image.old (λ L. Rules.exexp i L (lane_in image.old L))) × Rows.Enabled go.now image.new }
{
    if i.vd < 8 {
        let c = source(image, tables, i.vc);
        word_rows(image, op::EXEXP, i, &c, &c, go);
    }
}

// IADD over all lanes. Each of its three words has a call, all the same, and so a loop without the tests of the other two.
pub(crate) fn iadd(image: &mut Image, i: Insn, go: &mut [u32; 128], tables: &Tables)
    requires { Rows.Enabled go.old image.old }
    ensures { (image.new ≡ Rows.storing image.old (λ L. Rules.iadd i L (lane_in image.old L))) × Rows.Enabled go.new image.new }
{
    if i.vd < 8 {
        let c = source(image, tables, i.vc);
        let sets = !(i.md / 4 % 2 == 1);
        if i.md % 2 == 1 {
            flagged_rows(image, op::IADD, i, sets, &c, &c, go);
        } else if i.md / 2 % 2 == 1 {
            flagged_rows(image, op::IADD, i, sets, &c, &c, go);
        } else {
            flagged_rows(image, op::IADD, i, sets, &c, &c, go);
        }
    }
}

// LZ over all lanes.
pub(crate) fn lz(image: &mut Image, i: Insn, go: &mut [u32; 128], tables: &Tables)
    requires { Rows.Enabled go.old image.old }
    ensures { (image.new ≡ Rows.storing image.old (λ L. Rules.lz i L (lane_in image.old L))) × Rows.Enabled go.new image.new }
{
    if i.vd < 8 {
        let c = source(image, tables, i.vc);
        let counts = lz_counts(i.md, &c);
        let sets = i.md / 2 % 2 == 1;
        if touches(sets, i.md) {
            flagged_rows(image, op::LZ, i, sets, &counts, &c, go);
        } else {
            word_rows(image, op::LZ, i, &counts, &c, go);
        }
    }
}

// EXEXP over all lanes, in the same way where mod inverts flags and where not.
pub(crate) fn exexp(image: &mut Image, i: Insn, go: &mut [u32; 128], tables: &Tables)
    requires { Rows.Enabled go.old image.old }
    ensures { (image.new ≡ Rows.storing image.old (λ L. Rules.exexp i L (lane_in image.old L))) × Rows.Enabled go.new image.new }
{
    if i.vd < 8 {
        let c = source(image, tables, i.vc);
        let sets = i.md / 2 % 2 == 1;
        if i.md / 8 % 2 == 1 {
            flagged_rows(image, op::EXEXP, i, sets, &c, &c, go);
        } else {
            flagged_rows(image, op::EXEXP, i, sets, &c, &c, go);
        }
    }
}
