// IADD, ABS, AND, OR, XOR, NOT, LZ, EXEXP and EXMAN: the words that they compute and the flags that they set.

// The proofs here look into these definitions.
#![tactic(auto, unfolding(crate::specs::Compute::abs_word, crate::specs::Compute::exexp_word, crate::specs::Compute::exman_word, crate::specs::Compute::flag_after, crate::specs::Compute::inverted, crate::specs::Compute::lz_operand, crate::specs::Compute::other, crate::specs::Compute::value_word, crate::specs::Words::flag_of, crate::specs::Words::pick))]

ghost use Rattle.std.specs.Prelude.{◌≡◌};
ghost use Rattle.lane.specs.Compute as Compute;

use crate::op;
use crate::words::{extended, keep};

// The flag afterwards: `truth` where the instruction sets it, else the old one; inverted where mod has 8. What is set is inverted by a number, so that a
// loop over lanes has no test for it.
pub fn flag_after(sets: bool, truth: bool, m: u32, old: u32) -> u32
    ensures { result ≡ Compute.flag_after sets truth m old }
{
    let turn = m / 8 % 2;
    if sets {
        keep(truth, 1, 0) ^ turn
    } else {
        keep(turn == 1, keep(old == 0, 1, 0), old)
    }
}

// IADD's word.
pub fn iadd_word(m: u32, imm: u32, c: u32, d: u32) -> u32
    ensures { result ≡ Compute.iadd_word m imm c d }
{
    if m % 2 == 1 {
        c.wrapping_add(extended(imm % 4096, 0x800))
    } else if m / 2 % 2 == 1 {
        c.wrapping_sub(d)
    } else {
        c.wrapping_add(d)
    }
}

// IADD's flag.
pub(crate) fn iadd_flag(m: u32, res: u32, old: u32) -> u32
    ensures { result ≡ Compute.iadd_flag m res old }
{
    flag_after(!(m / 4 % 2 == 1), 0x80000000 <= res, m, old)
}

// The word whose leading zeros LZ counts.
fn lz_operand(m: u32, c: u32) -> u32
    ensures { result ≡ Compute.lz_operand m c }
{
    if m / 4 % 2 == 1 { c % 0x80000000 } else { c }
}

// LZ's word.
pub(crate) fn lz_word(m: u32, c: u32) -> u32
    ensures { result ≡ Compute.lz_word m c }
{
    u32::leading_zeros(lz_operand(m, c))
}

// LZ's flag.
pub(crate) fn lz_flag(m: u32, c: u32, old: u32) -> u32
    ensures { result ≡ Compute.lz_flag m c old }
{
    flag_after(m / 2 % 2 == 1, !(lz_operand(m, c) == 0), m, old)
}

// EXEXP's word. What is subtracted is a number too.
pub fn exexp_word(m: u32, c: u32) -> u32
    ensures { result ≡ Compute.exexp_word m c }
{
    (c / 0x800000 % 256).wrapping_sub(127 - m % 2 * 127)
}

// EXEXP's flag.
pub(crate) fn exexp_flag(m: u32, res: u32, old: u32) -> u32
    ensures { result ≡ Compute.exexp_flag m res old }
{
    flag_after(m / 2 % 2 == 1, 0x80000000 <= res, m, old)
}

// ABS's word.
fn abs_word(m: u32, c: u32) -> u32
    ensures { result ≡ Compute.abs_word m c }
{
    if m % 2 == 1 {
        if 0x7F800000 < c % 0x80000000 {
            c
        } else {
            c % 0x80000000
        }
    } else {
        if 0x80000000 <= c {
            0xFFFFFFFF - c + 1
        } else {
            c
        }
    }
}

// EXMAN's word.
fn exman_word(m: u32, c: u32) -> u32
    ensures { result ≡ Compute.exman_word m c }
{
    c % 0x800000 + keep(m % 2 == 1, 0, 0x800000)
}

// The word of an operation that computes nothing else, from the words of vb, vc and vd.
pub fn value_word(op: u32, m: u32, b: u32, c: u32, d: u32) -> u32
    ensures { result ≡ Compute.value_word op m b c d }
{
    match op {
        op::ABS => abs_word(m, c),
        op::AND => keep(m % 2 == 1, b, d) & c,
        op::OR => keep(m % 2 == 1, b, d) | c,
        op::XOR => d ^ c,
        op::NOT => !c,
        _ => exman_word(m, c),
    }
}
