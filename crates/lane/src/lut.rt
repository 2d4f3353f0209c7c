// LUT: its input, the coefficients that serve it, the sum, and the word that is stored.

// The proofs here look into these definitions.
#![tactic(auto, unfolding(crate::specs::Lut::flushed, crate::specs::Lut::input_bits, crate::specs::Lut::lut_answer, crate::specs::Lut::lut_register, crate::specs::Lut::serving, crate::specs::Lut::signed, crate::specs::Words::pick))]

ghost use Rattle.std.specs.Prelude.{◌≡◌, from_bits, to_bits};
ghost use Rattle.std.specs.Float.{binary32};
ghost use Rattle.lane.specs.Lut as Lut;

use crate::Piece;
use crate::words::extended;

// The number that a word stands for. Every NaN pattern is the one NaN.
pub fn float_of(w: u32) -> f32
    ensures { result ≡ from_bits binary32 w }
{
    if 0x7F800000 < w % 0x80000000 {
        f32::NAN
    } else {
        f32::from_bits(w)
    }
}

// The word that a number is written as, a NaN as 0x7FC00000.
fn bits_of(x: f32) -> u32
    ensures { result ≡ to_bits binary32 x }
{
    if x.is_nan() {
        0x7FC00000
    } else {
        f32::to_bits(x)
    }
}

// Register 3 with its sign cleared, a denormal counting as 0.
pub fn input_bits(w: u32) -> u32
    ensures { result ≡ Lut.input_bits w }
{
    let magnitude = w % 0x80000000;
    if magnitude < 0x800000 { 0 } else { magnitude }
}

// The coefficients that serve an input.
pub fn serving(b: f32, c0: u32, c1: u32, c2: u32) -> u32
    ensures { result ≡ Lut.serving b c0 c1 c2 }
{
    if b < 1.0 {
        c0
    } else if b < 2.0 {
        c1
    } else {
        c2
    }
}

// The word of a coefficient's byte: its sign is extended down to the exponent, whose three bits are taken from 127 by an exclusive or. 0xBC780000 is what
// 255 comes to, and no other byte.
fn byte_word(byte: u8) -> u32
    ensures { result ≡ Lut.byte_word byte }
{
    let signed = extended(byte as u32, 0x80);
    let word = ((signed << 19) & 0x83F80000) ^ 0x3F800000;
    if word == 0xBC780000 { 0 } else { word }
}

// Slope and intercept, from a coefficient word.
pub fn piece_of(k: u32) -> Piece
    ensures { result ≡ Lut.piece_of k }
{
    let high = (k / 256 % 256) as u8;
    let low = (k % 256) as u8;
    Piece {
        slope: float_of(byte_word(high)),
        intercept: float_of(byte_word(low)),
    }
}

// Slope times input, rounded, plus intercept, rounded.
pub fn sum_of(k: Piece, b: f32) -> f32
    ensures { result ≡ Lut.sum_of k b }
{
    k.slope * b + k.intercept
}

// A denormal result becomes zero of its sign.
fn flushed(w: u32) -> u32
    ensures { result ≡ Lut.flushed w }
{
    if w % 0x80000000 < 0x800000 {
        w / 0x80000000 * 0x80000000
    } else {
        w
    }
}

// Mod bit 4 copies the sign of register 3.
fn signed(m: u32, r3: u32, w: u32) -> u32
    ensures { result ≡ Lut.signed m r3 w }
{
    if m / 4 % 2 == 1 {
        r3 / 0x80000000 * 0x80000000 + w % 0x80000000
    } else {
        w
    }
}

// The word that a result is stored as.
pub fn lut_word(m: u32, r3: u32, x: f32) -> u32
    ensures { result ≡ Lut.lut_word m r3 x }
{
    signed(m, r3, flushed(bits_of(x)))
}

// The register that takes it.
pub(crate) fn lut_register(m: u32, vd: u32, r7: u32) -> u32
    ensures { result ≡ Lut.lut_register m vd r7 }
{
    if m / 8 % 2 == 1 { r7 % 16 } else { vd }
}

// The result for a lane whose registers 0, 1, 2 and 3 hold `c0`, `c1`, `c2` and `r3`.
pub(crate) fn lut_result(c0: u32, c1: u32, c2: u32, r3: u32) -> f32
    ensures { result ≡ Lut.result_of c0 c1 c2 r3 }
{
    let b = float_of(input_bits(r3));
    sum_of(piece_of(serving(b, c0, c1, c2)), b)
}

// A lane's answer: the number with its register, or nothing stored.
pub fn lut_answer(acting: bool, register: u32, x: f32) -> Option<(f32, u32)>
    ensures { result ≡ Lut.lut_answer acting register x }
{
    let stored = acting & (register < 8);
    if stored { Some((x, register)) } else { None }
}
