// LOAD: its address, cursor and conversions of a cell. LOADI: its halves.

// The proofs here look into these definitions.
#![tactic(auto, unfolding(crate::specs::Load::fp16, crate::specs::Load::immediate, crate::specs::Load::loaded, crate::specs::Load::next_cursor, crate::specs::Load::resolved, crate::specs::Load::sign_mag, crate::specs::Load::stride, crate::specs::Load::twos_comp, crate::specs::Words::pick))]

ghost use Rattle.std.specs.Prelude.{◌≡◌, ◌<◌};
ghost use Rattle.lane.specs.Words.{lane_of};
ghost use Rattle.lane.specs.Load as Load;

use crate::words::{LANE_CONFIG, extended, is_enabled};
use crate::{Settings, op};

// The address at which an instruction meets Dst. Each part is cut first, so that no sum wraps.
pub fn address(imm: u32, offset: u32, cursor: u32) -> u16
    ensures { result ≡ Load.address imm offset cursor }
{
    ((imm % 1024 + offset % 1024 + cursor % 1024) % 1024) as u16
}

// The stride that `vb` chooses.
pub fn stride(s: Settings, vb: u32) -> u32
    ensures { result ≡ Load.stride s vb }
{
    match vb {
        0 => s.stride0,
        1 => s.stride1,
        2 => s.stride2,
        _ => s.stride3,
    }
}

// Whether an operation meets Dst: LOAD and STORE.
pub fn meets_dst(op: u32) -> bool
    ensures { result ≡ Load.meets_dst op }
{
    (op == op::LOAD) | (op == op::STORE)
}

// The cursor after an instruction whose `vb` chose the stride `chosen`.
pub fn next_cursor(op: u32, cursor: u32, chosen: u32) -> u32
    ensures { result ≡ Load.next_cursor op cursor chosen }
{
    if meets_dst(op) {
        (cursor % 1024 + chosen % 1024) % 1024
    } else {
        cursor
    }
}

// Whether a lane's cell is the odd one; `exchanged` is bit 5 of LaneConfig in row 0's lane of the column.
pub(crate) fn is_odd(address: u16, exchanged: bool) -> bool
    ensures { result ≡ Load.is_odd address exchanged }
{
    (address / 2 % 2 == 1) | exchanged
}

// The place of the cell, row times 16 plus column.
pub(crate) fn place(address: u16, lane: u8, odd: bool) -> u32
    ensures { result ≡ Load.place_of address lane odd }
{
    let row = (address as u32) / 4 * 4 + (lane as u32) / 8;
    row * 16 + (2 * ((lane as u32) % 8) + odd as u32)
}

// FP16, the largest number being infinity where `inf` is set.
fn fp16(inf: bool, cell: u16) -> u32
    ensures { result ≡ Load.fp16 inf cell }
{
    let x = cell as u32;
    let largest = inf & ((x % 32 == 31) & (x / 32 % 1024 == 1023));
    if largest {
        return x / 0x8000 * 0x80000000 + 0x7F800000;
    }
    if x % 32 == 0 {
        return x / 0x8000 * 0x80000000 + x / 32 % 1024 * 0x2000;
    }
    x / 0x8000 * 0x80000000 + (x % 32 + 112) * 0x800000 + x / 32 % 1024 * 0x2000
}

// BF16, its exponent and digits changed about.
fn bf16(cell: u16) -> u32
    ensures { result ≡ Load.bf16 cell }
{
    let x = cell as u32;
    // the shift brings the digits to their place and the sign just above them; extended from there, it is at its own place too
    let signed = extended(x << 8, 0x800000);
    (signed & 0x807F0000) | ((x << 23) & 0x7F800000)
}

// A sign and `width` bits of magnitude, from bit `place` up.
fn sign_mag(cell: u16, place: u32, width: u32) -> u32
    requires { (place < 16) × (width < 16) }
    ensures { result ≡ Load.sign_mag place width cell }
{
    let x = cell as u32;
    x / 0x8000 * 0x80000000 + (x >> place) % (1u32 << width)
}

// INT8_COMP's last step, sign and magnitude to two's complement.
fn twos_comp(w: u32) -> u32
    ensures { result ≡ Load.twos_comp w }
{
    let magnitude = w % 0x80000000;
    if w / 0x80000000 == 1 {
        0u32.wrapping_sub(magnitude)
    } else {
        magnitude
    }
}

// A word with another high half. It and the next are two, as the two definitions of document 01 are, each of one line.
fn with_high(old: u32, half: u16) -> u32
    ensures { result ≡ Load.with_high old half }
{
    (half as u32) * 0x10000 + old % 0x10000
}

// A word with another low half.
fn with_low(old: u32, half: u16) -> u32
    ensures { result ≡ Load.with_low old half }
{
    old / 0x10000 * 0x10000 + half as u32
}

// What LOAD with mod `m` makes of a cell; `old` is the register's word, of which mods 14 and 15 keep half. The promise is of every number, so that mods are no
// enum here and in `stored_cell`.
pub fn loaded(m: u32, inf: bool, old: u32, cell: u16) -> u32
    ensures { result ≡ Load.loaded m inf old cell }
{
    match m {
        1 => fp16(inf, cell),
        2 => bf16(cell),
        5 => sign_mag(cell, 5, 7),
        6 => cell as u32,
        7 => (cell as u32) * 0x10000,
        8 => sign_mag(cell, 0, 15),
        9 => cell as u32,
        13 => twos_comp(sign_mag(cell, 5, 10)),
        14 => with_low(old, cell),
        15 => with_high(old, cell),
        _ => 0,
    }
}

// Mod 0 is mod srcb.
pub fn resolved(srcb: u32, m: u32) -> u32
    ensures { result ≡ Load.resolved srcb m }
{
    if m == 0 { srcb } else { m }
}

// Whether LOAD stores in a lane.
pub(crate) fn loads(vd: u32, own: &[u32; 24]) -> bool
    ensures { result ≡ Load.loads vd (lane_of own.now) }
{
    (vd < 8) & (is_enabled(own) & !(own[LANE_CONFIG] / 2 % 2 == 1))
}

// Whether a LOAD that stores also captures the cell's place.
pub fn captures(vd: u32, config: u32) -> bool
    ensures { result ≡ Load.captures vd config }
{
    (vd < 4) & ((config / 4 % 2 == 1) & (config / 8 % 2 == 1))
}

// What LOADI with mod `m` makes of the register's word.
pub fn immediate(m: u32, imm: u32, old: u32) -> u32
    ensures { result ≡ Load.immediate m imm old }
{
    let half = (imm % 0x10000) as u16;
    if m == 8 {
        with_high(old, half)
    } else {
        with_low(old, half)
    }
}
