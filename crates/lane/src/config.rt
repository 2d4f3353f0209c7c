// CONFIG: which lanes it passes over, its value, and what it makes of the word in place.

// The proofs here look into these definitions.
#![tactic(auto, unfolding(crate::specs::Config::combined, crate::specs::Config::constant_after, crate::specs::Config::edition_constant, crate::specs::Config::lane_config_after, crate::specs::Config::value_of, crate::specs::Words::pick))]

ghost use Rattle.std.specs.Prelude.{◌≡◌};
ghost use Rattle.lane.specs.Config as Config;

use crate::words::is_set;

// Whether a lane is passed over, by mod, imm and the flags of row 0's lane of its column.
pub fn passed_over(m: u32, imm: u32, lane: u8, use_flag: u32, lane_flag: u32) -> bool
    ensures { result ≡ Config.passed_over m imm lane use_flag lane_flag }
{
    ((m / 8 % 2 == 1) & !is_set(imm, (2 * (lane % 8)) as u32))
        | ((use_flag == 1) & (lane_flag == 0))
}

// The value: imm, or register 0 of row 0.
pub fn value_of(m: u32, imm: u32, first: u32) -> u32
    ensures { result ≡ Config.value_of m imm first }
{
    if m % 2 == 1 { imm % 0x10000 } else { first }
}

// A value put with the word in place: xor, or, and, or in its stead.
fn combined(m: u32, old: u32, v: u32) -> u32
    ensures { result ≡ Config.combined m old v }
{
    if m / 2 % 2 == 1 {
        if m / 4 % 2 == 1 { old ^ v } else { old | v }
    } else {
        if m / 4 % 2 == 1 { old & v } else { v }
    }
}

// Misc afterwards.
pub fn misc_after(m: u32, old: u32, v: u32) -> u32
    ensures { result ≡ Config.misc_after m old v }
{
    combined(m, old, v % 0x1000)
}

// LaneConfig afterwards.
pub fn lane_config_after(m: u32, old: u32, v: u32) -> u32
    ensures { result ≡ Config.lane_config_after m old v }
{
    let new = combined(m, old, v % 0x40000);
    if m % 2 == 1 {
        old / 0x10000 * 0x10000 + new % 0x10000
    } else {
        new
    }
}

// The constant that an edition fills a register 11 to 14 with.
fn edition_constant(edition: u32, vd: u32) -> u32
    ensures { result ≡ Config.edition_constant edition vd }
{
    match vd {
        11 => 0xBF800000,
        12 => {
            let is_first = edition == 1;
            if is_first { 0x37800000 } else { 0x3B000000 }
        }
        13 => 0xBF2CC4C7,
        _ => 0xBEB08FF9,
    }
}

// A register 11 to 14 afterwards.
pub fn constant_after(edition: u32, m: u32, vd: u32, first: u32) -> u32
    ensures { result ≡ Config.constant_after edition m vd first }
{
    if m % 2 == 1 {
        edition_constant(edition, vd)
    } else {
        first
    }
}
