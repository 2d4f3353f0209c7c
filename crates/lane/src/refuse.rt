// The refusals 3, 6, 7, 8 and 9.
ghost use Rattle.std.specs.Prelude.{◌≡◌};
ghost use Rattle.lane.specs.Words.{lane_of};
ghost use Rattle.lane.specs.Refusals as Refusals;

use crate::op::{
    ABS, AND, CONFIG, EXEXP, EXMAN, IADD, LOAD, LOADI, LUT, LZ, NOP, NOT, OR, STORE, SWAP, XOR,
};
use crate::words::{LANE_CONFIG, LANE_FLAG, MISC, USE_FLAG, is_set};
use crate::{Insn, Limits, Refusal, Settings};

// Whether every setting is in its range.
pub fn settings_good(s: Settings) -> bool
    ensures { result ≡ Refusals.settings_good s }
{
    ((s.edition == 1) | (s.edition == 2))
        & ((s.srcb == 1) | (s.srcb == 2))
        & (s.offset < 1024)
        & (s.cursor < 1024)
        & (s.stride0 < 1024)
        & (s.stride1 < 1024)
        & (s.stride2 < 1024)
        & (s.stride3 < 1024)
}

// Whether a lane is well formed.
pub fn well_formed(config: u32, flag: u32, use_flag: u32, misc: u32) -> bool
    ensures { result ≡ Refusals.well_formed_by config flag use_flag misc }
{
    (config < 0x40000) & (misc < 0x1000) & (flag < 2) & (use_flag < 2)
}

// Whether mod `m` is among those of a mask.
fn mod_allowed(mask: u32, m: u32) -> bool
    ensures { result ≡ Refusals.mod_in mask m }
{
    (m < 16) && is_set(mask, m)
}

// A row of the table of fields.
fn row(imm: u32, vb: u32, vc: u32, vd: u32, mods: u32) -> Limits
    ensures { result ≡ Refusals.limits imm vb vc vd mods }
{
    Limits {
        imm,
        vb,
        vc,
        vd,
        mods,
    }
}

// The table of fields: for each op the largest imm, vb, vc and vd, and the mods allowed, mod m as bit m. A number that is no op has none.
fn limits_of(op: u32) -> Limits
    ensures { result ≡ Refusals.limits_of op }
{
    match op {
        LOAD => row(1023, 3, 0, 15, 0xFFFF),
        LOADI => row(65535, 0, 0, 15, 0x0500),
        LUT => row(0, 0, 0, 15, 0x1111),
        SWAP => row(0, 0, 15, 15, 0xFFFF),
        CONFIG => row(65535, 0, 0, 15, 0xFFFF),
        IADD => row(4095, 0, 15, 15, 0xFFFF),
        ABS => row(0, 0, 15, 15, 0x0003),
        AND => row(0, 15, 15, 15, 0x0003),
        OR => row(0, 15, 15, 15, 0x0003),
        XOR => row(0, 0, 15, 15, 0x0001),
        NOT => row(0, 0, 15, 15, 0x0001),
        LZ => row(0, 0, 15, 15, 0x5555),
        EXEXP => row(0, 0, 15, 15, 0x0F0F),
        EXMAN => row(0, 0, 15, 15, 0x0003),
        NOP => row(0, 0, 0, 0, 0x0001),
        STORE => row(1023, 3, 0, 15, 0x02C4),
        _ => row(0, 0, 0, 0, 0),
    }
}

// Whether every field is in its range.
fn fields_good(i: Insn) -> bool
    ensures { result ≡ Refusals.fields_good i.op i }
{
    let limits = limits_of(i.op);
    (i.imm <= limits.imm)
        & (i.vb <= limits.vb)
        & (i.vc <= limits.vc)
        & (i.vd <= limits.vd)
        & mod_allowed(limits.mods, i.md)
        & ((i.vb == 0) | !((i.op == AND) | (i.op == OR)) | (i.md == 1))
}

// Whether it is a LOAD that 9 refuses.
fn is_wide_load(i: Insn) -> bool
    ensures { result ≡ Refusals.wide_load i.op i.md }
{
    (i.op == LOAD) & ((i.md == 3) | (i.md == 4) | (i.md == 10) | (i.md == 12))
}

// 7, 8 or 9 for an instruction; `also` is what 8 asks besides the fields.
pub fn instruction_answer(also: bool, i: Insn) -> Result<(), Refusal>
    ensures { Refusals.answer_of result ≡ Refusals.instruction_answer also i }
{
    let known = (LOAD <= i.op) & (i.op <= STORE);
    if !known {
        return Err(Refusal::UnknownOp);
    }
    let good = fields_good(i) & also;
    if !good {
        return Err(Refusal::Field);
    }
    if is_wide_load(i) {
        return Err(Refusal::LoadMod);
    }
    Ok(())
}

// Whether 24 words are a well formed lane.
fn lane_good(own: [u32; 24]) -> bool
    ensures { result ≡ Refusals.well_formed (lane_of own) }
{
    well_formed(own[LANE_CONFIG], own[LANE_FLAG], own[USE_FLAG], own[MISC])
}

// The refusals of the lane rules: 3, 6, 7, 8 and 9.
pub(crate) fn lane_answer(
    s: Settings,
    lane: u32,
    i: Insn,
    own: [u32; 24],
    head: [u32; 24],
) -> Result<(), Refusal>
    ensures { Refusals.answer_of result ≡ Refusals.lane_answer s lane i (lane_of own) (lane_of head) }
{
    if !settings_good(s) {
        return Err(Refusal::Setting);
    }
    let good = lane_good(own) & lane_good(head);
    if !good {
        return Err(Refusal::ImageForm);
    }
    instruction_answer(lane <= 31, i)
}
