// The checks, all tried before the first step.
ghost use Rattle.std.specs.Prelude.{◌≡◌, ◌*◌, ◌%◌, ◌<◌, ◌≤◌, true, length, ◌==◌};
ghost use Rattle.lane.specs.Refusals.{answer_of, instruction_answer};
ghost use Rattle.runner.specs.Image as Image;
ghost use Rattle.runner.specs.Checks as Checks;
ghost use Rattle.runner.specs.PrivateQuick as Quick;

use crate::rows::word_at;
use crate::{Image, Refused};
use lane::refuse::{instruction_answer, settings_good, well_formed};
use lane::words::{LANE_CONFIG, LANE_FLAG, MISC, USE_FLAG, keep};
use lane::{Insn, Refusal, Settings, op};

// Whether an image is well formed: a bit too high in one lane's word is too high in the union of all lanes'.
fn image_good(image: &Image) -> bool
    ensures { result ≡ Image.image_good image.now }
{
    let mut config: u32 = 0;
    let mut flag: u32 = 0;
    let mut uses: u32 = 0;
    let mut misc: u32 = 0;
    for n in 0..32 {
        config = config | word_at(image, LANE_CONFIG, n);
        flag = flag | word_at(image, LANE_FLAG, n);
        uses = uses | word_at(image, USE_FLAG, n);
        misc = misc | word_at(image, MISC, n);
    }
    well_formed(config, flag, uses, misc)
}

// The bits that an instruction's fields may not have, two fields to a word, and the mods that draw no refusal: mod m as bit m where vb is 0, as
// bit 16 + m where it isn't.
#[derive(Clone, Copy)]
struct Over {
    left: u64,
    middle: u64,
    right: u64,
    mods: u32,
}

// Two fields that stand side by side in a list.
fn pair(a: u32, b: u32) -> u64
    ensures { result ≡ Quick.pair a b }
{
    a as u64 + b as u64 * 0x100000000
}

// A row of the table below, from the largest imm, vb, vc and vd.
fn over_row(imm: u32, vb: u32, vc: u32, vd: u32, mods: u32) -> Over
    ensures { result ≡ Quick.over imm vb vc vd mods }
{
    Over {
        left: pair(!31, !imm),
        middle: pair(!vb, !vc),
        right: pair(!vd, !15),
        mods,
    }
}

// The table for op 0, which is none, to 31, of which those past 16 are none either. Every number has its row, so that it is a table once compiled.
#[tactic(auto, unfolding(crate::specs::PrivateQuick::over_of))]
fn over_of(op: u32) -> Over
    ensures { result ≡ Quick.over_of (op % 32) }
{
    let k = op % 32;
    match k {
        op::LOAD => over_row(1023, 3, 0, 15, 0xEBE7EBE7),
        op::LOADI => over_row(65535, 0, 0, 15, 0x0500),
        op::LUT => over_row(0, 0, 0, 15, 0x1111),
        op::SWAP => over_row(0, 0, 15, 15, 0xFFFF),
        op::CONFIG => over_row(65535, 0, 0, 15, 0xFFFF),
        op::IADD => over_row(4095, 0, 15, 15, 0xFFFF),
        op::ABS => over_row(0, 0, 15, 15, 0x0003),
        op::AND => over_row(0, 15, 15, 15, 0x20003),
        op::OR => over_row(0, 15, 15, 15, 0x20003),
        op::XOR => over_row(0, 0, 15, 15, 0x0001),
        op::NOT => over_row(0, 0, 15, 15, 0x0001),
        op::LZ => over_row(0, 0, 15, 15, 0x5555),
        op::EXEXP => over_row(0, 0, 15, 15, 0x0F0F),
        op::EXMAN => over_row(0, 0, 15, 15, 0x0003),
        op::NOP => over_row(0, 0, 0, 0, 0x0001),
        op::STORE => over_row(1023, 3, 0, 15, 0x02C402C4),
        17 => over_row(0, 0, 0, 0, 0),
        18 => over_row(0, 0, 0, 0, 0),
        19 => over_row(0, 0, 0, 0, 0),
        20 => over_row(0, 0, 0, 0, 0),
        21 => over_row(0, 0, 0, 0, 0),
        22 => over_row(0, 0, 0, 0, 0),
        23 => over_row(0, 0, 0, 0, 0),
        24 => over_row(0, 0, 0, 0, 0),
        25 => over_row(0, 0, 0, 0, 0),
        26 => over_row(0, 0, 0, 0, 0),
        27 => over_row(0, 0, 0, 0, 0),
        28 => over_row(0, 0, 0, 0, 0),
        29 => over_row(0, 0, 0, 0, 0),
        30 => over_row(0, 0, 0, 0, 0),
        31 => over_row(0, 0, 0, 0, 0),
        _ => over_row(0, 0, 0, 0, 0),
    }
}

// Where that table has a mod, which is below 16 where no field is over.
fn mod_place(m: u32, vb: u32) -> u32
    ensures { (result < 32) × (result ≡ Quick.mod_place m vb) }
{
    (m % 32 + keep(vb == 0, 0, 16)) % 32
}

// Whether no check refuses an instruction: its fields as bits, at once.
pub fn accepts(i: Insn) -> bool
    ensures { result ≡ (instruction_answer true i == 0) }
{
    let o = over_of(i.op);
    let bad = (pair(i.op, i.imm) & o.left)
        | (pair(i.vb, i.vc) & o.middle)
        | (pair(i.vd, i.md) & o.right);
    (bad == 0) & ((o.mods >> mod_place(i.md, i.vb)) % 2 == 1)
}

// 7, 8 or 9 for an instruction. All but the refused are accepted, and that is quickly seen.
fn quick_answer(i: Insn) -> Result<(), Refusal>
    ensures { answer_of result ≡ instruction_answer true i }
{
    if accepts(i) {
        return Ok(());
    }
    instruction_answer(true, i)
}

// 7, 8 or 9 for the first refused instruction.
fn scanned(list: &[u32]) -> Result<(), Refused>
    requires { length list.now ≤ 6 * Checks.list_limit }
    ensures { Checks.found_by result ≡ Checks.scanned list.now }
{
    for (k, insn) in list.as_chunks::<6>().0.iter().enumerate() {
        if let Err(why) = quick_answer(Insn::from(*insn)) {
            return Err(Refused {
                why,
                place: k as u32,
            });
        }
    }
    Ok(())
}

// The most instructions a list may hold: said here, and nowhere else.
pub const LIST_LIMIT: usize = 16384;

// 3, 4 and 5, in that order.
fn given_answer(s: Settings, list: &[u32]) -> Result<(), Refusal>
    ensures { answer_of result ≡ Checks.given_answer s list.now }
{
    if !settings_good(s) {
        return Err(Refusal::Setting);
    }
    if list.len() % 6 != 0 {
        return Err(Refusal::ListShape);
    }
    if LIST_LIMIT < list.len() / 6 {
        return Err(Refusal::ListLimit);
    }
    Ok(())
}

// 1 to 6, in that order. That the image is cut has a name of its own, since a must-fail edit changes it.
pub(crate) fn first_answer(
    s: Settings,
    image: &[u32],
    dst: &[u16],
    list: &[u32],
) -> Result<(), Refusal>
    ensures { answer_of result ≡ Checks.first_answer s image.now dst.now list.now }
{
    let is_cut = image.len() != 768;
    if is_cut {
        return Err(Refusal::ImageSize);
    }
    let Some(image) = image.as_array::<768>() else {
        unreachable!()
    };
    if dst.len() != 16384 {
        return Err(Refusal::DstSize);
    }
    given_answer(s, list)?;
    if !image_good(image) {
        return Err(Refusal::ImageForm);
    }
    Ok(())
}

// The checks of a list alone: 3, 4, 5, then 7, 8 and 9.
pub fn list_answer(s: Settings, list: &[u32]) -> Result<(), Refused>
    ensures { Checks.found_by result ≡ Checks.list_answer s list.now }
{
    given_answer(s, list)?;
    scanned(list)
}

// The checks of a run: 1 to 6, then 7, 8 and 9.
pub(crate) fn run_answer(
    s: Settings,
    image: &[u32],
    dst: &[u16],
    list: &[u32],
) -> Result<(), Refused>
    ensures { Checks.found_by result ≡ Checks.run_answer s image.now dst.now list.now }
{
    first_answer(s, image, dst, list)?;
    scanned(list)
}

// The number of an answer, 0 where nothing is refused.
pub(crate) fn number_of(answer: Result<(), Refusal>) -> u32
    ensures { result ≡ answer_of answer }
{
    match answer {
        Ok(()) => 0,
        Err(why) => u32::from(why),
    }
}

// What a check found as number and place, both 0 where nothing is refused.
pub(crate) fn told(found: Result<(), Refused>) -> (u32, u32)
    ensures { Checks.found result.0 result.1 ≡ Checks.found_by found }
{
    match found {
        Ok(()) => (0, 0),
        Err(refused) => (u32::from(refused.why), refused.place),
    }
}
