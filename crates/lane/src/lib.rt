// The rules of one lane: the fifteen operations of document 01, both editions, on words, and document 02's STORE and comparison.
//
// Public is what another crate calls. All of it is total: it has a promise and no `requires`. The promises cite specs/, which renders document 01.

#![tactic(auto)]

ghost use Rattle.std.specs.Prelude.{◌≡◌};
ghost use Rattle.lane.specs.Refusals as Refusals;

// The numbers of the operations.
pub mod op;
// A lane's 24 words: the slots, the registers, enabled.
pub mod words;
// LOAD's address, conversions and cursor; LOADI.
pub mod load;
// STORE's cell.
pub mod store;
// SWAP's comparison and decision.
pub mod swap;
// LUT's input, coefficients, sum and word.
pub mod lut;
// CONFIG's value and what it makes of the word in place.
pub mod config;
// IADD, ABS, AND, OR, XOR, NOT, LZ, EXEXP and EXMAN.
pub mod compute;
// The refusals.
pub mod refuse;
// A lane's two cells of Dst after an instruction.
mod dst;
// Settings and instructions from their numbers and back.
mod convert;
// One instruction in one lane.
pub mod step;

// A run's settings, in the listing's order.
#[derive(Clone, Copy)]
pub struct Settings {
    pub edition: u32,
    pub srcb: u32,
    pub offset: u32,
    pub cursor: u32,
    pub stride0: u32,
    pub stride1: u32,
    pub stride2: u32,
    pub stride3: u32,
}

// An instruction's six numbers, in the list's order; `md` is mod.
#[derive(Clone, Copy)]
pub struct Insn {
    pub op: u32,
    pub imm: u32,
    pub vb: u32,
    pub vc: u32,
    pub vd: u32,
    pub md: u32,
}

// Why something is refused: the clerk's numbers.
#[derive(Clone, Copy, PartialEq, Eq)]
pub enum Refusal {
    // The image has not 768 words.
    ImageSize = 1,
    // Dst has not 16,384 cells.
    DstSize = 2,
    // A setting, or the cursor of a walk, is outside its range.
    Setting = 3,
    // The list's length is no multiple of six.
    ListShape = 4,
    // There are more than 16,384 instructions, in an old listing more than 1,024.
    ListLimit = 5,
    // The image, or in the lane rules the lane or row 0's lane of its column, is not well formed.
    ImageForm = 6,
    // The op is none of 1 to 16.
    UnknownOp = 7,
    // A field is outside its range, an unused one not 0, or mod not allowed; in the lane rules also, the lane is above 31.
    Field = 8,
    // LOAD with mod 3, 4, 10 or 12.
    LoadMod = 9,
    // A text is no listing in form.
    Text = 10,
    // A text is too long, or the room that is lent for what comes of it too short.
    Room = 11,
    // A walk has no such step, or the store no entry of it or no room for one.
    Step = 12,
}

impl From<Refusal> for u32 {
    ghost from_gives = { λ why n. n ≡ Refusals.number why };

    fn from(why: Refusal) -> u32 {
        why as u32
    }
}

// What an op's fields may hold: the largest number for each, and the mods allowed, mod m as bit m.
#[derive(Clone, Copy)]
struct Limits {
    imm: u32,
    vb: u32,
    vc: u32,
    vd: u32,
    mods: u32,
}

// A lane's two cells of Dst, those of its row and column at an address.
#[derive(Clone, Copy)]
pub struct Cells {
    pub even: u16,
    pub odd: u16,
}

// What the lane rules answer: a number of the clerk's, and the lane's words and its two cells afterwards. It is no Result, since `lane_step` and the theorem
// RefusedLaneTouchesNothing (crate claims) speak of the words and the cells that a refusal gives.
#[derive(Clone, Copy)]
pub struct Stepped {
    pub answer: u32,
    pub words: [u32; 24],
    pub cells: Cells,
}

// How one word ranks against another, in SWAP's order. It is no std Ordering, since the theorems OneAnswerHolds and OperandsMirror (crate claims) speak of
// these three, by document 02's names.
#[derive(Clone, Copy, PartialEq, Eq)]
pub enum Order {
    Below,
    Equal,
    Above,
}

// A piece of a LUT: what a coefficient word's two bytes stand for.
#[derive(Clone, Copy)]
pub struct Piece {
    pub slope: f32,
    pub intercept: f32,
}
