// Lists over an image and a Dst, by the promises of crate `lane`: the checks, one instruction over all lanes in place, the steps, the
// outcome, and the register view.
//
// An operation works by rows: it copies the rows that it reads, then goes through the 32 lanes once, in place, storing under a mask.

#![tactic(auto)]

// The checks of a run, and of a list alone.
pub mod checks;
// Rows of words and of masks, one for each lane.
mod rows;
// What lasts through a list: the rows of the registers never stored, and SWAP's masks.
mod tables;
// IADD, ABS, AND, OR, XOR, NOT, LZ, EXEXP and EXMAN over all lanes.
mod compute;
// LOAD and LOADI over all lanes.
mod load;
// STORE over all lanes.
mod store;
// SWAP's ties, counted by column.
mod ties;
// Register traffic: the stores to registers, counted by column.
mod traffic;
// SWAP over all lanes.
mod swap;
// LUT over all lanes.
mod lut;
// CONFIG over all lanes.
mod config;
// One instruction over all lanes, and a run.
pub mod run;
// A walk over a list, one step at a time, forward and back.
pub mod walk;
// A walk from two words and back.
mod convert;
// A stored register's lanes, as a part of the image.
pub mod view;

ghost use Rattle.std.specs.Prelude.{◌≡◌, ◌/◌, ◌<◌, length};
ghost use Rattle.runner.specs.Checks as Checks;

use lane::{Insn, Refusal};

// Why a list is refused, and its place: the instruction's index where it is one that is refused, else 0.
#[derive(Clone, Copy)]
pub struct Refused {
    pub why: Refusal,
    pub place: u32,
}

impl From<Refusal> for Refused {
    ghost from_gives = { λ why r. r ≡ record { why = why; place = 0 } };

    fn from(why: Refusal) -> Refused {
        Refused { why, place: 0 }
    }
}

// What a run returns; `ties` and `stores` are the columns' counts. It is no Result, since `outcome_of` and the theorem RefusalTouchesNothing (crate claims) speak
// of a refusal's steps, place, cursor and counts.
#[derive(Clone, Copy)]
pub struct Outcome {
    pub answer: u32,
    pub steps: u32,
    pub place: u32,
    pub cursor: u32,
    pub ties: [u32; 8],
    pub stores: [u32; 8],
}

// An image: a word for each of the 32 lanes in each of 24 slots.
type Image = [u32; 768];

// A Dst: 1,024 rows of 16 cells.
type Dst = [u16; 16384];

// The columns' counts: the ties that were met, and the stores that were made.
#[derive(Clone, Copy)]
struct Tally {
    ties: [u32; 8],
    stores: [u32; 8],
}

// What the steps through a list end with, beside the image and the Dst.
#[derive(Clone, Copy)]
struct Ended {
    cursor: u32,
    counts: Tally,
}

// What an instruction goes on with: the cursor, and the stores that are owed to each lane that is enabled. These go beside the counts, since they are none of them.
#[derive(Clone, Copy)]
struct Onward {
    cursor: u32,
    owed: u32,
}

// Instruction `k` of a list.
fn insn_at(list: &[u32], k: usize) -> Insn
    requires { k < length list.now / 6 }
    ensures { result ≡ Checks.insn_at list.now k }
{
    Insn::from(list.as_chunks::<6>().0[k])
}
