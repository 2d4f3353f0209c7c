// STORE: the cell that it makes of a word. Its address, its cursor and its column are LOAD's.

// The proofs here look into these definitions.
#![tactic(auto, unfolding(crate::specs::Store::packed_bf16, crate::specs::Store::stored_cell, crate::specs::Words::pick))]

ghost use Rattle.std.specs.Prelude.{◌≡◌};
ghost use Rattle.lane.specs.Store as Store;

// BF16, its exponent and digits moved back.
fn packed_bf16(word: u32) -> u16
    ensures { result ≡ Store.packed_bf16 word }
{
    (word / 0x80000000 * 0x8000 + word / 0x10000 % 128 * 0x100 + word / 0x800000 % 256) as u16
}

// What STORE with mod `m` makes of a word.
pub fn stored_cell(m: u32, word: u32) -> u16
    ensures { result ≡ Store.stored_cell m word }
{
    match m {
        2 => packed_bf16(word),
        7 => (word / 0x10000) as u16,
        _ => (word % 0x10000) as u16,
    }
}
