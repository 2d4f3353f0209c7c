// Settings and instructions from their numbers and back, in the listing's order.
ghost use Rattle.std.specs.Prelude.{◌≡◌, [], ◌∷◌, slice_index};

use crate::{Insn, Settings};

impl From<[u32; 8]> for Settings {
    ghost from_gives = { λ n s. s ≡ record { edition = slice_index n 0; srcb = slice_index n 1; offset = slice_index n 2; cursor = slice_index n 3; stride0 = slice_index n 4; stride1 = slice_index n 5; stride2 = slice_index n 6; stride3 = slice_index n 7 } };

    fn from(numbers: [u32; 8]) -> Settings {
        let [
            edition,
            srcb,
            offset,
            cursor,
            stride0,
            stride1,
            stride2,
            stride3,
        ] = numbers;
        Settings {
            edition,
            srcb,
            offset,
            cursor,
            stride0,
            stride1,
            stride2,
            stride3,
        }
    }
}

impl From<Settings> for [u32; 8] {
    ghost from_gives = { λ s n. n ≡ s.edition ∷ s.srcb ∷ s.offset ∷ s.cursor ∷ s.stride0 ∷ s.stride1 ∷ s.stride2 ∷ s.stride3 ∷ [] };

    fn from(s: Settings) -> [u32; 8] {
        [
            s.edition, s.srcb, s.offset, s.cursor, s.stride0, s.stride1, s.stride2, s.stride3,
        ]
    }
}

impl From<[u32; 6]> for Insn {
    ghost from_gives = { λ n i. i ≡ record { op = slice_index n 0; imm = slice_index n 1; vb = slice_index n 2; vc = slice_index n 3; vd = slice_index n 4; md = slice_index n 5 } };

    fn from(numbers: [u32; 6]) -> Insn {
        let [op, imm, vb, vc, vd, md] = numbers;
        Insn {
            op,
            imm,
            vb,
            vc,
            vd,
            md,
        }
    }
}

impl From<Insn> for [u32; 6] {
    ghost from_gives = { λ i n. n ≡ i.op ∷ i.imm ∷ i.vb ∷ i.vc ∷ i.vd ∷ i.md ∷ [] };

    fn from(i: Insn) -> [u32; 6] {
        [i.op, i.imm, i.vb, i.vc, i.vd, i.md]
    }
}
