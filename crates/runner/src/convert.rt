// A walk from the two words that a host keeps, and back.
ghost use Rattle.std.specs.Prelude.{◌≡◌, [], ◌∷◌, slice_index};

use crate::walk::Walk;

impl From<[u32; 2]> for Walk {
    ghost from_gives = { λ words w. w ≡ record { at = slice_index words 0; cursor = slice_index words 1 } };

    fn from(words: [u32; 2]) -> Walk {
        let [at, cursor] = words;
        Walk { at, cursor }
    }
}

impl From<Walk> for [u32; 2] {
    ghost from_gives = { λ w words. words ≡ w.at ∷ w.cursor ∷ [] };

    fn from(w: Walk) -> [u32; 2] {
        [w.at, w.cursor]
    }
}
