// What lasts through a list and no instruction changes: made once, and lent to each.
ghost use Rattle.std.specs.Prelude.{◌≡◌};
ghost use Rattle.lane.specs.Swap as Swap;
ghost use Rattle.runner.specs.PrivateRows as Rows;

use crate::rows::fixed_rows;
use lane::swap::MASKS;

// The rows of the registers that are never stored, and SWAP's masks.
#[derive(Drop)]
pub(crate) struct Tables {
    pub(crate) fixed: [u32; 128],
    pub(crate) masks: [u32; 16],
    ghost fixed_rows: { fixed ≡ Rows.fixed_rows },
    ghost swap_masks: { masks ≡ Swap.masks },
}

impl Tables {
    pub(crate) fn new() -> Tables {
        Tables {
            fixed: fixed_rows(),
            masks: MASKS,
        }
    }
}
