// A lane's two cells of Dst after one instruction, by value: STORE alone changes one of them.

// The proofs here look into these definitions.
#![tactic(auto, unfolding(crate::specs::Rule::cells_of, crate::specs::Store::store, crate::specs::Store::with_cell, crate::specs::Words::pick))]

ghost use Rattle.std.specs.Prelude.{◌≡◌};
ghost use Rattle.lane.specs.Words.{bit, lane_of, pick};
ghost use Rattle.lane.specs.Load as Load;
ghost use Rattle.lane.specs.Store as Store;
ghost use Rattle.lane.specs.Rule as Rule;

use crate::load::{address, is_odd};
use crate::store::stored_cell;
use crate::words::{LANE_CONFIG, is_enabled, register};
use crate::{Cells, Insn, Settings, op};

// Bit 5 of row 0's LaneConfig.
pub(crate) fn is_exchanged(head: [u32; 24]) -> bool
    ensures { result ≡ bit (lane_of head 12) 5 }
{
    head[LANE_CONFIG] / 32 % 2 == 1
}

impl Cells {
    // One cell or the other.
    pub(crate) fn chosen(self, odd: bool) -> u16
        ensures { result ≡ pick odd self.odd self.even }
    {
        if odd { self.odd } else { self.even }
    }

    // The two with another in the place of one.
    fn with_cell(self, odd: bool, cell: u16) -> Cells
        ensures { result ≡ Store.with_cell odd cell self.even self.odd }
    {
        if odd {
            Cells { odd: cell, ..self }
        } else {
            Cells { even: cell, ..self }
        }
    }
}

// STORE.
fn store_lane(a: u16, i: Insn, lane: u8, exchanged: bool, cells: Cells, own: [u32; 24]) -> Cells
    ensures { result ≡ Store.store a i lane exchanged cells.even cells.odd (lane_of own) }
{
    if is_enabled(&own) {
        let cell = stored_cell(i.md, register(&own, lane, i.vd));
        return cells.with_cell(is_odd(a, exchanged), cell);
    }
    cells
}

// The two cells after any operation, at the address that the settings give.
pub(crate) fn lane_cells(
    s: Settings,
    i: Insn,
    lane: u8,
    head: [u32; 24],
    cells: Cells,
    own: [u32; 24],
) -> Cells
    ensures { result ≡ Rule.cells_of i.op (Load.address i.imm s.offset s.cursor) i lane (bit (lane_of head 12) 5) cells.even cells.odd (lane_of own) }
{
    if i.op == op::STORE {
        let a = address(i.imm, s.offset, s.cursor);
        return store_lane(a, i, lane, is_exchanged(head), cells, own);
    }
    cells
}
