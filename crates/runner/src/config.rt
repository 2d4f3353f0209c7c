// CONFIG over all lanes: a mask and a value for each column, from its lane in row 0, then the 32 lanes once. To registers 11 to 14 it is counted by its masks.
ghost use Rattle.std.specs.Prelude.{◌≡◌, ℕ, ◌%◌, ◌<◌, ◌≤◌, ◌≢◌, Bool, ◌&&◌, [], ◌∷◌, MatchOption, length, nat_lt, slice_index};
ghost use Rattle.lane.specs.Words.{pick, flag_of, register_stores};
ghost use Rattle.lane.specs.Config as Rules;
ghost use Rattle.runner.specs.Image.{lane_in};
ghost use Rattle.runner.specs.PrivateRows as Rows;
ghost use Rattle.runner.specs.PrivateConfig as ConfigRows;
ghost use Rattle.runner.specs.PrivateSteps as Steps;

use crate::Image;
use crate::rows::{by_columns, full, put, word_at};
use crate::traffic::count_marked;
use lane::Insn;
use lane::config::{constant_after, lane_config_after, misc_after, passed_over, value_of};
use lane::words::{LANE_CONFIG, LANE_FLAG, MISC, SEQUENCE, TEMPLATE, USE_FLAG};

// The slot that CONFIG stores to: none for vd 9 and 10.
#[tactic(auto, unfolding(crate::specs::PrivateConfig::config_slot, lane::specs::Words::pick))]
fn config_slot(vd: u32) -> Option<usize>
    ensures { MatchOption result ((9 ≤ vd) × (vd ≤ 10)) (λ slot. (slot ≡ ConfigRows.config_slot vd) × ((slot < 24) × ((vd ≢ 9) × (vd ≢ 10)))) }
{
    match vd {
        0..=3 => Some(TEMPLATE + vd as usize),
        4..=7 => Some(SEQUENCE + (vd as usize - 4)),
        8 => Some(MISC),
        9..=10 => None,
        11..=14 => Some(vd as usize - 3),
        _ => Some(LANE_CONFIG),
    }
}

// A column's value, where row 0 has `first` in register 0.
#[tactic(auto, unfolding(crate::specs::PrivateConfig::config_value, lane::specs::Words::pick))]
fn config_value(edition: u32, i: Insn, first: u32) -> u32
    ensures { result ≡ ConfigRows.config_value edition i first }
{
    match i.vd {
        0..=3 => first,
        11..=14 => constant_after(edition, i.md, i.vd, first),
        _ => value_of(i.md, i.imm, first),
    }
}

// The word that a value leaves in place of `old`. Only Misc and LaneConfig are combined with it.
#[tactic(auto, unfolding(crate::specs::PrivateConfig::written, lane::specs::Words::pick))]
fn written(vd: u32, m: u32, value: u32, old: u32) -> u32
    ensures { result ≡ ConfigRows.written vd m value old }
{
    match vd {
        8 => misc_after(m, old, value),
        0..=14 => value,
        _ => lane_config_after(m, old, value),
    }
}

// The masks of the lanes that are not passed over. Each column's is worked out once, for its four lanes.
fn reached_masks(image: &Image, i: Insn) -> [u32; 32]
    ensures { result ≡ ConfigRows.reached_in i image.now }
{
    by_columns(|j| {
        let uses = word_at(image, USE_FLAG, j);
        let flag = word_at(image, LANE_FLAG, j);
        full(!passed_over(i.md, i.imm, j as u8, uses, flag))
    })
}

// The values, each column's for its four lanes.
fn config_values(image: &Image, edition: u32, i: Insn) -> [u32; 32]
    ensures { result ≡ Rows.columns (λ j. ConfigRows.config_value edition i (lane_in image.now j 0)) }
{
    by_columns(|j| config_value(edition, i, word_at(image, 0, j)))
}

// The stores to a slot.
fn config_rows(image: &mut Image, slot: usize, i: Insn, masks: &[u32; 32], values: &[u32; 32])
    requires slot { slot < 24 }
    requires masks { masks.now ≡ ConfigRows.reached_in i image.old }
    ensures { image.new ≡ Rows.storing image.old (λ L. pick (ConfigRows.reached i (lane_in image.old (L % 8)) (L % 8)) ((slot, ConfigRows.written i.vd i.md (slice_index values.now L) (lane_in image.old L slot)) ∷ []) []) }
{
    for n in 0..32 {
        let word = written(i.vd, i.md, values[n], word_at(image, slot, n));
        put(image, slot, n, masks[n], word);
    }
}

// One store in each lane that is reached, where vd is a register: 11 to 14.
fn count_reached(vd: u32, masks: &[u32; 32], stores: &mut [u32])
    requires masks { Rows.MasksAt 0 masks.now }
    requires stores { Steps.Room 24 stores.old }
    ensures { (e : ℕ → Bool) → Rows.MarksAt 0 e masks.now → stores.new ≡ Steps.counted stores.old (Steps.times (flag_of (nat_lt 10 vd && nat_lt vd 15)) e) }
{
    if (10 < vd) & (vd < 15) {
        count_marked(masks, 0, 1, stores);
    }
}

// CONFIG over all lanes.
pub(crate) fn config(image: &mut Image, edition: u32, i: Insn, stores: &mut [u32])
    requires { Steps.Room 24 stores.old }
    ensures { (image.new ≡ Rows.storing image.old (λ L. Rules.config edition i L (lane_in image.old (L % 8)) (lane_in image.old L))) × (stores.new ≡ Steps.counted stores.old (λ L. register_stores (Rules.config edition i L (lane_in image.old (L % 8)) (lane_in image.old L)))) }
{
    let Some(slot) = config_slot(i.vd) else {
        return;
    };
    let masks = reached_masks(image, i);
    let values = config_values(image, edition, i);
    config_rows(image, slot, i, &masks, &values);
    count_reached(i.vd, &masks, stores);
}
