// One instruction in one lane: its 24 words, row 0's 24 words and its two cells of Dst by value, and the words and the cells afterwards.
//
// `i`, `lane` and `own` are no struct: five functions need no lane, and what each returns is the words alone, so that a struct would be taken apart each time.

// What the proofs here cite, and the definitions that they look into.
#![tactic(auto, using(crate::proofs::Stores::after_none), unfolding(crate::specs::Words::pick))]

ghost use Rattle.std.specs.Prelude.{◌≡◌, ◌+◌, [], ◌∷◌};
ghost use Rattle.lane.specs.Words.{pick, lane_of, words_after};
ghost use Rattle.lane.specs.Load as Load;
ghost use Rattle.lane.specs.Swap as Swap;
ghost use Rattle.lane.specs.Lut as Lut;
ghost use Rattle.lane.specs.Config as Config;
ghost use Rattle.lane.specs.Compute as Compute;
ghost use Rattle.lane.specs.Rule as Rule;
ghost use Rattle.lane.specs.Refusals as Refusals;

use crate::compute::{exexp_flag, exexp_word, iadd_flag, iadd_word, lz_flag, lz_word, value_word};
use crate::config::{constant_after, lane_config_after, misc_after, passed_over, value_of};
use crate::dst::{is_exchanged, lane_cells};
use crate::load::{address, captures, immediate, is_odd, loaded, loads, place, resolved};
use crate::lut::{lut_answer, lut_register, lut_result, lut_word};
use crate::refuse::lane_answer;
use crate::swap::{acts, in_mask, mask_of, swaps};
use crate::words::{
    LANE_CONFIG, LANE_FLAG, MISC, SEQUENCE, TEMPLATE, USE_FLAG, is_enabled, register,
};
use crate::{Cells, Insn, Settings, Stepped, op};

// One store; a slot past the last is none.
fn put(own: [u32; 24], slot: u32, word: u32) -> [u32; 24]
    ensures { result ≡ words_after ((slot, word) ∷ []) own }
{
    let mut words = own;
    if slot < 24 {
        words[slot as usize] = word;
    }
    words
}

// A store to register `r`, only below `n`.
#[tactic(auto, using(crate::proofs::Stores::after_none), unfolding(crate::specs::Swap::below, crate::specs::Words::pick))]
fn put_below(own: [u32; 24], n: u32, r: u32, word: u32) -> [u32; 24]
    ensures { result ≡ words_after (Swap.below n r word) own }
{
    if r < n { put(own, r, word) } else { own }
}

// A word for vd, in an enabled lane. It and the next are two, as the two definitions of document 01 are, each of one line.
#[tactic(auto, using(crate::proofs::Stores::after_none), unfolding(crate::specs::Compute::word_only, crate::specs::Words::pick))]
fn word_only(own: [u32; 24], vd: u32, word: u32) -> [u32; 24]
    ensures { result ≡ words_after (Compute.word_only vd word (lane_of own)) own }
{
    let computes = (vd < 8) & is_enabled(&own);
    if computes { put(own, vd, word) } else { own }
}

// A word for vd and a flag, in an enabled lane.
fn word_and_flag(own: [u32; 24], vd: u32, word: u32, flag: u32) -> [u32; 24]
    ensures { result ≡ words_after (Compute.word_and_flag vd word flag (lane_of own)) own }
{
    let computes = (vd < 8) & is_enabled(&own);
    if computes {
        put(put(own, vd, word), LANE_FLAG as u32, flag)
    } else {
        own
    }
}

// LOAD's second store, of the cell's place.
fn capture(own: [u32; 24], vd: u32, config: u32, at: u32) -> [u32; 24]
    ensures { result ≡ words_after (pick (Load.captures vd config) ((vd + 4, at) ∷ []) []) own }
{
    if vd < 4 {
        if captures(vd, config) {
            return put(own, vd + 4, at);
        }
    }
    own
}

// LOAD of a cell.
fn load_cell(own: [u32; 24], vd: u32, m: u32, cell: u16, at: u32) -> [u32; 24]
    ensures { result ≡ words_after (Load.load_with vd m cell at (lane_of own)) own }
{
    if vd < 8 {
        let config = own[LANE_CONFIG];
        if loads(vd, &own) {
            let word = loaded(m, config % 2 == 1, own[vd as usize], cell);
            return capture(put(own, vd, word), vd, config, at);
        }
    }
    own
}

// LOAD.
#[tactic(auto, unfolding(crate::specs::Load::load))]
fn load_lane(
    srcb: u32,
    a: u16,
    i: Insn,
    lane: u8,
    exchanged: bool,
    cells: Cells,
    own: [u32; 24],
) -> [u32; 24]
    ensures { result ≡ words_after (Load.load srcb a i lane exchanged cells.even cells.odd (lane_of own)) own }
{
    let odd = is_odd(a, exchanged);
    let cell = cells.chosen(odd);
    load_cell(own, i.vd, resolved(srcb, i.md), cell, place(a, lane, odd))
}

// LOADI.
#[tactic(auto, using(crate::proofs::Stores::after_none), unfolding(crate::specs::Load::loadi, crate::specs::Words::pick))]
fn loadi_lane(i: Insn, own: [u32; 24]) -> [u32; 24]
    ensures { result ≡ words_after (Load.loadi i (lane_of own)) own }
{
    let vd = i.vd;
    if vd < 8 {
        if is_enabled(&own) {
            return put(own, vd, immediate(i.md, i.imm, own[vd as usize]));
        }
    }
    own
}

// What a LUT answer stores.
fn put_lut(own: [u32; 24], m: u32, r3: u32, answer: Option<(f32, u32)>) -> [u32; 24]
    ensures { result ≡ words_after (Lut.lut_stores m r3 answer) own }
{
    match answer {
        Some((x, r)) => put(own, r, lut_word(m, r3, x)),
        None => own,
    }
}

// LUT.
#[tactic(auto, unfolding(crate::specs::Lut::lut, crate::specs::Lut::lut_with))]
fn lut_lane(i: Insn, own: [u32; 24]) -> [u32; 24]
    ensures { result ≡ words_after (Lut.lut i (lane_of own)) own }
{
    let r3 = own[3];
    let acting = acts(i.vd, &own);
    let x = lut_result(own[0], own[1], own[2], r3);
    let answer = lut_answer(acting, lut_register(i.md, i.vd, own[7]), x);
    put_lut(own, i.md, r3, answer)
}

// The stores of a swap: with bit 2 clear, or set.
fn plain_swap(own: [u32; 24], vc: u32, vd: u32, c: u32, d: u32) -> [u32; 24]
    ensures { result ≡ words_after (Swap.plain_swap vc vd c d) own }
{
    put_below(put_below(own, 8, vc, d), 8, vd, c)
}

fn index_swap(own: [u32; 24], vc: u32, vd: u32, c: u32, d: u32, x: u32, y: u32) -> [u32; 24]
    ensures { result ≡ words_after (Swap.index_swap vc vd c d x y) own }
{
    let stored = put_below(put_below(own, 4, vc, d), 4, vd, c);
    put(put(stored, 4 + vc % 4, y), 4 + vd % 4, x)
}

// SWAP where vc and vd hold `c` and `d`.
#[tactic(auto, using(crate::proofs::Stores::after_none), unfolding(crate::specs::Swap::swap_with, crate::specs::Words::pick))]
fn swap_words(minimum: bool, i: Insn, c: u32, d: u32, own: [u32; 24]) -> [u32; 24]
    ensures { result ≡ words_after (Swap.swap_with minimum i c d (lane_of own)) own }
{
    let config = own[LANE_CONFIG];
    let acting = acts(i.vd, &own);
    let swapping = acting & swaps(i.md == 0, minimum, config / 256 % 2 == 1, c, d);
    if swapping {
        if config / 4 % 2 == 1 {
            let x = (4 + i.vc % 4) as usize;
            let y = (4 + i.vd % 4) as usize;
            index_swap(own, i.vc, i.vd, c, d, own[x], own[y])
        } else {
            plain_swap(own, i.vc, i.vd, c, d)
        }
    } else {
        own
    }
}

// SWAP.
#[tactic(auto, unfolding(crate::specs::Swap::swap))]
fn swap_lane(i: Insn, lane: u8, own: [u32; 24]) -> [u32; 24]
    ensures { result ≡ words_after (Swap.swap i lane (lane_of own)) own }
{
    let c = register(&own, lane, i.vc);
    let d = register(&own, lane, i.vd);
    swap_words(in_mask(mask_of(i.md), lane), i, c, d, own)
}

// CONFIG's store for vd 8 up: Misc, nothing, a constant register, LaneConfig.
#[tactic(auto, using(crate::proofs::Stores::after_none), unfolding(crate::specs::Config::high_store, crate::specs::Words::pick))]
fn config_high(edition: u32, i: Insn, first: u32, own: [u32; 24]) -> [u32; 24]
    ensures { result ≡ words_after (Config.high_store edition i first (lane_of own)) own }
{
    let vd = i.vd;
    let value = value_of(i.md, i.imm, first);
    match vd {
        8 => put(own, MISC as u32, misc_after(i.md, own[MISC], value)),
        0..=10 => own,
        11..=14 => put(own, vd - 3, constant_after(edition, i.md, vd, first)),
        _ => put(
            own,
            LANE_CONFIG as u32,
            lane_config_after(i.md, own[LANE_CONFIG], value),
        ),
    }
}

// CONFIG's store: a template, a sequence, or one of those above.
#[tactic(auto, unfolding(crate::specs::Config::config_store, crate::specs::Words::pick))]
fn config_words(edition: u32, i: Insn, first: u32, own: [u32; 24]) -> [u32; 24]
    ensures { result ≡ words_after (Config.config_store edition i first (lane_of own)) own }
{
    let vd = i.vd;
    match vd {
        0..=3 => put(own, TEMPLATE as u32 + vd, first),
        4..=7 => put(
            own,
            SEQUENCE as u32 + (vd - 4),
            value_of(i.md, i.imm, first),
        ),
        _ => config_high(edition, i, first, own),
    }
}

// CONFIG.
#[tactic(auto, using(crate::proofs::Stores::after_none), unfolding(crate::specs::Config::config, crate::specs::Config::config_with, crate::specs::Words::pick))]
fn config_lane(edition: u32, i: Insn, lane: u8, head: [u32; 24], own: [u32; 24]) -> [u32; 24]
    ensures { result ≡ words_after (Config.config edition i lane (lane_of head) (lane_of own)) own }
{
    if passed_over(i.md, i.imm, lane, head[USE_FLAG], head[LANE_FLAG]) {
        own
    } else {
        config_words(edition, i, head[0], own)
    }
}

// ABS, AND, OR, XOR, NOT and EXMAN.
#[tactic(auto, unfolding(crate::specs::Compute::valued, crate::specs::Compute::valued_with))]
fn valued_lane(i: Insn, lane: u8, own: [u32; 24]) -> [u32; 24]
    ensures { result ≡ words_after (Compute.valued i.op i lane (lane_of own)) own }
{
    let b = register(&own, lane, i.vb);
    let c = register(&own, lane, i.vc);
    let d = register(&own, lane, i.vd);
    word_only(own, i.vd, value_word(i.op, i.md, b, c, d))
}

// IADD.
#[tactic(auto, unfolding(crate::specs::Compute::iadd, crate::specs::Compute::iadd_with))]
fn iadd_lane(i: Insn, lane: u8, own: [u32; 24]) -> [u32; 24]
    ensures { result ≡ words_after (Compute.iadd i lane (lane_of own)) own }
{
    let c = register(&own, lane, i.vc);
    let d = register(&own, lane, i.vd);
    let word = iadd_word(i.md, i.imm, c, d);
    word_and_flag(own, i.vd, word, iadd_flag(i.md, word, own[LANE_FLAG]))
}

// LZ.
#[tactic(auto, unfolding(crate::specs::Compute::lz, crate::specs::Compute::lz_with))]
fn lz_lane(i: Insn, lane: u8, own: [u32; 24]) -> [u32; 24]
    ensures { result ≡ words_after (Compute.lz i lane (lane_of own)) own }
{
    let c = register(&own, lane, i.vc);
    word_and_flag(
        own,
        i.vd,
        lz_word(i.md, c),
        lz_flag(i.md, c, own[LANE_FLAG]),
    )
}

// EXEXP.
#[tactic(auto, unfolding(crate::specs::Compute::exexp, crate::specs::Compute::exexp_with))]
fn exexp_lane(i: Insn, lane: u8, own: [u32; 24]) -> [u32; 24]
    ensures { result ≡ words_after (Compute.exexp i lane (lane_of own)) own }
{
    let c = register(&own, lane, i.vc);
    let word = exexp_word(i.md, c);
    word_and_flag(own, i.vd, word, exexp_flag(i.md, word, own[LANE_FLAG]))
}

// Any operation but CONFIG.
#[tactic(auto, using(crate::proofs::Stores::after_none), unfolding(crate::specs::Rule::lanewise, crate::specs::Words::pick))]
fn lanewise_words(
    srcb: u32,
    a: u16,
    i: Insn,
    lane: u8,
    exchanged: bool,
    cells: Cells,
    own: [u32; 24],
) -> [u32; 24]
    ensures { result ≡ words_after (Rule.lanewise i.op srcb a i lane exchanged cells.even cells.odd (lane_of own)) own }
{
    match i.op {
        op::LOAD => load_lane(srcb, a, i, lane, exchanged, cells, own),
        op::LOADI => loadi_lane(i, own),
        op::LUT => lut_lane(i, own),
        op::SWAP => swap_lane(i, lane, own),
        op::IADD => iadd_lane(i, lane, own),
        op::LZ => lz_lane(i, lane, own),
        op::EXEXP => exexp_lane(i, lane, own),
        op::NOP => own,
        op::STORE => own,
        _ => valued_lane(i, lane, own),
    }
}

// Any operation, at the address that the settings give.
#[tactic(auto, unfolding(crate::specs::Rule::stores_of, crate::specs::Words::pick))]
fn lane_words(
    s: Settings,
    i: Insn,
    lane: u8,
    head: [u32; 24],
    cells: Cells,
    own: [u32; 24],
) -> [u32; 24]
    ensures { result ≡ words_after (Rule.stores_of i.op s (Load.address i.imm s.offset s.cursor) i lane (lane_of head) cells.even cells.odd (lane_of own)) own }
{
    if i.op == op::CONFIG {
        return config_lane(s.edition, i, lane, head, own);
    }
    let a = address(i.imm, s.offset, s.cursor);
    let exchanged = is_exchanged(head);
    lanewise_words(s.srcb, a, i, lane, exchanged, cells, own)
}

// The lane rules: a refusal with the words and the cells as given, or 0 with those after.
pub fn step_lane(
    s: Settings,
    lane: u32,
    i: Insn,
    own: [u32; 24],
    head: [u32; 24],
    cells: Cells,
) -> Stepped
    ensures { result ≡ Refusals.lane_step s lane i own head cells.even cells.odd }
{
    if let Err(why) = lane_answer(s, lane, i, own, head) {
        return Stepped {
            answer: u32::from(why),
            words: own,
            cells,
        };
    }
    let n = lane as u8;
    Stepped {
        answer: 0,
        words: lane_words(s, i, n, head, cells, own),
        cells: lane_cells(s, i, n, head, cells, own),
    }
}
