// LUT over all lanes: the inputs with the words that serve them, the sums, then each lane's answer and its store. A lane without an answer
// stores a word of its own again, so that no loop has a branch; that store is none of the rules', and is not counted.
ghost use Rattle.std.specs.Prelude.{◌≡◌, ℕ, ◌+◌, ◌%◌, ◌<◌, true, false, [], ◌∷◌, length, slice_index, slice_index_or};
ghost use Rattle.std.specs.Float.{nan};
ghost use Rattle.lane.specs.Words.{has, register_stores};
ghost use Rattle.lane.specs.Swap as Swap;
ghost use Rattle.lane.specs.Lut as Rules;
ghost use Rattle.runner.specs.Image.{lane_in};
ghost use Rattle.runner.specs.PrivateRows as Rows;
ghost use Rattle.runner.specs.PrivateLut as LutRows;
ghost use Rattle.runner.specs.PrivateSteps as Steps;

use crate::Image;
use crate::rows::{full, may_act, put, row, slot_row, word_at};
use crate::traffic::count_marked;
use lane::Insn;
use lane::lut::{float_of, input_bits, lut_answer, lut_word, piece_of, serving, sum_of};
use lane::words::LANE_CONFIG;

// The inputs. They and the sums have loops of their own: `row` makes words, and after `array::from_fn` of numbers the search leaves `returns` open.
fn inputs(image: &Image) -> [f32; 32]
    ensures { LutRows.Numbers (λ L. Rules.input_of (lane_in image.now L 3)) result }
{
    let mut b = [0.0f32; 32];
    for n in 0..32 {
        b[n] = float_of(input_bits(word_at(image, 3, n)));
    }
    b
}

// The coefficient words that serve them.
fn served(image: &Image, b: &[f32; 32]) -> [u32; 32]
    ensures { result ≡ Rows.row (λ L. Rules.serving (slice_index_or b.now L nan) (lane_in image.now L 0) (lane_in image.now L 1) (lane_in image.now L 2)) }
{
    row(|n| {
        serving(
            b[n],
            word_at(image, 0, n),
            word_at(image, 1, n),
            word_at(image, 2, n),
        )
    })
}

// The sums.
fn sums(b: &[f32; 32], k: &[u32; 32]) -> [f32; 32]
    ensures { LutRows.Numbers (λ L. Rules.sum_of (Rules.piece_of (slice_index k.now L)) (slice_index_or b.now L nan)) result }
{
    let mut x = [0.0f32; 32];
    for n in 0..32 {
        x[n] = sum_of(piece_of(k[n]), b[n]);
    }
    x
}

// The results. Three loops, since one long chain a lane leaves the processor waiting.
fn results(image: &Image) -> [f32; 32]
    ensures { LutRows.Numbers (λ L. LutRows.result_in (lane_in image.now L)) result }
{
    let b = inputs(image);
    let k = served(image, &b);
    sums(&b, &k)
}

// The word that an answer leaves where its register holds `own`. By a match, since with `map_or` each lane has a branch more.
fn answer_word(m: u32, r3: u32, answer: Option<(f32, u32)>, own: u32) -> u32
    ensures { result ≡ LutRows.stored_word (Rules.lut_stores m r3 answer) own }
{
    match answer {
        Some((x, _)) => lut_word(m, r3, x),
        None => own,
    }
}

// The slot that it is stored to, register 0's where there is no answer.
fn answer_slot(answer: Option<(f32, u32)>) -> u32
    ensures { (m r3 : ℕ) → result ≡ LutRows.stored_slot (Rules.lut_stores m r3 answer) }
{
    answer.map_or(0, |(_, r)| r)
}

// The mask of whether there is an answer.
fn answer_mark(answer: Option<(f32, u32)>) -> u32
    ensures { (m r3 : ℕ) → result ≡ Rows.full (LutRows.is_made (Rules.lut_stores m r3 answer)) }
{
    full(answer.is_some())
}

// The answers stored to vd, which holds `old`.
fn answer_rows(
    image: &mut Image,
    m: u32,
    vd: u32,
    r3: &[u32; 32],
    old: &[u32; 32],
    x: &[f32; 32],
    act: &[u32; 128],
)
    requires { vd < 8 }
    ensures { image.new ≡ Rows.storing image.old (λ L. (vd, LutRows.stored_word (LutRows.answered m (slice_index r3.now L) (LutRows.is_set (slice_index act.now L)) vd (slice_index_or x.now L nan)) (slice_index old.now L)) ∷ []) }
{
    for n in 0..32 {
        let answer = lut_answer(act[n] != 0, vd, x[n]);
        let word = answer_word(m, r3[n], answer, old[n]);
        put(image, vd as usize, n, 0xFFFFFFFF, word);
    }
}

// The words of the answers, the slots that they are stored to, and the masks of whether there is one. Three rows, not a row of answers: `scatter` reads two of
// them, and `count_marked` takes the third as the row that it is.
#[derive(Drop)]
struct Answers {
    words: [u32; 32],
    slots: [u32; 32],
    marks: [u32; 32],
}

// The answers where register 7 names the register. Registers 3 and 0 are copied first, as a word of the image that only one case of the answer reads would keep
// the loop from being vectorised.
fn named_answers(
    image: &Image,
    i: Insn,
    r3: &[u32; 32],
    r0: &[u32; 32],
    x: &[f32; 32],
    go: &[u32; 128],
) -> Answers
    requires { Rows.Enabled go.now image.now }
    ensures { LutRows.Answered (λ L. LutRows.answered i.md (slice_index r3.now L) (Swap.acts i.vd (lane_in image.now L)) (lane_in image.now L 7 % 16) (slice_index_or x.now L nan)) (λ L. slice_index r0.now L) result }
{
    let mut answers = Answers {
        words: [0u32; 32],
        slots: [0u32; 32],
        marks: [0u32; 32],
    };
    for n in 0..32 {
        let free = may_act(i.vd < 12, word_at(image, LANE_CONFIG, n));
        let register = word_at(image, 7, n) % 16;
        let answer = lut_answer(free & (go[n] != 0), register, x[n]);
        answers.words[n] = answer_word(i.md, r3[n], answer, r0[n]);
        answers.slots[n] = answer_slot(answer);
        answers.marks[n] = answer_mark(answer);
    }
    answers
}

// The answers stored to their slots.
fn scatter(image: &mut Image, answers: &Answers)
    requires { (L : ℕ) → L < 32 → slice_index answers.now.slots L < 8 }
    ensures { image.new ≡ Rows.storing image.old (λ L. (slice_index answers.now.slots L, slice_index answers.now.words L) ∷ []) }
{
    for n in 0..32 {
        let slot = answers.slots[n] as usize;
        put(image, slot, n, 0xFFFFFFFF, answers.words[n]);
    }
}

// LUT to the register that register 7 names.
fn lut_named(image: &mut Image, i: Insn, go: &[u32; 128], x: &[f32; 32], stores: &mut [u32])
    requires enabled { Rows.Enabled go.now image.old }
    requires results { LutRows.Numbers (λ L. LutRows.result_in (lane_in image.old L)) x.now }
    requires md { has i.md 8 ≡ true }
    requires stores { Steps.Room 24 stores.old }
    ensures { (image.new ≡ Rows.storing image.old (λ L. Rules.lut i (lane_in image.old L))) × (stores.new ≡ Steps.counted stores.old (λ L. register_stores (Rules.lut i (lane_in image.old L)))) }
{
    let r3 = slot_row(image, 3);
    let r0 = slot_row(image, 0);
    let answers = named_answers(image, i, &r3, &r0, x, go);
    scatter(image, &answers);
    count_marked(&answers.marks, 0, 1, stores);
}

// LUT to vd, where that is stored.
fn lut_direct(image: &mut Image, i: Insn, go: &[u32; 128], x: &[f32; 32], stores: &mut [u32])
    requires enabled { Rows.Enabled go.now image.old }
    requires results { LutRows.Numbers (λ L. LutRows.result_in (lane_in image.old L)) x.now }
    requires md { has i.md 8 ≡ false }
    requires vd { i.vd < 8 }
    requires stores { Steps.Room 24 stores.old }
    ensures { (image.new ≡ Rows.storing image.old (λ L. Rules.lut i (lane_in image.old L))) × (stores.new ≡ Steps.counted stores.old (λ L. register_stores (Rules.lut i (lane_in image.old L)))) }
{
    let r3 = slot_row(image, 3);
    let old = slot_row(image, i.vd as usize);
    answer_rows(image, i.md, i.vd, &r3, &old, x, go);
    count_marked(go, 0, 1, stores);
}

// LUT over all lanes.
pub(crate) fn lut(image: &mut Image, i: Insn, go: &[u32; 128], stores: &mut [u32])
    requires enabled { Rows.Enabled go.now image.old }
    requires stores { Steps.Room 24 stores.old }
    ensures { (image.new ≡ Rows.storing image.old (λ L. Rules.lut i (lane_in image.old L))) × (stores.new ≡ Steps.counted stores.old (λ L. register_stores (Rules.lut i (lane_in image.old L)))) }
{
    let named = i.md / 8 % 2 == 1;
    if named | (i.vd < 8) {
        let x = results(image);
        if named {
            lut_named(image, i, go, &x, stores);
        } else {
            lut_direct(image, i, go, &x, stores);
        }
    }
}
