// What the program prints: the outcome, and the registers whose word changed.
ghost use Rattle.std.specs.Prelude.{◌≡◌, ◌+◌, ◌<◌, ◌≤◌, length};
ghost use Rattle.listing.specs.Forms as Forms;
ghost use Rattle.listing.specs.PrivatePlaces as Places;
ghost use Rattle.listing.specs.Report as Report;

use crate::Reporting;
use crate::forms::{put, put_number, render, word_at};
use lane::Refusal;

// The report's forms, by the rule of `forms`; the answer's digits stand between the first two.
const ANSWER: [u8; 7] = *b"answer=";

const OUTCOME: [u8; 26] = *b"\nsteps=\x05\nplace=\x05\ncursor=\x04\n";

const CHANGE: [u8; 20] = *b"reg=\x02 lane=\x02 word=\x18\n";

// How many digits a number takes.
fn width(n: u32) -> usize
    ensures { (result ≡ Report.width_of n) × (result ≤ 10) }
{
    n.max(1).ilog10() as usize + 1
}

// The register of a slot.
#[tactic(auto, unfolding(crate::specs::Report::register_of, lane::specs::Words::pick))]
fn register_of(slot: u32) -> u32
    requires { slot < 12 }
    ensures { result ≡ Report.register_of slot }
{
    if slot < 8 { slot } else { slot + 3 }
}

// The four lines of an outcome: 54 bytes at most. Its four numbers go one by one, since a refused reading and a run hand them on from structs of their own.
fn put_outcome(answer: u32, steps: u32, place: u32, cursor: u32, page: &mut [u8]) -> usize
    requires { 54 ≤ length page.old }
    ensures { Places.Renders (Report.outcome_lines answer steps place cursor) 0 54 page.old page.new result }
{
    let values = [answer, steps, place, cursor];
    let at = render(&ANSWER, &values, 0, page, 0);
    let end = put_number(page, at, 10, width(answer), answer);
    render(&OUTCOME, &values, 1, page, end)
}

// The line of word `p`, where it changed. Both images are lent, each by itself, and go as two.
fn put_change(before: &[u32], after: &[u32], p: u32, page: &mut [u8], at: usize) -> usize
    requires { (at + 29 ≤ length page.old) × (p < 384) }
    ensures { Places.Renders (Report.change_line before.now after.now p) at 29 page.old page.new result }
{
    let word = word_at(after, p as usize);
    if word_at(before, p as usize) == word {
        return at;
    }
    render(&CHANGE, &[register_of(p / 32), p % 32, word], 0, page, at)
}

// The lines of all registers: 29 bytes at most for each word.
fn put_changes(before: &[u32], after: &[u32], page: &mut [u8], place: usize) -> usize
    requires { place + 11136 ≤ length page.old }
    ensures { Places.Renders (Report.changes before.now after.now 384) place 11136 page.old page.new result }
{
    let mut at = place;
    for p in 0..384u32 {
        at = put_change(before, after, p, page, at);
    }
    at
}

// The whole report.
fn put_report(
    answer: u32,
    steps: u32,
    place: u32,
    cursor: u32,
    before: &[u32],
    after: &[u32],
    page: &mut [u8],
) -> usize
    requires { 11190 ≤ length page.old }
    ensures { Places.Grown 0 result page.old page.new (Report.report answer steps place cursor before.now after.now).bytes }
{
    let at = put_outcome(answer, steps, place, cursor, page);
    if answer == 0 {
        return put_changes(before, after, page, at);
    }
    at
}

// The report of an outcome and the images before and after, in front of the lent room.
pub(crate) fn report(
    answer: u32,
    steps: u32,
    place: u32,
    cursor: u32,
    before: &[u32],
    after: &[u32],
    text: &mut [u8],
) -> Reporting
    ensures { Report.Reports (Report.report answer steps place cursor before.now after.now) text.old text.new result }
{
    let mut page: [u8; 11190] = [0; 11190];
    let n = put_report(answer, steps, place, cursor, before, after, &mut page);
    if text.len() < n {
        return Reporting {
            answer: u32::from(Refusal::Room),
            length: 0,
        };
    }
    put(text, 0, &page[..n]);
    Reporting { answer, length: n }
}
