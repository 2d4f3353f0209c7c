// Text to settings and list, line by line through the reader: once over the text for every check, and once more into the lent room.
ghost use Rattle.std.specs.Prelude.{◌≡◌, true, ◌+◌, ◌*◌, ◌≤◌, length, drop};
ghost use Rattle.lane.specs.Refusals.{number, instruction_answer};
ghost use Rattle.runner.specs.Checks.{insn_at, found, found_by, scanned, list_limit};
ghost use Rattle.listing.specs.Forms as Forms;
ghost use Rattle.listing.specs.PrivatePlaces as Places;
ghost use Rattle.listing.specs.PrivateLines as Lines;
ghost use Rattle.listing.specs.PrivateReader as Held;
ghost use Rattle.listing.specs.Listing as Listing;

use crate::formats::Format;
use crate::forms::{put, word_at};
use crate::hold::Reader;
use crate::lines::{LineRows, plain_end, plain_line};
use crate::{Fault, Plain, Reading, Rest};
use lane::refuse::{instruction_answer, settings_good};
use lane::{Insn, Refusal, Settings};
use runner::Refused;

// A refusal. The writer has its own, since `Reading` and `Writing` are public structs of their own.
#[tactic(auto, unfolding(crate::specs::Listing::refused_reading))]
pub(crate) fn refused(why: Refusal, place: u32, cursor: u32) -> Reading
    ensures { result ≡ Listing.refused_reading (number why) place cursor }
{
    Reading {
        settings: Settings::from([0, 0, 0, cursor, 0, 0, 0, 0]),
        answer: u32::from(why),
        steps: 0,
        place,
        cursor,
        length: 0,
    }
}

// Settings, from words in the listing's order; a word that is lacking counts as 0, where `Settings::from` takes eight.
#[tactic(auto, unfolding(crate::specs::Listing::settings_of))]
pub fn settings_of(words: &[u32]) -> Settings
    ensures { result ≡ Listing.settings_of words.now }
{
    Settings {
        edition: word_at(words, 0),
        srcb: word_at(words, 1),
        offset: word_at(words, 2),
        cursor: word_at(words, 3),
        stride0: word_at(words, 4),
        stride1: word_at(words, 5),
        stride2: word_at(words, 6),
        stride3: word_at(words, 7),
    }
}

// The first refused instruction, `k` being met after those before it.
fn first_refused(found: Result<(), Refused>, k: u32, numbers: &[u32; 9]) -> Result<(), Refused>
    ensures { found_by result ≡ Held.first_refused (found_by found) k (instruction_answer true (insn_at numbers.now 0)) }
{
    found?;
    let [op, imm, vb, vc, vd, md, ..] = *numbers;
    let insn = Insn::from([op, imm, vb, vc, vd, md]);
    if let Err(why) = instruction_answer(true, insn) {
        return Err(Refused { why, place: k });
    }
    Ok(())
}

// The instruction lines that are plainly good, from a position on.
fn plain_lines(table: LineRows, text: &[u8], from: usize, count: u32) -> Plain
    requires { from ≤ length text.now }
    ensures { Held.Checking text.now from count result.at (found 0 0) result.lines }
{
    let mut at = from;
    for i in 0..count {
        let Some(end) = plain_end(table, text, at) else {
            return Plain { lines: i, at };
        };
        at = end;
    }
    Plain { lines: count, at }
}

// The instruction lines from line `first` on, their form and their fields: those that are plainly good, and then one by one.
fn check_lines(text: &[u8], from: usize, first: u32, count: u32) -> Result<Rest, Fault>
    requires { (from ≤ length text.now) × (first ≤ 100) × (count ≤ list_limit) }
    ensures { Held.Checks text.now from first count result }
{
    let plain = plain_lines(LineRows::new(), text, from, count);
    let mut reader = Reader::placed(text, plain.at, first + plain.lines);
    let mut found = Ok(());
    for i in plain.lines..count {
        // No `?`, so that what a fault answers is a fact that a must-fail edit can change.
        match reader.next_line() {
            Ok(numbers) => found = first_refused(found, i, &numbers),
            Err(fault) => return Err(fault),
        }
    }
    Ok(Rest {
        at: reader.at,
        found,
    })
}

// An instruction's words, into lent room from a position on; where they end. One by one, since `copy_from_slice` looks whether the two overlap, and reading
// takes 1.07 of its time so.
fn put_words(list: &mut [u32], at: usize, words: &[u32; 6]) -> usize
    requires { at + 6 ≤ length list.old }
    ensures { Places.Grown at result list.old list.new words.now }
{
    for j in 0..6 {
        list[at + j] = words[j];
    }
    at + 6
}

// The instruction lines that are plainly in form, into the front of the lent room. That all of them are in form is a fact of a text that is lent and of a number of
// lines in it, and of no value of ours that could hold it.
fn fill_plain(table: LineRows, text: &[u8], from: usize, count: u32, list: &mut [u32]) -> Plain
    requires { (from ≤ length text.now) × ((6 * count ≤ length list.old) × Places.Whole (Forms.scan (Listing.lines count) (drop from text.now))) }
    ensures { Held.Filling text.now from count list.old list.new result.at result.lines }
{
    let mut at = from;
    for i in 0..count {
        let Some((end, w)) = plain_line(table, text, at) else {
            return Plain { lines: i, at };
        };
        put_words(list, 6 * i as usize, &<[u32; 6]>::from(w));
        at = end;
    }
    Plain { lines: count, at }
}

// The instruction lines once more, into the front of the lent room.
fn fill_lines(text: &[u8], from: usize, count: u32, list: &mut [u32])
    requires { (from ≤ length text.now) × (count ≤ list_limit) × (6 * count ≤ length list.old) × Places.Whole (Forms.scan (Listing.lines count) (drop from text.now)) }
    ensures { list.new ≡ Listing.in_front (Places.numbers_of (Forms.scan (Listing.lines count) (drop from text.now))) list.old }
{
    let plain = fill_plain(LineRows::new(), text, from, count, list);
    let mut reader = Reader::placed(text, plain.at, plain.lines);
    for i in plain.lines..count {
        let numbers = reader.next_line().unwrap();
        put(list, 6 * i as usize, &numbers[..6]);
    }
}

// A list that is in form, the first refused of whose instructions was found: the other checks, and then the lent room.
fn read_list(
    s: Settings,
    text: &[u8],
    at: usize,
    count: u32,
    found: Result<(), Refused>,
    list: &mut [u32],
) -> Reading
    requires { (at ≤ length text.now) × (count ≤ list_limit) × Places.Whole (Forms.scan (Listing.lines count) (drop at text.now)) × (found_by found ≡ scanned (Places.numbers_of (Forms.scan (Listing.lines count) (drop at text.now)))) }
    ensures { Held.Reads (Listing.read_list (length list.old) s (Places.numbers_of (Forms.scan (Listing.lines count) (drop at text.now)))) list.old list.new result }
{
    if !settings_good(s) {
        return refused(Refusal::Setting, 0, s.cursor);
    }
    if let Err(first) = found {
        return refused(first.why, first.place, s.cursor);
    }
    let n = 6 * count as usize;
    if list.len() < n {
        return refused(Refusal::Room, 0, 0);
    }
    fill_lines(text, at, count, list);
    Reading {
        settings: s,
        answer: 0,
        steps: 0,
        place: 0,
        cursor: s.cursor,
        length: n,
    }
}

// What follows the head of a listing in a format.
fn read_rest(text: &[u8], at: usize, format: Format, head: &[u32; 9], list: &mut [u32]) -> Reading
    requires { at ≤ length text.now }
    ensures { Held.Reads (Listing.read_header (Held.row format) (length list.old) (Forms.taken head.now (drop at text.now))) list.old list.new result }
{
    let count = head[8];
    if format.limit() < count {
        return refused(Refusal::ListLimit, 0, head[3]);
    }
    let first = format.first_line();
    match check_lines(text, at, first, count) {
        Ok(rest) => {
            if rest.at < text.len() {
                return refused(Refusal::Text, first + count, 0);
            }
            read_list(settings_of(head), text, at, count, rest.found, list)
        }
        Err(fault) => refused(Refusal::Text, fault.line, 0),
    }
}

// The most bytes of a listing.
const TEXT_LIMIT: usize = 1048576;

// A listing: its settings, and its list in front of the lent room.
pub fn read(text: &[u8], list: &mut [u32]) -> Reading
    ensures { (result ≡ (Listing.read_text (length list.old) text.now).reading) × (list.new ≡ Listing.in_front (Listing.read_text (length list.old) text.now).list list.old) }
{
    if TEXT_LIMIT < text.len() {
        return refused(Refusal::Room, 0, 0);
    }
    let format = Format::of(text);
    let mut reader = Reader::placed(text, 0, 1);
    match reader.next(format.head()) {
        Ok(head) => read_rest(text, reader.at, format, &head, list),
        Err(fault) => refused(Refusal::Text, fault.line, 0),
    }
}
