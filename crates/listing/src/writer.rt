// Settings and list to text: the checks, a count of the bytes, and the lent room only then.
ghost use Rattle.std.specs.Prelude.{◌≡◌, ◌+◌, ◌*◌, ◌<◌, ◌≤◌, length};
ghost use Rattle.lane.specs.Refusals.{number};
ghost use Rattle.runner.specs.Checks.{count_of, list_limit};
ghost use Rattle.listing.specs.Forms as Forms;
ghost use Rattle.listing.specs.PrivatePlaces as Places;
ghost use Rattle.listing.specs.PrivateLines as Lines;
ghost use Rattle.listing.specs.Listing as Listing;

use crate::forms::render;
use crate::lines::{LineRows, line_length, put_line};
use crate::{HEAD_2, Writing};
use lane::{Refusal, Settings};
use runner::checks::list_answer;

// A refusal. The reader has its own, since `Reading` and `Writing` are public structs of their own.
#[tactic(auto, unfolding(crate::specs::Listing::refused_writing))]
fn refused(why: Refusal, place: u32, cursor: u32) -> Writing
    ensures { result ≡ Listing.refused_writing (number why) place cursor }
{
    Writing {
        answer: u32::from(why),
        steps: 0,
        place,
        cursor,
        length: 0,
    }
}

// The header's numbers: by hand, since the eight of `From` and the count make no plainer nine.
#[tactic(auto, unfolding(crate::specs::Listing::header_of))]
fn header_of(s: Settings, count: u32) -> [u32; 9]
    ensures { result ≡ Listing.header_of s count }
{
    [
        s.edition, s.srcb, s.offset, s.cursor, s.stride0, s.stride1, s.stride2, s.stride3, count,
    ]
}

// How many bytes the instruction lines take. That a list is short and its ops have names is a fact of what is lent, which no value of ours could hold.
fn lines_length(list: &[u32]) -> usize
    requires { (length list.now ≤ 6 * list_limit) × Lines.Named list.now }
    ensures { result ≡ length (Forms.render (Listing.lines (count_of list.now)) list.now) }
{
    let mut n: usize = 0;
    for insn in list.as_chunks::<6>().0 {
        n += line_length(insn[0]);
    }
    n
}

// The instruction lines.
fn put_lines(table: LineRows, list: &[u32], text: &mut [u8], place: usize) -> usize
    requires { (length list.now ≤ 6 * list_limit) × Lines.Named list.now × (place + length (Forms.render (Listing.lines (count_of list.now)) list.now) ≤ length text.old) }
    ensures { Places.Grown place result text.old text.new (Forms.render (Listing.lines (count_of list.now)) list.now) }
{
    let mut at = place;
    for insn in list.as_chunks::<6>().0 {
        at = put_line(table, insn, text, at);
    }
    at
}

// A whole listing.
fn put_listing(s: Settings, list: &[u32], text: &mut [u8])
    requires { (length list.now ≤ 6 * list_limit) × Lines.Named list.now × (length (Listing.listing s list.now) ≤ length text.old) }
    ensures { text.new ≡ Listing.in_front (Listing.listing s list.now) text.old }
{
    let count = (list.len() / 6) as u32;
    let at = render(&HEAD_2, &header_of(s, count), 0, text, 0);
    put_lines(LineRows::new(), list, text, at);
}

// The bytes of the head.
const HEAD_WIDTH: usize = 114;

// Settings and a list as a listing, in front of the lent room.
pub fn write(s: Settings, list: &[u32], text: &mut [u8]) -> Writing
    ensures { (result ≡ (Listing.write_list (length text.old) s list.now).writing) × (text.new ≡ Listing.in_front (Listing.write_list (length text.old) s list.now).bytes text.old) }
{
    if let Err(first) = list_answer(s, list) {
        return refused(first.why, first.place, s.cursor);
    }
    let n = HEAD_WIDTH + lines_length(list);
    if text.len() < n {
        return refused(Refusal::Room, 0, 0);
    }
    put_listing(s, list, text);
    Writing {
        answer: 0,
        steps: 0,
        place: 0,
        cursor: s.cursor,
        length: n,
    }
}
