// The program's work: a listing's bytes to the report's bytes, or to the same listing's in the format that is written. Image, Dst and list are its own, so
// that nothing lent is left in between.
ghost use Rattle.std.specs.Prelude.{◌≡◌, length};
ghost use Rattle.runner.specs.Checks.{list_answer};
ghost use Rattle.listing.specs.PrivateReader as Held;
ghost use Rattle.listing.specs.Listing as Listing;
ghost use Rattle.listing.specs.Report as Report;
ghost use Rattle.listing.specs.Program as Program;

use crate::reader::{read, refused};
use crate::report::report;
use crate::writer::write;
use crate::{Reading, Reporting};
use lane::{Refusal, Settings};
use runner::run::run;

// A run from zeros, reported.
#[tactic(auto, unfolding(crate::specs::Program::run_report))]
fn run_reported(s: Settings, list: &[u32], room: &mut [u8]) -> Reporting
    ensures { Report.Reports (Program.run_report s list.now) room.old room.new result }
{
    let before = [0u32; 768];
    let mut image = [0u32; 768];
    let mut dst = [0u16; 16384];
    let o = run(s, &mut image, &mut dst, list);
    report(o.answer, o.steps, o.place, o.cursor, &before, &image, room)
}

// A refused reading, reported.
#[tactic(auto, unfolding(crate::specs::Program::refusal_report))]
fn refusal_reported(r: Reading, room: &mut [u8]) -> Reporting
    ensures { Report.Reports (Program.refusal_report r) room.old room.new result }
{
    report(r.answer, r.steps, r.place, r.cursor, &[], &[], room)
}

// The most words and bytes that the program holds.
const HELD_WORDS: usize = 6144;

const HELD_BYTES: usize = 65536;

// A listing that is held, its list in front of the program's own room.
fn read_held(text: &[u8], list: &mut [u32]) -> Reading
    requires { length list.old ≡ Program.held_words }
    ensures { Held.Reads (Program.read_held text.now) list.old list.new result }
{
    if HELD_BYTES < text.len() {
        return refused(Refusal::Room, 0, 0);
    }
    read(text, list)
}

// The whole output for a listing, in front of the lent room. The number is the one in it, or 11 where the room is too short.
pub fn replay(text: &[u8], room: &mut [u8]) -> Reporting
    ensures { Report.Reports (Program.output text.now) room.old room.new result }
{
    let mut list = [0u32; HELD_WORDS];
    let reading = read_held(text, &mut list);
    if reading.answer == 0 {
        let n = reading.length;
        run_reported(reading.settings, &list[..n], room)
    } else {
        refusal_reported(reading, room)
    }
}

// A list that was read, written again; of what the writing says, the two that a report has.
fn written(s: Settings, list: &[u32], room: &mut [u8]) -> Reporting
    requires { (list_answer s list.now).answer ≡ 0 }
    ensures { Report.Reports (record { answer = 0; bytes = Listing.listing s list.now }) room.old room.new result }
{
    let put = write(s, list, room);
    Reporting {
        answer: put.answer,
        length: put.length,
    }
}

// The whole output where a listing is to be rewritten, in a function of its own, since what follows a good reading has another promise: the same settings and list in
// the format that is written, in front of the lent room.
pub fn rewrite(text: &[u8], room: &mut [u8]) -> Reporting
    ensures { Report.Reports (Program.rewritten text.now) room.old room.new result }
{
    let mut list = [0u32; HELD_WORDS];
    let reading = read_held(text, &mut list);
    if reading.answer == 0 {
        let n = reading.length;
        written(reading.settings, &list[..n], room)
    } else {
        refusal_reported(reading, room)
    }
}
