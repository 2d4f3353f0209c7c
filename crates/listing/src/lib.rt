// Listings: text in and out, and the report.
//
// Everything public is total: it has a promise and no `requires`. The promises cite specs/, which renders document 01.

#![tactic(auto)]

// One scan and one render over all forms.
mod forms;
// The reader that keeps hold of the text.
mod hold;
// The table of formats.
mod formats;
// Instruction lines as a whole.
mod lines;
// Text to settings and list.
pub mod reader;
// Settings and list to text.
pub mod writer;
// What the program prints.
mod report;
// A listing in, a report out: the program.
pub mod program;

// What a reading returns: the settings, the outcome, and how many words of the lent room the list takes. It is no Result, and neither are the two after it, since
// `refused_reading`, `refused_writing`, `reporting` and the theorems RefusedReadingTouchesNothing and RefusedWritingTouchesNothing (crate claims) speak of what a
// refusal has in each field.
#[derive(Clone, Copy)]
pub struct Reading {
    pub settings: lane::Settings,
    pub answer: u32,
    pub steps: u32,
    pub place: u32,
    pub cursor: u32,
    pub length: usize,
}

// What a writing returns: the outcome, and how many bytes of the lent room the listing takes.
#[derive(Clone, Copy)]
pub struct Writing {
    pub answer: u32,
    pub steps: u32,
    pub place: u32,
    pub cursor: u32,
    pub length: usize,
}

// What the program's work returns: the number in the report, and how many bytes of the lent room the report takes.
#[derive(Clone, Copy)]
pub struct Reporting {
    pub answer: u32,
    pub length: usize,
}

// An item scanned in a text: the position after it, and its number, if it has one.
#[derive(Clone, Copy)]
struct Got {
    at: usize,
    number: Option<u32>,
}

// A form scanned in a text: the position and the line after it, and its numbers, which stand in front.
#[derive(Clone, Copy)]
struct Scanned {
    at: usize,
    line: u32,
    numbers: [u32; 9],
}

// A form that is not there: the line at fault.
#[derive(Clone, Copy)]
struct Fault {
    line: u32,
}

// Lines that are plainly in form, from a position on: how many, and the position after them.
#[derive(Clone, Copy)]
struct Plain {
    lines: u32,
    at: usize,
}

// The instruction lines of a text: the position after them, and the first refused instruction, if there is one.
#[derive(Clone, Copy)]
struct Rest {
    at: usize,
    found: Result<(), runner::Refused>,
}

// The listing's forms, by the rule of `forms`: what stands before the instruction lines, format by format, and an instruction line.
const OLD_HEAD: [u8; 83] =
    *b"edition=\x01\nsrcb=\x01\noffset=\x04\ncursor=\x04\nstride0=\x04\nstride1=\x04\nstride2=\x04\nstride3=\x04\ncount=\x04\n";

const HEAD_2: [u8; 92] =
    *b"format=2\nedition=\x01\nsrcb=\x01\noffset=\x04\ncursor=\x04\nstride0=\x04\nstride1=\x04\nstride2=\x04\nstride3=\x04\ncount=\x05\n";

const LINE: [u8; 31] = *b"op=\x0Eimm=\x05 vb=\x02 vc=\x02 vd=\x02 mod=\x02\n";
