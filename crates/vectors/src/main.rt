// Cases on standard input, in the form of tests/CASES.md: each is run by the proved code, and its answer printed as one line. Cases are made
// by the independent program alone.

#![tactic(auto)]

// Numbers from standard input.
mod form;
// Images, Dsts and lists.
mod made;
// The text that is written, and those that are read.
mod text;
// The lines and the checksums in them.
mod lines;
// A list over an image and a Dst.
mod run_case;
// One instruction in one lane.
mod lane_case;
// A list written as a listing.
mod writing_case;
// A listing read.
mod reading_case;
// A list stepped forward and back.
mod walk_case;

use form::{Kind, number};
use lane_case::lane_case;
use reading_case::reading_case;
use run_case::run_case;
use std::io;
use std::io::{Read, Write};
use text::{TEXT, Text};
use walk_case::walk_case;
use writing_case::writing_case;

// Cases to the end of the input. What was last written is kept for the readings after it.
fn run_cases<R: Read, W: Write>(input: &mut R, out: &mut W) -> io::Result<()> {
    let mut kept = Text {
        bytes: [0; TEXT],
        length: 0,
    };
    for _ in 0..u32::MAX {
        match Kind::from(number(input)) {
            Kind::End => return Ok(()),
            Kind::Run => run_case(input, out)?,
            Kind::Lane => lane_case(input, out)?,
            Kind::Writing => writing_case(input, out, &mut kept)?,
            Kind::Reading => reading_case(input, out, &kept)?,
            Kind::Walk => walk_case(input, out)?,
        }
    }
    Ok(())
}

fn main(rt: HostRuntime) -> io::Result<()> {
    run_cases(&mut rt.stdin(), &mut rt.stdout())
}
