// Lane cases: one instruction in one lane.
use crate::form::{Kind, number, numbers};
use crate::lines::{NOTHING, checksum, print};
use crate::made::{IMAGE, make_image};
use host::replay_lane;
use std::io::{Read, Write};
use std::{array, io};

// One lane's words, out of an image.
fn lane_words(image: &[u32; IMAGE], lane: u32) -> [u32; 24] {
    let first = (lane % 32) as usize;
    array::from_fn(|slot| image[first + 32 * slot])
}

fn cell<R: Read>(input: &mut R) -> u16 {
    (number(input) % 65536) as u16
}

// Settings, the instruction, the image, its lane and the one that stands for row 0's, and its even and its odd cell.
pub(crate) fn lane_case<R: Read, W: Write>(input: &mut R, out: &mut W) -> io::Result<()> {
    let settings = numbers(input);
    let insn = numbers(input);
    let mut image = [0u32; IMAGE];
    make_image(input, &mut image);
    let lane = number(input);
    let mut own = lane_words(&image, lane);
    let head = lane_words(&image, number(input));
    let mut cells = [cell(input), cell(input)];
    let answer = replay_lane(&settings, lane, &insn, &mut own, &head, &mut cells);
    let sum = checksum(checksum(NOTHING, &own), &cells);
    print(out, Kind::Lane, &[answer], sum)
}
