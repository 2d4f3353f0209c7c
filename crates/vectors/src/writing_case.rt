// Writing cases: a list written as a listing, into the room that is kept.
use crate::form::{Kind, numbers, place};
use crate::lines::{NOTHING, checksum, print};
use crate::made::{LIST, make_list};
use crate::text::{TEXT, Text};
use host::replay_write;
use std::io;
use std::io::{Read, Write};

// Settings, the list, its length, and the room's.
pub(crate) fn writing_case<R: Read, W: Write>(
    input: &mut R,
    out: &mut W,
    kept: &mut Text,
) -> io::Result<()> {
    let settings = numbers(input);
    let mut list = [0u32; LIST];
    make_list(input, &mut list);
    let list = &list[..place(input, LIST)];
    // The room is lent whole and then in part: a part of a field's array is not covered by the borrow checker in one step.
    let room = &mut kept.bytes[..];
    let room = &mut room[..place(input, TEXT)];
    let mut outcome = [0u32; 5];
    replay_write(&settings, list, room, &mut outcome);
    let sum = checksum(NOTHING, room);
    kept.length = TEXT.min(outcome[4] as usize);
    print(out, Kind::Writing, &outcome, sum)
}
