// Reading cases: a text, out of the one that is kept, read as a listing.
use crate::form::{Kind, number, place};
use crate::lines::{NOTHING, checksum, print};
use crate::made::LIST;
use crate::text::{TEXT, Text};
use host::replay_read;
use std::io;
use std::io::{Read, Write};

// A text: how many pieces, and of each how many bytes of the kept text are copied, where the next copy begins, and what comes anew; then the rest of
// the kept text.
fn make_text<R: Read>(input: &mut R, kept: &Text, text: &mut Text) {
    let mut from: usize = 0;
    for _ in 0..number(input) {
        let count = place(input, TEXT).min(TEXT - from);
        text.add(&kept.bytes[from..from + count]);
        from = place(input, TEXT);
        text.add_read(input);
    }
    text.add(&kept.bytes[from.min(kept.length)..kept.length]);
}

// The text, its length, and the room's, in words. Past the text are LFs.
pub(crate) fn reading_case<R: Read, W: Write>(
    input: &mut R,
    out: &mut W,
    kept: &Text,
) -> io::Result<()> {
    let mut text = Text {
        bytes: [10; TEXT],
        length: 0,
    };
    make_text(input, kept, &mut text);
    let text = &text.bytes[..place(input, TEXT)];
    let mut list = [2779096485u32; LIST];
    let list = &mut list[..place(input, LIST)];
    let mut settings = [0u32; 8];
    let mut outcome = [0u32; 5];
    replay_read(text, list, &mut settings, &mut outcome);
    let sum = checksum(checksum(NOTHING, &settings), list);
    print(out, Kind::Reading, &outcome, sum)
}
