// A room for a text.
ghost use Rattle.std.specs.Prelude.{◌≤◌};
ghost use Rattle.vectors.specs.declared.text.TheConstants.{TEXT};

use crate::form::{number, place};
use std::io::Read;

// More bytes than any text has.
pub const TEXT: usize = 1048700;

// A room, and how many of its bytes are the text.
#[derive(Drop)]
pub(crate) struct Text {
    pub bytes: [u8; TEXT],
    pub length: usize,
    ghost within: { length ≤ TEXT },
}

impl Text {
    // Bytes put after the text, as many as there is room for.
    pub(crate) fn add(&mut self, bytes: &[u8]) {
        let end = TEXT.min(self.length + bytes.len());
        let room = &mut self.bytes[self.length..end];
        room.copy_from_slice(&bytes[..room.len()]);
        self.length = end;
    }

    // Bytes from standard input put after the text: how many, and these.
    pub(crate) fn add_read<R: Read>(&mut self, input: &mut R) {
        let end = TEXT.min(self.length + place(input, TEXT));
        for byte in self.bytes[self.length..end].iter_mut() {
            *byte = (number(input) % 256) as u8;
        }
        self.length = end;
    }
}
