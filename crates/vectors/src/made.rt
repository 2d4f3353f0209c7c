// Images and Dsts by a seed, and lists.
use crate::form::{number, numbers, place};
use std::io::Read;

// More words than any image has, more cells than any Dst, and more words than any list.
pub const IMAGE: usize = 1024;

pub const DST: usize = 16400;

pub const LIST: usize = 98400;

// The generator's state.
#[derive(Drop)]
pub(crate) struct Generator(u32);

impl Generator {
    // The next word.
    fn draw(&mut self) -> u32 {
        let a = self.0 ^ (self.0 << 13);
        let b = a ^ (a >> 17);
        self.0 = b ^ (b << 5);
        self.0
    }

    // A word of one of eight shapes: a zero, a number too small for its exponent, an infinity or NaN, a small whole number; or any.
    fn word(&mut self) -> u32 {
        let shape = self.draw() % 8;
        let word = self.draw();
        match shape {
            0 => word & 0x80000000,
            1 => word & 0x807FFFFF,
            2 => word | 0x7F800000,
            3 => word % 16,
            _ => word,
        }
    }

    // A cell of one of eight shapes: a zero, all ones but for the sign, or any.
    fn cell(&mut self) -> u16 {
        let word = self.draw();
        let d = (word % 65536) as u16;
        match word / 65536 % 8 {
            0 => d & 0x8000,
            1 => d | 0x7FFF,
            _ => d,
        }
    }
}

// A word that may stand in its slot.
fn slot_word(slot: usize, word: u32) -> u32 {
    match slot {
        12 => word % 262144,
        13 | 14 => word % 2,
        23 => word % 4096,
        _ => word,
    }
}

// A change: so many words from a place on become one.
pub(crate) fn put_change<R: Read>(input: &mut R, words: &mut [u32]) {
    let most = words.len();
    let first = place(input, most);
    let count = place(input, most).min(most - first);
    words[first..first + count].fill(number(input));
}

// An image: its seed, how many changes, and these. The generator after the seed's words.
pub(crate) fn make_image<R: Read>(input: &mut R, image: &mut [u32; IMAGE]) -> Generator {
    let mut generator = Generator(number(input));
    for (at, word) in image.iter_mut().enumerate() {
        *word = slot_word(at / 32, generator.word());
    }
    for _ in 0..number(input) {
        put_change(input, image);
    }
    generator
}

// A list: how many words are given, and these, which repeat; without any it is as it was.
pub(crate) fn make_list<R: Read>(input: &mut R, list: &mut [u32; LIST]) {
    let given = place(input, LIST);
    for word in list[..given].iter_mut() {
        *word = number(input);
    }
    // word by word: few are given, and to copy them as slices is a call for each time that they repeat
    for i in given..LIST {
        list[i] = list[i - given];
    }
}

// What a host lends a run or a walk.
#[derive(Drop)]
pub(crate) struct Host {
    pub settings: [u32; 8],
    pub list: [u32; LIST],
    pub image: [u32; IMAGE],
    pub dst: [u16; DST],
}

impl Host {
    // To be filled where it lies: a filled one that was returned would be copied, all 430,528 bytes.
    pub(crate) fn zeros() -> Host {
        Host {
            settings: [0; 8],
            list: [0; LIST],
            image: [0; IMAGE],
            dst: [0; DST],
        }
    }

    // Settings, the list, and the image, whose generator goes on with the Dst's cells.
    pub(crate) fn fill<R: Read>(&mut self, input: &mut R) {
        self.settings = numbers(input);
        make_list(input, &mut self.list);
        let mut generator = make_image(input, &mut self.image);
        for cell in self.dst.iter_mut() {
            *cell = generator.cell();
        }
    }

    // One of the eight settings is changed.
    pub(crate) fn put_setting<R: Read>(&mut self, input: &mut R) {
        let which = (number(input) % 8) as usize;
        self.settings[which] = number(input);
    }
}
