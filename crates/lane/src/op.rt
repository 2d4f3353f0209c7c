// The operations by their numbers. An instruction's op may be any word, of which refusal 7 takes those that are none of these, and `value_word`, `meets_dst` and
// `next_cursor` promise an answer for every word: so these are constants and not an enum.
pub const LOAD: u32 = 1;

pub const LOADI: u32 = 2;

pub const LUT: u32 = 3;

pub const SWAP: u32 = 4;

pub const CONFIG: u32 = 5;

pub const IADD: u32 = 6;

pub const ABS: u32 = 7;

pub const AND: u32 = 8;

pub const OR: u32 = 9;

pub const XOR: u32 = 10;

pub const NOT: u32 = 11;

pub const LZ: u32 = 12;

pub const EXEXP: u32 = 13;

pub const EXMAN: u32 = 14;

pub const NOP: u32 = 15;

pub const STORE: u32 = 16;
