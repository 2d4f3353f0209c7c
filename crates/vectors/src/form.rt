// Numbers from standard input. Past its end they are 0, which ends the cases.
ghost use Rattle.std.specs.Prelude.{◌≤◌};

use std::array;
use std::io::Read;

// The kinds of cases, by their numbers.
#[derive(Clone, Copy)]
pub(crate) enum Kind {
    End = 0,
    Run = 1,
    Lane = 2,
    Writing = 3,
    Reading = 4,
    Walk = 5,
}

// What no case has for its kind counts as a reading's.
impl From<u32> for Kind {
    fn from(number: u32) -> Kind {
        match number {
            0 => Kind::End,
            1 => Kind::Run,
            2 => Kind::Lane,
            3 => Kind::Writing,
            5 => Kind::Walk,
            _ => Kind::Reading,
        }
    }
}

// A read that fails gives no byte either.
fn next_byte<R: Read>(input: &mut R) -> u8 {
    let mut one = [0u8; 1];
    match input.read(&mut one) {
        Ok(1) => one[0],
        _ => 0,
    }
}

// A number with seven bits more. What would be above its 32 bits is dropped.
fn with_digit(value: u32, byte: u8) -> u32 {
    value % 33554432 * 128 + u32::from(byte % 128)
}

// A number has seven bits a byte, the highest first; a byte of 128 or more is not its last.
pub(crate) fn number<R: Read>(input: &mut R) -> u32 {
    let mut value: u32 = 0;
    for _ in 0..5 {
        let byte = next_byte(input);
        value = with_digit(value, byte);
        if byte < 128 {
            return value;
        }
    }
    value
}

// So many numbers: settings, or an instruction's words.
pub(crate) fn numbers<R: Read, const N: usize>(input: &mut R) -> [u32; N] {
    array::from_fn(|_| number(input))
}

// A number that is a length or a place: never more than there is.
pub(crate) fn place<R: Read>(input: &mut R, most: usize) -> usize
    ensures { result ≤ most }
{
    most.min(number(input) as usize)
}
