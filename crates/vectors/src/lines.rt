// The lines that are printed, and the checksums in them.
use crate::form::Kind;
use std::io;
use std::io::Write;

// The checksum of nothing.
pub const NOTHING: u32 = 2166136261;

fn mixed(h: u32, w: u32) -> u32 {
    (h ^ w).wrapping_mul(16777619)
}

// The checksum of words, cells or bytes that come after others.
pub(crate) fn checksum<T: Copy + Into<u32>>(before: u32, numbers: &[T]) -> u32 {
    numbers.iter().fold(before, |h, &n| mixed(h, n.into()))
}

// A line: the case's kind, the numbers that were answered, and the checksum of what was lent.
pub(crate) fn print<W: Write>(
    out: &mut W,
    kind: Kind,
    numbers: &[u32],
    sum: u32,
) -> io::Result<()> {
    let kind = kind as u32;
    write!(out, "{kind} ")?;
    for n in numbers {
        write!(out, "{n} ")?;
    }
    writeln!(out, "{sum:08x}")
}
