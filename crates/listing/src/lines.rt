// Instruction lines as a whole: after its op's name everything in a line stands at a fixed place.
//
// A line is read so where that is plain: its bytes lie between those of its op's line with every digit 0 and with every digit 9. Where it is not, nothing is
// said, and the scan by items decides. The shapes are those that compile to few instructions: a table for each choice, and no branch that depends on the op.
ghost use Rattle.std.specs.Prelude.{◌≡◌, true, ◌++◌, ◌+◌, ◌<◌, ◌≤◌, length, get_or, drop, IfSome};
ghost use Rattle.listing.specs.Forms as Forms;
ghost use Rattle.listing.specs.Listing as Listing;
ghost use Rattle.listing.specs.PrivatePlaces as Places;
ghost use Rattle.listing.specs.PrivateLines as Lines;

use crate::forms::put;
use lane::Insn;
use runner::checks::accepts;

// The line of each op with every digit 0, by op from 0, which has none; a row has 48 bytes.
const LOWS: [u8; 816] = *b"\
    \x00\x00\x00\x00\x00\x00\x00\x00\x00\x00\x00\x00\x00\x00\x00\x00\x00\x00\x00\x00\x00\x00\x00\x00\x00\x00\x00\x00\x00\x00\x00\x00\x00\x00\x00\x00\x00\x00\x00\x00\x00\x00\x00\x00\x00\x00\x00\x00\
    op=LOAD imm=00000 vb=00 vc=00 vd=00 mod=00\n\x00\x00\x00\x00\x00\
    op=LOADI imm=00000 vb=00 vc=00 vd=00 mod=00\n\x00\x00\x00\x00\
    op=LUT imm=00000 vb=00 vc=00 vd=00 mod=00\n\x00\x00\x00\x00\x00\x00\
    op=SWAP imm=00000 vb=00 vc=00 vd=00 mod=00\n\x00\x00\x00\x00\x00\
    op=CONFIG imm=00000 vb=00 vc=00 vd=00 mod=00\n\x00\x00\x00\
    op=IADD imm=00000 vb=00 vc=00 vd=00 mod=00\n\x00\x00\x00\x00\x00\
    op=ABS imm=00000 vb=00 vc=00 vd=00 mod=00\n\x00\x00\x00\x00\x00\x00\
    op=AND imm=00000 vb=00 vc=00 vd=00 mod=00\n\x00\x00\x00\x00\x00\x00\
    op=OR imm=00000 vb=00 vc=00 vd=00 mod=00\n\x00\x00\x00\x00\x00\x00\x00\
    op=XOR imm=00000 vb=00 vc=00 vd=00 mod=00\n\x00\x00\x00\x00\x00\x00\
    op=NOT imm=00000 vb=00 vc=00 vd=00 mod=00\n\x00\x00\x00\x00\x00\x00\
    op=LZ imm=00000 vb=00 vc=00 vd=00 mod=00\n\x00\x00\x00\x00\x00\x00\x00\
    op=EXEXP imm=00000 vb=00 vc=00 vd=00 mod=00\n\x00\x00\x00\x00\
    op=EXMAN imm=00000 vb=00 vc=00 vd=00 mod=00\n\x00\x00\x00\x00\
    op=NOP imm=00000 vb=00 vc=00 vd=00 mod=00\n\x00\x00\x00\x00\x00\x00\
    op=STORE imm=00000 vb=00 vc=00 vd=00 mod=00\n\x00\x00\x00\x00";

// And with every digit 9.
const HIGHS: [u8; 816] = *b"\
    \x7F\x7F\x7F\x7F\x7F\x7F\x7F\x7F\x7F\x7F\x7F\x7F\x7F\x7F\x7F\x7F\x7F\x7F\x7F\x7F\x7F\x7F\x7F\x7F\x7F\x7F\x7F\x7F\x7F\x7F\x7F\x7F\x7F\x7F\x7F\x7F\x7F\x7F\x7F\x7F\x7F\x7F\x7F\x7F\x7F\x7F\x7F\x7F\
    op=LOAD imm=99999 vb=99 vc=99 vd=99 mod=99\n\x7F\x7F\x7F\x7F\x7F\
    op=LOADI imm=99999 vb=99 vc=99 vd=99 mod=99\n\x7F\x7F\x7F\x7F\
    op=LUT imm=99999 vb=99 vc=99 vd=99 mod=99\n\x7F\x7F\x7F\x7F\x7F\x7F\
    op=SWAP imm=99999 vb=99 vc=99 vd=99 mod=99\n\x7F\x7F\x7F\x7F\x7F\
    op=CONFIG imm=99999 vb=99 vc=99 vd=99 mod=99\n\x7F\x7F\x7F\
    op=IADD imm=99999 vb=99 vc=99 vd=99 mod=99\n\x7F\x7F\x7F\x7F\x7F\
    op=ABS imm=99999 vb=99 vc=99 vd=99 mod=99\n\x7F\x7F\x7F\x7F\x7F\x7F\
    op=AND imm=99999 vb=99 vc=99 vd=99 mod=99\n\x7F\x7F\x7F\x7F\x7F\x7F\
    op=OR imm=99999 vb=99 vc=99 vd=99 mod=99\n\x7F\x7F\x7F\x7F\x7F\x7F\x7F\
    op=XOR imm=99999 vb=99 vc=99 vd=99 mod=99\n\x7F\x7F\x7F\x7F\x7F\x7F\
    op=NOT imm=99999 vb=99 vc=99 vd=99 mod=99\n\x7F\x7F\x7F\x7F\x7F\x7F\
    op=LZ imm=99999 vb=99 vc=99 vd=99 mod=99\n\x7F\x7F\x7F\x7F\x7F\x7F\x7F\
    op=EXEXP imm=99999 vb=99 vc=99 vd=99 mod=99\n\x7F\x7F\x7F\x7F\
    op=EXMAN imm=99999 vb=99 vc=99 vd=99 mod=99\n\x7F\x7F\x7F\x7F\
    op=NOP imm=99999 vb=99 vc=99 vd=99 mod=99\n\x7F\x7F\x7F\x7F\x7F\x7F\
    op=STORE imm=99999 vb=99 vc=99 vd=99 mod=99\n\x7F\x7F\x7F\x7F";

// Both tables. They are lent, since a constant with a ghost field that held them would be built on the stack, byte by byte, wherever it is lent.
#[derive(Clone, Copy)]
pub(crate) struct LineRows<'a> {
    lows: &'a [u8; 816],
    highs: &'a [u8; 816],
    ghost rows: { Lines.Rows lows.now highs.now },
}

impl<'a> LineRows<'a> {
    pub(crate) fn new() -> LineRows<'a> {
        LineRows {
            lows: &LOWS,
            highs: &HIGHS,
        }
    }
}

// An op, and how many bytes its line has.
#[derive(Clone, Copy)]
struct Guessed {
    op: u32,
    length: usize,
    ghost some: { 0 < op },
    ghost known: { op ≤ 16 },
    ghost long: { length ≡ Lines.line_length op },
}

// The op whose line it is, if it is one: a key tells all sixteen names apart. Every number has its row, so that it is a table once compiled.
#[tactic(auto, unfolding(crate::specs::Forms::name_of, crate::specs::Forms::names, crate::specs::Forms::bytes, crate::specs::Forms::spell))]
fn guess(key: u32) -> Guessed {
    let k = key % 32;
    match k {
        0 => Guessed { op: 1, length: 43 },
        1 => Guessed { op: 14, length: 44 },
        2 => Guessed { op: 2, length: 44 },
        3 => Guessed { op: 1, length: 43 },
        4 => Guessed { op: 8, length: 42 },
        5 => Guessed { op: 6, length: 43 },
        6 => Guessed { op: 1, length: 43 },
        7 => Guessed { op: 7, length: 42 },
        8 => Guessed { op: 1, length: 43 },
        9 => Guessed { op: 1, length: 43 },
        10 => Guessed { op: 1, length: 43 },
        11 => Guessed { op: 1, length: 43 },
        12 => Guessed { op: 9, length: 41 },
        13 => Guessed { op: 16, length: 44 },
        14 => Guessed { op: 1, length: 43 },
        15 => Guessed { op: 5, length: 45 },
        16 => Guessed { op: 1, length: 43 },
        17 => Guessed { op: 15, length: 42 },
        18 => Guessed { op: 1, length: 43 },
        19 => Guessed { op: 10, length: 42 },
        20 => Guessed { op: 12, length: 41 },
        21 => Guessed { op: 11, length: 42 },
        22 => Guessed { op: 1, length: 43 },
        23 => Guessed { op: 1, length: 43 },
        24 => Guessed { op: 4, length: 43 },
        25 => Guessed { op: 1, length: 43 },
        26 => Guessed { op: 1, length: 43 },
        27 => Guessed { op: 3, length: 42 },
        28 => Guessed { op: 1, length: 43 },
        29 => Guessed { op: 13, length: 44 },
        30 => Guessed { op: 1, length: 43 },
        31 => Guessed { op: 1, length: 43 },
        _ => Guessed { op: 1, length: 43 },
    }
}

// The key of a line: from the second and third byte after its `op=` and the fifth.
fn guess_at(text: &[u8], at: usize) -> Guessed
    requires { at + 48 ≤ length text.now }
{
    guess(text[at + 4] as u32 + text[at + 5] as u32 + 2 * (text[at + 7] as u32))
}

// Whether 48 bytes of a text lie between those of the tables.
fn stands(table: LineRows, text: &[u8], at: usize, from: usize) -> bool
    requires { (at + 48 ≤ length text.now) × (from + 48 ≤ 816) }
    ensures { result ≡ true → Lines.Between table.entry.lows.now table.entry.highs.now text.now at from }
{
    let mut good = true;
    for j in 0..48 {
        let b = text[at + j];
        good = good & (table.lows[from + j] <= b) & (b <= table.highs[from + j]);
    }
    good
}

// Two bytes as two digits. One function with `five` would be no plainer: what is added and the power of two go with the number of digits.
fn two(text: &[u8], at: usize) -> u32
    requires { at + 2 ≤ length text.now }
    ensures { result ≡ Lines.two_of text.now at }
{
    (text[at] as u32 * 10 + text[at + 1] as u32 + 112) % 128
}

// Five bytes as five digits.
fn five(text: &[u8], at: usize) -> u32
    requires { at + 5 ≤ length text.now }
    ensures { result ≡ Lines.five_of text.now at }
{
    let three = (text[at] as u32 * 10 + text[at + 1] as u32) * 10 + text[at + 2] as u32;
    ((three * 10 + text[at + 3] as u32) * 10 + text[at + 4] as u32 + 122032) % 131072
}

// The instruction of a line that ends at a position.
#[tactic(auto, unfolding(crate::specs::PrivateLines::insn_before))]
fn fields(text: &[u8], op: u32, end: usize) -> Insn
    requires { (31 ≤ end) × (end ≤ length text.now) }
    ensures { result ≡ Lines.insn_before text.now op end }
{
    Insn {
        op,
        imm: five(text, end - 31),
        vb: two(text, end - 22),
        vc: two(text, end - 16),
        vd: two(text, end - 10),
        md: two(text, end - 3),
    }
}

// Where a line ends that is plainly in form and whose instruction is accepted.
pub(crate) fn plain_end(table: LineRows, text: &[u8], at: usize) -> Option<usize>
    requires { at ≤ length text.now }
    ensures { IfSome result (λ end. Lines.PlainAt text.now at end) }
{
    if text.len() - at < 48 {
        return None;
    }
    let g = guess_at(text, at);
    let end = at + g.length;
    let good = stands(table, text, at, 48 * g.op as usize) & accepts(fields(text, g.op, end));
    if good { Some(end) } else { None }
}

// Where a line ends that is plainly in form, and its instruction. It has a body of its own, since what two loops call is not inlined: tried with one
// for both, reading takes 1.51 of its time.
pub(crate) fn plain_line(table: LineRows, text: &[u8], at: usize) -> Option<(usize, Insn)>
    requires { at ≤ length text.now }
    ensures { IfSome result (λ l. Lines.LineAt text.now at l.0 l.1) }
{
    if text.len() - at < 48 {
        return None;
    }
    let g = guess_at(text, at);
    let end = at + g.length;
    let insn = fields(text, g.op, end);
    if stands(table, text, at, 48 * g.op as usize) {
        Some((end, insn))
    } else {
        None
    }
}

// How many bytes the line of an op has. Every number has its row here too; op 16 has that of 0, which is no op.
#[tactic(auto, unfolding(crate::specs::Forms::name_of, crate::specs::Forms::names, crate::specs::Forms::bytes, crate::specs::Forms::spell))]
pub(crate) fn line_length(op: u32) -> usize
    requires { (0 < op) × (op ≤ 16) }
    ensures { result ≡ Lines.line_length op }
{
    let k = op % 16;
    match k {
        1 => 43,
        2 => 44,
        3 => 42,
        4 => 43,
        5 => 45,
        6 => 43,
        7 => 42,
        8 => 42,
        9 => 41,
        10 => 42,
        11 => 42,
        12 => 41,
        13 => 44,
        14 => 44,
        15 => 42,
        _ => 44,
    }
}

// The two lowest digits of a number. Tried with `put_number` in place of this and of `put_five`: writing then takes 4.6 times as long.
fn put_two(out: &mut [u8], at: usize, n: u32) -> usize
    requires { at + 2 ≤ length out.old }
    ensures { Places.Grown at result out.old out.new (Forms.digits 10 2 n) }
{
    let a = n / 10;
    out[at] = (a % 10 + 48) as u8;
    out[at + 1] = (n % 10 + 48) as u8;
    at + 2
}

// The five lowest digits.
fn put_five(out: &mut [u8], at: usize, n: u32) -> usize
    requires { at + 5 ≤ length out.old }
    ensures { Places.Grown at result out.old out.new (Forms.digits 10 5 n) }
{
    let a = n / 10;
    let b = a / 10;
    let c = b / 10;
    let d = c / 10;
    out[at] = (d % 10 + 48) as u8;
    out[at + 1] = (c % 10 + 48) as u8;
    out[at + 2] = (b % 10 + 48) as u8;
    out[at + 3] = (a % 10 + 48) as u8;
    out[at + 4] = (n % 10 + 48) as u8;
    at + 5
}

// A field of two digits: its name, and the digits.
fn put_field<const N: usize>(out: &mut [u8], at: usize, name: &[u8; N], n: u32) -> usize
    requires { at + N + 2 ≤ length out.old }
    ensures { Places.Grown at result out.old out.new (name.now ++ Forms.digits 10 2 n) }
{
    let a = put(out, at, name);
    put_two(out, a, n)
}

// The fields after imm of an instruction.
fn put_fields(insn: &[u32; 6], out: &mut [u8], at: usize) -> usize
    requires { at + 26 ≤ length out.old }
    ensures { Places.Grown at result out.old out.new (Lines.fields_of insn.now) }
{
    let c = put_field(out, at, b" vb=", insn[2]);
    let d = put_field(out, c, b" vc=", insn[3]);
    let e = put_field(out, d, b" vd=", insn[4]);
    let f = put_field(out, e, b" mod=", insn[5]);
    put(out, f, b"\n")
}

// The line of an instruction.
pub(crate) fn put_line(table: LineRows, insn: &[u32; 6], out: &mut [u8], at: usize) -> usize
    requires { (0 < get_or insn.now 0 0) × ((get_or insn.now 0 0 ≤ 16) × (at + Lines.line_length (get_or insn.now 0 0) ≤ length out.old)) }
    ensures { Places.Grown at result out.old out.new (Forms.render Listing.line insn.now) }
{
    let op = insn[0];
    let row = 48 * op as usize;
    let lows = table.lows;
    let opening = &lows[row..row + (line_length(op) - 31)];
    let a = put(out, at, opening);
    let b = put_five(out, a, insn[1]);
    put_fields(insn, out, b)
}
