// One scan and one render over all forms.
//
// A form is a byte string: a byte below 10 stands for that many decimal digits, 14 for an op name, 16 to 24 for up to eight hexadecimal
// digits, any other for itself.
//
// Room and the place in it go as two parameters: the place moves with each part, so that a struct of both would be taken apart for each.
ghost use Rattle.std.specs.Prelude.{◌≡◌, ◌+◌, ◌^◌, ◌<◌, ◌≤◌, length, get_or, drop};
ghost use Rattle.std.specs.Option.{unwrap_or};
ghost use Rattle.listing.specs.Forms as Forms;
ghost use Rattle.listing.specs.PrivatePlaces as Places;

use crate::{Fault, Got, Scanned};
use lane::op;

// The op names, each with the space that ends it; 0 and numbers past 16 have none.
#[tactic(auto, unfolding(crate::specs::Forms::name_of, crate::specs::Forms::names, crate::specs::Forms::bytes, crate::specs::Forms::spell))]
fn name_of(op: u32) -> &'static [u8]
    ensures { result.now ≡ Forms.name_of op }
{
    match op {
        op::LOAD => b"LOAD ",
        op::LOADI => b"LOADI ",
        op::LUT => b"LUT ",
        op::SWAP => b"SWAP ",
        op::CONFIG => b"CONFIG ",
        op::IADD => b"IADD ",
        op::ABS => b"ABS ",
        op::AND => b"AND ",
        op::OR => b"OR ",
        op::XOR => b"XOR ",
        op::NOT => b"NOT ",
        op::LZ => b"LZ ",
        op::EXEXP => b"EXEXP ",
        op::EXMAN => b"EXMAN ",
        op::NOP => b"NOP ",
        op::STORE => b"STORE ",
        _ => b"",
    }
}

// A word of a list, 0 past its end.
pub(crate) fn word_at(list: &[u32], at: usize) -> u32
    ensures { result ≡ get_or list.now at 0 }
{
    list.get(at).copied().unwrap_or(0)
}

// The digit of a byte. By hand, since `to_digit` takes lower-case letters too.
#[tactic(auto, unfolding(crate::specs::Forms::digit, lane::specs::Words::pick))]
fn digit(c: u8) -> Option<u32>
    ensures { unwrap_or result 36 ≡ Forms.digit c }
{
    match c {
        b'0'..=b'9' => Some(c as u32 - 48),
        b'A'..=b'Z' => Some(c as u32 - 55),
        _ => None,
    }
}

// The byte of a digit. By hand, since `from_digit` gives lower-case letters.
#[tactic(auto, unfolding(crate::specs::Forms::glyph, lane::specs::Words::pick))]
fn glyph(d: u32) -> u8
    requires { d < 36 }
    ensures { result ≡ Forms.glyph d }
{
    if d < 10 {
        (d + 48) as u8
    } else {
        (d + 55) as u8
    }
}

// `w` digits of a base, at a text's front.
fn number(text: &[u8], base: u32, w: usize) -> Option<Got>
    requires { (base ≤ 36) × (w ≤ 10) × (base ^ w ≤ 2 ^ 32) }
    ensures { Places.Gets (Forms.scan_number base w text.now) text.now result }
{
    let mut value: u32 = 0;
    for &c in text.get(..w)? {
        let d = digit(c)?;
        if base <= d {
            return None;
        }
        value = value * base + d;
    }
    Some(Got {
        at: w,
        number: Some(value),
    })
}

// An op name, at a text's front.
fn op_name(text: &[u8]) -> Option<Got>
    ensures { Places.Gets (Forms.scan_name text.now) text.now result }
{
    for op in 1..17 {
        let name = name_of(op);
        if text.starts_with(name) {
            return Some(Got {
                at: name.len(),
                number: Some(op),
            });
        }
    }
    None
}

// A byte that must stand at a text's front.
fn byte(text: &[u8], x: u8) -> Option<Got>
    ensures { Places.Gets (Forms.scan_byte x text.now) text.now result }
{
    if *text.get(0)? == x {
        return Some(Got {
            at: 1,
            number: None,
        });
    }
    None
}

// An item of a form, at a text's front.
#[tactic(auto, unfolding(crate::specs::Forms::scan_item, crate::specs::PrivatePlaces::item_of, lane::specs::Words::pick))]
pub(crate) fn item(text: &[u8], x: u8) -> Option<Got>
    ensures { Places.Gets (Forms.scan_item (Places.item_of x) text.now) text.now result }
{
    match x {
        0..=9 => number(text, 10, x as usize),
        14 => op_name(text),
        16..=24 => number(text, 16, x as usize - 16),
        _ => byte(text, x),
    }
}

// A form, from a position and the line `first` on. A byte 10 of it ends a line.
pub(crate) fn scan(text: &[u8], from: usize, first: u32, form: &[u8]) -> Result<Scanned, Fault>
    requires { (from ≤ length text.now) × (first < 2 ^ 31) × (Places.numbers (Places.form_of form.now) ≤ 9) × (length form.now ≤ 100) }
    ensures { Places.Finds (Places.form_of form.now) text.now from first result }
{
    let mut numbers: [u32; 9] = [0; 9];
    let mut n: usize = 0;
    let mut at = from;
    let mut line = first;
    for &x in form {
        let Some(got) = item(&text[at..], x) else {
            return Err(Fault { line });
        };
        if let Some(value) = got.number {
            numbers[n] = value;
            n += 1;
        }
        at += got.at;
        line += (x == 10) as u32;
    }
    Ok(Scanned { at, line, numbers })
}

// How many numbers an item takes.
#[tactic(auto, unfolding(crate::specs::Forms::takes, crate::specs::PrivatePlaces::item_of, lane::specs::Words::pick))]
fn count_of(x: u8) -> usize
    ensures { result ≡ Forms.takes (Places.item_of x) }
{
    match x {
        0..=9 | 14 | 16..=24 => 1,
        _ => 0,
    }
}

// Some bytes or words, into lent room from a position on; where they end.
pub(crate) fn put<T: Copy>(out: &mut [T], at: usize, xs: &[T]) -> usize
    requires { at + length xs.now ≤ length out.old }
    ensures { Places.Grown at result out.old out.new xs.now }
{
    let end = at + xs.len();
    out[at..end].copy_from_slice(xs);
    end
}

// The `w` lowest digits of `n`, the highest first. By hand, since `{:0w$}` prints every digit of a number that has more.
pub(crate) fn put_number(out: &mut [u8], at: usize, base: u32, w: usize, n: u32) -> usize
    requires { (at + w ≤ length out.old) × (0 < base) × (base ≤ 36) }
    ensures { Places.Grown at result out.old out.new (Forms.digits base w n) }
{
    if w == 0 {
        return at;
    }
    let last = put_number(out, at, base, w - 1, n / base);
    out[last] = glyph(n % base);
    last + 1
}

// An item of a form, with its number.
#[tactic(auto, unfolding(crate::specs::Forms::render_item, crate::specs::PrivatePlaces::item_of, lane::specs::Words::pick))]
fn put_item(out: &mut [u8], at: usize, x: u8, value: u32) -> usize
    requires { at + length (Forms.render_item (Places.item_of x) value) ≤ length out.old }
    ensures { Places.Grown at result out.old out.new (Forms.render_item (Places.item_of x) value) }
{
    match x {
        0..=9 => put_number(out, at, 10, x as usize, value),
        14 => put(out, at, name_of(value)),
        16..=24 => put_number(out, at, 16, x as usize - 16, value),
        _ => put(out, at, &[x]),
    }
}

// A form with the numbers of `values` from `from` on.
pub(crate) fn render(
    form: &[u8],
    values: &[u32],
    from: usize,
    out: &mut [u8],
    place: usize,
) -> usize
    requires { (from ≤ length values.now) × (place + length (Forms.render (Places.form_of form.now) (drop from values.now)) ≤ length out.old) }
    ensures { Places.Renders (Forms.render (Places.form_of form.now) (drop from values.now)) place (Places.widest (Places.form_of form.now)) out.old out.new result }
{
    let mut n = from;
    let mut at = place;
    for &x in form {
        at = put_item(out, at, x, word_at(values, n));
        n += count_of(x);
    }
    at
}
