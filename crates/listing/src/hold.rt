// One reader that keeps hold of the lent text, its position in it and its line number: it reads a form at a time and stands past it then. The work is `scan`'s.
ghost use Rattle.std.specs.Prelude.{◌≡◌, ◌^◌, ◌<◌, ◌≤◌, length};
ghost use Rattle.listing.specs.PrivatePlaces as Places;
ghost use Rattle.listing.specs.PrivateReader as Held;
ghost use Rattle.listing.specs.Listing as Listing;

use crate::forms::scan;
use crate::{Fault, LINE};

#[derive(Drop)]
pub(crate) struct Reader<'a> {
    text: &'a [u8],
    pub(crate) at: usize,
    line: u32,
}

impl<'a> Reader<'a> {
    // A reader that stands at a position and a line.
    pub(crate) fn placed(text: &'a [u8], at: usize, line: u32) -> Reader<'a>
        ensures { (result.text ≡ text.entry) × ((result.at ≡ at) × (result.line ≡ line)) }
    {
        Reader { text, at, line }
    }

    // The numbers of the form that the reader stands at.
    pub(crate) fn next(&mut self, form: &[u8]) -> Result<[u32; 9], Fault>
        requires { (self.old.at ≤ length self.old.text.now) × (self.old.line < 2 ^ 31) × (Places.numbers (Places.form_of form.now) ≤ 9) × (length form.now ≤ 100) }
        ensures held { self.new.text ≡ self.old.text }
        ensures found { Held.Advances (Places.form_of form.now) self.old self.new result }
    {
        let found = scan(self.text, self.at, self.line, form)?;
        self.at = found.at;
        self.line = found.line;
        Ok(found.numbers)
    }

    // The numbers of the instruction line that the reader stands at: that `LINE` is its form is proved here, for both loops over the lines.
    pub(crate) fn next_line(&mut self) -> Result<[u32; 9], Fault>
        requires { (self.old.at ≤ length self.old.text.now) × (self.old.line < 2 ^ 31) }
        ensures held { self.new.text ≡ self.old.text }
        ensures found { Held.Advances Listing.line self.old self.new result }
    {
        self.next(&LINE)
    }
}
