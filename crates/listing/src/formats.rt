// The table of formats: what differs from one to the other.
ghost use Rattle.std.specs.Prelude.{◌≡◌, ◌≤◌, length};
ghost use Rattle.listing.specs.Listing as Listing;
ghost use Rattle.listing.specs.PrivatePlaces as Places;
ghost use Rattle.listing.specs.PrivateReader as Held;

use crate::{HEAD_2, OLD_HEAD};
use runner::checks::LIST_LIMIT;

// An old listing's format, which has no mark, and the one that is written, format=2.
#[derive(Clone, Copy, PartialEq, Eq)]
pub(crate) enum Format {
    Old,
    Two,
}

impl Format {
    // The format of a text.
    pub(crate) fn of(text: &[u8]) -> Format
        ensures { Listing.format_of text.now ≡ Held.row result }
    {
        if text.starts_with(b"format=2\n") {
            return Format::Two;
        }
        Format::Old
    }

    // The most instructions of a listing.
    pub(crate) fn limit(self) -> u32
        ensures { result ≡ (Held.row self).limit }
    {
        match self {
            Format::Two => LIST_LIMIT as u32,
            Format::Old => 1024,
        }
    }

    // The line at which its instruction lines begin.
    pub(crate) fn first_line(self) -> u32
        ensures { result ≡ Listing.first_line (Held.row self) }
    {
        match self {
            Format::Two => 11,
            Format::Old => 10,
        }
    }

    // The form of what stands before them.
    pub(crate) fn head(self) -> &'static [u8]
        ensures form { Places.form_of result.now ≡ Listing.head (Held.row self) }
        ensures short { length result.now ≤ 100 }
    {
        match self {
            Format::Two => &HEAD_2,
            Format::Old => &OLD_HEAD,
        }
    }
}
