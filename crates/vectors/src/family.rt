// The families of samples.
ghost use Rattle.std.specs.Prelude.{◌<◌, length, IfSome};

use crate::sample::{Rest, Tally};
use crate::{corners, curves, formats, uvs};
use std::fmt;

#[derive(Clone, Copy, PartialEq, Eq)]
pub enum Family {
    Curves,
    Sheets,
    Books,
    Uvs,
    Corners,
    // Stays a family: a sample of it with no record is told by this name.
    Unknown,
}

// By the number that is a sample's first byte.
impl From<u8> for Family {
    fn from(number: u8) -> Family {
        match number {
            1 => Family::Curves,
            2 => Family::Sheets,
            3 => Family::Books,
            4 => Family::Uvs,
            5 => Family::Corners,
            _ => Family::Unknown,
        }
    }
}

impl fmt::Display for Family {
    fn fmt<W: fmt::Write>(&self, f: &mut fmt::Formatter<W>) -> fmt::Result {
        f.write_str(match *self {
            Family::Curves => "curves",
            Family::Sheets => "sheets",
            Family::Books => "books",
            Family::Uvs => "uvs",
            Family::Corners => "corners",
            Family::Unknown => "unknown",
        })
    }
}

impl Family {
    // The record of this family that the rest begins with, where it is whole.
    pub fn record(self, rest: &mut Rest, tally: &mut Tally) -> Option<()>
        ensures { IfSome result (λ _. length rest.new.bytes.now < length rest.old.bytes.now) }
    {
        match self {
            Family::Curves => curves::record(rest, tally),
            Family::Sheets => formats::record(formats::sheet_refusal, rest, tally),
            Family::Books => formats::record(formats::book_refusal, rest, tally),
            Family::Uvs => uvs::record(rest, tally),
            Family::Corners => corners::record(rest, tally),
            Family::Unknown => None,
        }
    }
}
