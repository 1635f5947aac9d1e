// Whole numbers of a command line, and the frames from one to another.
ghost use Rattle.std.specs.Prelude.{◌<◌, IfSome};

use crate::arguments::argument;
use crate::errors::{begin_error, end_error, missing, word_error};
use cli_page::Out;
use std::ops::Range;

// Word k; where there is none, that is told.
pub fn needed<'a>(out: &mut Out, line: &'a [u8], k: usize, what: &str) -> Option<&'a [u8]> {
    let word = argument(line, k);
    if word.is_none() {
        missing(out, what);
    }
    word
}

fn no_whole(out: &mut Out, what: &str, text: &[u8]) {
    begin_error(out);
    out.word("", "argument", what);
    out.bytes(": ", "word", text);
    out.word(": ", "error", "is no whole number below 16,777,216");
    end_error(out);
}

// The whole number at word k; where there is none, that is told.
pub fn whole_argument(out: &mut Out, line: &[u8], k: usize, what: &str) -> Option<u32>
    ensures { IfSome result (λ n. n < 16777216) }
{
    let text = needed(out, line, k, what)?;
    let n = cli_words::whole(text);
    if n.is_none() {
        no_whole(out, what, text);
    }
    n
}

// The frames that words 4 and 5 ask for, both ends among them, or all of the animation's; where what was asked for is wrong, that is told.
pub fn span_of(out: &mut Out, line: &[u8], count: u32) -> Option<Range<u32>> {
    if argument(line, 4).is_none() {
        return Some(0..count);
    }
    let from = whole_argument(out, line, 4, "FROM")?;
    let to = whole_argument(out, line, 5, "TO")?;
    if to < from {
        word_error(out, b"FROM", "is above TO");
        return None;
    }
    Some(from..to + 1)
}
