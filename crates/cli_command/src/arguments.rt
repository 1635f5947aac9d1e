// The words of a command line, each ended by a zero byte, which no argument has. Options may stand anywhere among them.
ghost use Rattle.std.specs.Prelude.{◌≤◌, length, IfSome};
ghost use Rattle.std.specs.Iterator.{at_most};
ghost use Rattle.io.specs.Counts.{IsPrefixLen};

use cli_words::Pieces;
use std::env::FillError;
use std::rt::Env;

// Whether a word is an option: -h, or one that begins with two minus signs.
pub fn is_option(w: &[u8]) -> bool {
    matches!(w, b"-h" | [b'-', b'-', ..])
}

fn is_known(w: &[u8]) -> bool {
    matches!(w, b"--json" | b"--quiet" | b"--help" | b"-h" | b"--version")
}

pub fn has_option(line: &[u8], option: &str) -> bool {
    Pieces::new(line).any(|w| w == option.as_bytes())
}

// The first option that there isn't.
pub fn unknown_option<'a>(line: &'a [u8]) -> Option<&'a [u8]> {
    Pieces::new(line).find(|w| is_option(w) & !is_known(w))
}

// Whether a word is empty.
pub fn has_empty(line: &[u8]) -> bool {
    Pieces::new(line).any(|w| w.is_empty())
}

// The words that are no options, the first of which is the command's name.
#[derive(Drop)]
pub struct Arguments<'a> {
    pub pieces: Pieces<'a>,
}

impl<'a> Arguments<'a> {
    pub fn new(line: &'a [u8]) -> Arguments<'a> {
        Arguments {
            pieces: Pieces::new(line),
        }
    }
}

impl<'a> Iterator for Arguments<'a> {
    type Item = &'a [u8];

    ghost remaining = { λ s. at_most (length s.pieces.rest.now) };

    fn next(&mut self) -> Option<&'a [u8]> {
        self.pieces.find(|w| !is_option(w))
    }
}

// Word number k, the command's name being 0; an empty one counts as none.
pub fn argument<'a>(line: &'a [u8], k: usize) -> Option<&'a [u8]> {
    Arguments::new(line).nth(k).filter(|w| !w.is_empty())
}

// How many words there are, options apart.
pub fn argument_count(line: &[u8]) -> usize {
    Arguments::new(line).count()
}

// Puts the arguments from number `first` on into the room, each with a zero byte behind it, where they leave a byte free.
// Stays counted: a loop has to end, and nothing says that the arguments do.
pub fn join(rt: HostRuntime, room: &mut [u8], first: usize) -> Option<usize>
    ensures { IfSome result (λ n. IsPrefixLen n room.new) }
{
    let mut at = 0;
    for i in first..usize::MAX {
        let end = match rt.arg(i, &mut room[at..]) {
            Ok(n) => at + n,
            Err(FillError::NotPresent) => return Some(at),
            Err(FillError::TooLong) => return None,
        };
        if end + 1 >= room.len() {
            return None;
        }
        room[end] = 0;
        at = end + 1;
    }
    None
}
