// The arguments of a call, each a word of its line.
ghost use Rattle.std.specs.Prelude.{◌≡◌, ◌<◌, ◌≤◌, ◌+◌};

use crate::named::row_named;
use crate::unread::{Fault, Unread};
use book::Book;
use cli_printed::Owner;
use cli_words::{Words, is_quoted, unquoted};

// A whole number that fits the menu's.
pub fn whole(w: &[u8]) -> Result<u16, Fault> {
    cli_words::whole(w)
        .and_then(|n| u16::try_from(n).ok())
        .ok_or(Fault::NoWhole)
}

pub fn number(w: &[u8]) -> Result<f32, Fault> {
    cli_words::read_number(w).ok_or(Fault::NoNumber)
}

// An animation's number, or none.
pub fn animation(w: &[u8]) -> Result<Option<u16>, Fault> {
    match w {
        b"none" => Ok(None),
        _ => whole(w).map(|n| Some(n)),
    }
}

// A pane's number, or its label; a material's number, or its name; in quotes always a name.
pub fn row(book: Book<'_>, owner: Owner, w: &[u8]) -> Result<u16, Fault> {
    if !is_quoted(w) {
        if let Ok(n) = whole(w) {
            return Ok(n);
        }
    }
    row_named(book, owner, unquoted(w)).ok_or(Fault::NoName)
}

// A channel's name, or its number.
pub fn channel(owner: Owner, w: &[u8]) -> Result<u16, Fault> {
    match cli_printed::channel(owner, w) {
        Some(c) => Ok(c as u16),
        None => whole(w).map_err(|_| Fault::NoName),
    }
}

// The words of a line that are not read yet; `at` is the place of the first of them. No call has more than five words.
#[derive(Drop)]
pub struct Arguments<'a> {
    words: Words<'a>,
    pub at: usize,
    ghost few: { at ≤ 5 },
}

impl<'a> Arguments<'a> {
    ghost use Rattle.std.specs.Prelude.{◌≡◌, ◌<◌, ◌+◌, OnOk};

    pub fn new(line: &'a [u8]) -> Arguments<'a>
        ensures { result.at ≡ 0 }
    {
        Arguments {
            words: Words::new(line),
            at: 0,
        }
    }

    // The next word, if there is one.
    pub fn word(&mut self) -> Option<&'a [u8]>
        requires { self.old.at < 5 }
        ensures { self.new.at ≡ self.old.at + 1 }
    {
        self.at += 1;
        self.words.next()
    }

    // The next word, which has to be there, as it is read.
    pub fn next<T: Drop, F: FnOnce(&[u8]) -> Result<T, Fault>>(
        &mut self,
        read: F,
    ) -> Result<T, Unread>
        requires callable { F.IsAlwaysCallable read }
        requires few { self.old.at < 5 }
        ensures { self.new.at ≡ self.old.at + 1 }
    {
        let at = self.at;
        let word = self.word().ok_or(Fault::Missing.at(at))?;
        read(word).map_err(|fault| fault.at(at))
    }

    // No word may follow.
    pub fn end(&mut self) -> Result<(), Unread> {
        match self.words.next() {
            Some(_) => Err(Fault::TooMany.at(self.at)),
            None => Ok(()),
        }
    }
}
