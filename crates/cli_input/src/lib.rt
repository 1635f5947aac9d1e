// Standard input, line by line: read in pieces, so that an input of any length works. A line longer than its room is read to its end and told.
#![tactic(auto)]

ghost use Rattle.std.specs.Prelude.{◌≤◌};

use std::io::Read;

const PIECE: usize = 65536;

const ROOM: usize = 255;

// A line that its room is too short for.
#[derive(Clone, Copy, Debug, PartialEq, Eq)]
pub struct TooLong;

// A line, as far as it was read: the first `length` bytes of its room; `long` says that it has more than these. Stays an array with a count and
// a switch: the kit's vector is no Copy, and a Vec allocates.
#[derive(Clone, Copy)]
struct Line {
    room: [u8; ROOM],
    length: usize,
    long: bool,
    ghost short: { length ≤ 255 },
}

// The bytes of the piece from `at` to `filled` are unread. `left` bytes may still come: a loop has to end, and nothing says that an input does, so it
// begins with a number that no run uses up, and is 0 once the input has ended. `unread`: it ended because it can't be read.
// Stays an array with its places: std's `BufReader` allocates.
#[derive(Clone, Copy)]
pub struct Input {
    piece: [u8; PIECE],
    at: usize,
    filled: usize,
    left: u64,
    line: Line,
    unread: bool,
    ghost read: { at ≤ filled },
    ghost within: { filled ≤ 65536 },
}

impl Line {
    ghost use Rattle.std.specs.Prelude.{◌≡◌, ◌+◌, ◌≤◌, length, Ok, IfOk};

    fn new() -> Line
        ensures { result.length ≡ 0 }
    {
        Line {
            room: [0; ROOM],
            length: 0,
            long: false,
        }
    }

    // It begins anew. Its room keeps its bytes.
    fn clear(&mut self) {
        self.length = 0;
        self.long = false;
    }

    // Puts n bytes of a piece behind the line, where it has room for them.
    fn put(&mut self, piece: &[u8], at: usize, n: usize)
        requires { at + n ≤ length piece.now }
    {
        if self.long || n > ROOM - self.length {
            self.long = true;
            return;
        }
        let end = self.length + n;
        self.room[self.length..end].copy_from_slice(&piece[at..at + n]);
        self.length = end;
    }

    fn text(&self) -> Result<&[u8], TooLong>
        ensures { IfOk result (λ text. length text.now ≤ 255) }
    {
        if self.long {
            return Err(TooLong);
        }
        Ok(&self.room[..self.length])
    }
}

impl Input {
    ghost use Rattle.std.specs.Prelude.{◌≡◌, ◌+◌, ◌-◌, ◌<◌, ◌≤◌, length, Ok, IfOk, IfSome};
    ghost use Rattle.std.specs.Borrow.{sem};
    ghost use Rattle.cli_input.specs.Left.{LeftFalls};

    pub fn new() -> Input
        ensures unread { result.filled ≡ 0 }
        ensures empty { result.line.length ≡ 0 }
    {
        Input {
            piece: [0; PIECE],
            at: 0,
            filled: 0,
            left: u64::MAX,
            line: Line::new(),
            unread: false,
        }
    }

    // Whether the input ended because it can't be read.
    pub fn is_unread(&self) -> bool {
        self.unread
    }

    // Whether more may come: the input has not ended.
    pub fn may_come(&self) -> bool {
        self.left > 0
    }

    // Whether a whole line is there already, so that nothing has to be waited for.
    pub fn has_line(&self) -> bool {
        self.piece[self.at..self.filled].contains(&b'\n')
    }

    // The next piece, where this one is read.
    fn fill<R: Read>(&mut self, from: &mut R)
        ensures left { self.new.left ≤ self.old.left }
        ensures there { 0 < self.new.left → self.new.at < self.new.filled }
    {
        if self.at < self.filled {
            return;
        }
        self.at = 0;
        self.filled = 0;
        match from.read(&mut self.piece) {
            Ok(0) => self.left = 0,
            Ok(filled) => self.filled = filled,
            Err(_) => {
                self.left = 0;
                self.unread = true;
            }
        }
    }

    // The next n bytes of the piece go behind the line.
    fn store(&mut self, n: usize)
        requires { self.old.at + n ≤ self.old.filled }
        ensures at { self.new.at ≡ self.old.at + n }
        ensures filled { self.new.filled ≡ self.old.filled }
        ensures left { self.new.left ≡ self.old.left - n }
    {
        self.line.put(&self.piece, self.at, n);
        self.at += n;
        self.left = self.left.saturating_sub(n as u64);
    }

    // What the piece has of the line; whether the line ends there.
    fn take(&mut self) -> bool
        ensures { self.old.at < self.old.filled → 0 < self.old.left → self.new.left < self.old.left }
    {
        let unread = &self.piece[self.at..self.filled];
        match unread.iter().position(|b| *b == b'\n') {
            Some(n) => {
                self.store(n);
                self.at += 1;
                self.left = self.left.saturating_sub(1);
                true
            }
            None => {
                self.store(self.filled - self.at);
                false
            }
        }
    }

    // Reads the next line. Stays a while: nothing says in how many pieces a line comes.
    fn read_line<R: Read>(&mut self, from: &mut R)
        ensures { 0 < self.old.left → self.new.left < self.old.left }
    {
        self.line.clear();
        while self.left > 0 {
            self.fill(from);
            if self.left == 0 || self.take() {
                return;
            }
        }
    }

    // The next line, without its end. The last may be empty.
    pub fn next_line<'a, R: Read>(&'a mut self, from: &mut R) -> Option<Result<&'a [u8], TooLong>>
        ensures short { IfSome result (λ line. IfOk line (λ text. length text.now ≤ 255)) }
        ensures* progress { sem 𝓛 (LeftFalls self.entry) }
    {
        if self.left == 0 {
            return None;
        }
        self.read_line(from);
        Some(self.line.text())
    }
}
