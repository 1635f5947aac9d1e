// The parts of a text: the words of a line, and pieces that end with a zero byte.
ghost use Rattle.std.specs.Prelude.{◌≡◌, ◌<◌, ◌≤◌, length, slice_index};
ghost use Rattle.std.specs.Iterator.{at_most};

// What stands between two words.
fn is_gap(b: u8) -> bool {
    matches!(b, b' ' | b'\t' | b'\r' | b'\n')
}

// How many bytes the word has that a text begins with. In quotes it may have spaces, and ends behind the next quote.
fn word_len(text: &[u8]) -> usize
    requires { 0 < length text.now }
    ensures { (0 < result) × (result ≤ length text.now) }
{
    let rest = &text[1..];
    let end = match text[0] {
        b'"' => rest.iter().position(|b| *b == b'"').map(|n| n + 2),
        _ => rest.iter().position(|b| is_gap(*b)).map(|n| n + 1),
    };
    end.unwrap_or(text.len())
}

// The words of a line, in quotes where they have them.
#[derive(Drop)]
pub struct Words<'a> {
    pub rest: &'a [u8],
}

impl<'a> Iterator for Words<'a> {
    type Item = &'a [u8];

    ghost remaining = { λ s. at_most (length s.rest.now) };

    fn next(&mut self) -> Option<&'a [u8]> {
        let start = self.rest.iter().position(|b| !is_gap(*b))?;
        let text = &self.rest[start..];
        let (word, rest) = text.split_at(word_len(text));
        self.rest = rest;
        Some(word)
    }
}

impl<'a> Words<'a> {
    pub fn new(line: &'a [u8]) -> Words<'a> {
        Words { rest: line }
    }
}

// Word number k of a line, the first being 0.
pub fn word<'a>(line: &'a [u8], k: usize) -> Option<&'a [u8]> {
    Words::new(line).nth(k)
}

// How many bytes of a line stand before its comment, a word that begins with #.
pub fn uncommented(line: &[u8]) -> usize
    ensures within { result ≤ length line.now }
    ensures comment { result < length line.now → slice_index line.now result ≡ 35 }
{
    let mut at = 0;
    while let Some(gap) = line[at..].iter().position(|b| !is_gap(*b)) {
        at += gap;
        if line[at] == b'#' {
            return at;
        }
        at += word_len(&line[at..]);
    }
    line.len()
}

pub fn is_quoted(w: &[u8]) -> bool {
    w.starts_with(b"\"")
}

// A word without its quotes.
pub fn unquoted<'a>(w: &'a [u8]) -> &'a [u8] {
    match w {
        [b'"', text @ .., b'"'] | [b'"', text @ ..] => text,
        _ => w,
    }
}

// The pieces of a text. Each ends with a zero byte, the last perhaps without.
#[derive(Drop)]
pub struct Pieces<'a> {
    pub rest: &'a [u8],
}

impl<'a> Iterator for Pieces<'a> {
    type Item = &'a [u8];

    ghost remaining = { λ s. at_most (length s.rest.now) };

    fn next(&mut self) -> Option<&'a [u8]> {
        let text = self.rest;
        if text.is_empty() {
            return None;
        }
        match text.iter().position(|b| *b == 0) {
            Some(n) => {
                self.rest = &text[n + 1..];
                Some(&text[..n])
            }
            None => {
                self.rest = &text[text.len()..];
                Some(text)
            }
        }
    }
}

impl<'a> Pieces<'a> {
    pub fn new(text: &'a [u8]) -> Pieces<'a> {
        Pieces { rest: text }
    }
}
