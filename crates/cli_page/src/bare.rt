// Text from outside on one line of a terminal or in a JSON string: control characters and bytes that are no UTF-8 are never written as they are.
use crate::out::Out;

// The digits of a byte that is told by its number.
static DIGITS: &[u8; 16] = b"0123456789abcdef";

// Whether a byte stands for itself on a line, or in a JSON string. Stays by a switch: it is the page's own, and which bytes stand for themselves depends on it.
fn is_plain(b: u8, json: bool) -> bool {
    matches!(b, b' '..=b'~') && !(json && matches!(b, b'"' | b'\\'))
}

impl Out {
    // A byte that doesn't stand for itself, and is of no character that does.
    fn say_hidden(&mut self, b: u8) {
        if !self.json {
            self.say("?");
        } else if matches!(b, b'"' | b'\\') {
            self.say_bytes(&[b'\\', b]);
        } else if b.is_ascii() {
            let high = DIGITS[b as usize / 16];
            let low = DIGITS[b as usize % 16];
            self.say_bytes(&[b'\\', b'u', b'0', b'0', high, low]);
        } else {
            self.say("\\ufffd");
        }
    }

    // A character that doesn't stand for itself: it is written whole where it has more bytes than one and is no control character, else each of its bytes as a
    // hidden one. Stays on an array, of the longest character: nothing allocates.
    fn say_char(&mut self, c: char) {
        let mut room = [0u8; 4];
        let text = c.encode_utf8(&mut room);
        if c.is_ascii() || c.is_control() {
            for b in text.as_bytes() {
                self.say_hidden(*b);
            }
        } else {
            self.say(text);
        }
    }

    // Bytes of which none stands for itself.
    fn say_other(&mut self, text: &[u8]) {
        for chunk in text.utf8_chunks() {
            for c in chunk.valid().chars() {
                self.say_char(c);
            }
            for b in chunk.invalid() {
                self.say_hidden(*b);
            }
        }
    }

    // The text on one line. What stands for itself is said a run at once.
    pub fn say_bare(&mut self, text: &[u8]) {
        let json = self.json;
        for run in text.chunk_by(|a, b| is_plain(*a, json) == is_plain(*b, json)) {
            match run {
                [b, ..] if is_plain(*b, json) => self.say_bytes(run),
                _ => self.say_other(run),
            }
        }
    }

    // As a JSON string.
    pub fn say_quoted(&mut self, text: &[u8]) {
        self.say("\"");
        self.say_bare(text);
        self.say("\"");
    }
}
