// A line of output is text, or a JSON object a member of which has a key. Each function here writes both forms of one thing: `before` stands in front of it
// in the text, `name` is its key in the object.
use crate::out::Out;

impl Out {
    // A line begins.
    pub fn begin(&mut self) {
        if self.json {
            self.say("{");
            self.bare = true;
        }
    }

    // A line ends.
    pub fn end(&mut self) {
        self.say(if self.json { "}\n" } else { "\n" });
    }

    // Words of the text alone.
    pub fn lead(&mut self, text: &str) {
        if !self.json {
            self.say(text);
        }
    }

    // What stands in front of a value.
    pub fn key(&mut self, before: &str, name: &str) {
        if !self.json {
            self.say(before);
            return;
        }
        self.say(if self.bare { "\"" } else { ",\"" });
        self.say(name);
        self.say("\":");
        self.bare = false;
    }

    // A value that is a word of the program's own.
    pub fn word(&mut self, before: &str, name: &str, text: &str) {
        self.key(before, name);
        if self.json {
            self.say_quoted(text.as_bytes());
        } else {
            self.say(text);
        }
    }

    // A value that is a text from outside: a name, a path, a word of a line.
    pub fn bytes(&mut self, before: &str, name: &str, text: &[u8]) {
        self.key(before, name);
        if self.json {
            self.say_quoted(text);
        } else {
            self.say_bare(text);
        }
    }

    // A value that is a whole number. Stays on an array, of the most digits: nothing allocates.
    pub fn count(&mut self, before: &str, name: &str, n: u64) {
        self.key(before, name);
        let mut text = [0u8; 20];
        let k = io::decimal(n, &mut text);
        self.say_bytes(&text[..k]);
    }

    // A value that is yes or no.
    pub fn flag(&mut self, before: &str, name: &str, on: bool) {
        self.key(before, name);
        self.say(match (self.json, on) {
            (true, true) => "true",
            (true, false) => "false",
            (false, true) => "yes",
            (false, false) => "no",
        });
    }

    // What is so or not: in text the words, or nothing.
    pub fn mark(&mut self, words: &str, name: &str, on: bool) {
        if self.json {
            self.flag("", name, on);
        } else if on {
            self.say(words);
        }
    }

    // A word of the program's own that the text tells otherwise.
    pub fn note(&mut self, name: &str, text: &str) {
        if self.json {
            self.word("", name, text);
        }
    }
}
