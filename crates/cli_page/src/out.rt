// Standard output by pages. A write for each word would cost more than all else: a frame of a menu has some thirty lines of eleven words.
use crate::page::{PAGE, Page};
use std::fmt;
use std::io::Print;

// What a command came to, which is its exit status: the largest of what its parts came to. Wrong use, and a file that can't be read or written, are `Wrong`.
// Stays an enum of its own: three outcomes by their rank, and a `Result` has two.
#[derive(Clone, Copy, Debug, PartialEq, Eq, PartialOrd, Ord)]
pub enum Status {
    Accepted = 0,
    Declined = 1,
    Wrong = 2,
}

// What is on the page is not written yet. `lost`: a write failed. `json`: lines are JSON objects; `bare`: the object has no member yet.
// `aside`: an error that ends a command goes to standard error. `told`: progress is shown. `rt`: by it what has an `Out` writes, and opens files.
// Stays a flag, `json`: each thing that is said tells its two forms side by side.
#[derive(Clone, Copy)]
pub struct Out {
    pub rt: HostRuntime,
    pub page: Page,
    pub lost: bool,
    pub json: bool,
    pub bare: bool,
    pub status: Status,
    pub aside: bool,
    pub told: bool,
}

impl Out {
    ghost use Rattle.std.specs.Prelude.{◌≡◌, ◌++◌, ◌<◌, ◌≤◌, ◌+◌, [], length};
    ghost use Rattle.cli_page.specs.Page.{items};

    // Lines of text, all of them on standard output.
    pub fn new(rt: HostRuntime) -> Out {
        Out {
            rt,
            page: Page::new(),
            lost: false,
            json: false,
            bare: true,
            status: Status::Accepted,
            aside: false,
            told: false,
        }
    }

    // Its outcome is at least `status`.
    pub fn came_to(&mut self, status: Status) {
        self.status = self.status.max(status);
    }

    // What is on the page goes to a stream.
    fn flush_to<P: Print>(&mut self, to: &P)
        ensures { items self.new.page ≡ [] }
    {
        if to.write_all(self.page.as_slice()).is_err() {
            self.lost = true;
        }
        self.page.clear();
    }

    // What is on the page goes to standard output.
    pub fn flush(&mut self)
        ensures { items self.new.page ≡ [] }
    {
        let to = self.rt.stdout();
        self.flush_to(&to);
    }

    // What is on the page is an error, and goes where errors go.
    pub fn flush_error(&mut self)
        ensures { items self.new.page ≡ [] }
    {
        if self.json | !self.aside {
            self.flush();
        } else {
            let to = self.rt.stderr();
            self.flush_to(&to);
        }
    }

    // The bytes behind all that was said before. A page that they would fill goes out first, and where they would fill one alone, they go out as they are.
    pub fn say_bytes(&mut self, text: &[u8])
        ensures room { length (items self.old.page) + length text.now < 65536 → items self.new.page ≡ items self.old.page ++ text.now }
        ensures next { 65536 ≤ length (items self.old.page) + length text.now → length text.now < 65536 → items self.new.page ≡ text.now }
        ensures long { 65536 ≤ length text.now → items self.new.page ≡ [] }
    {
        if self.page.has_room(text.len()) {
            self.page.push(text);
            return;
        }
        self.flush();
        if text.len() < PAGE {
            self.page.push(text);
        } else if self.rt.stdout().write_all(text).is_err() {
            self.lost = true;
        }
    }

    // The text behind all that was said before.
    pub fn say(&mut self, text: &str) {
        self.say_bytes(text.as_bytes());
    }
}

// So `write!` says what has a `Display`.
impl fmt::Write for Out {
    fn write_str(&mut self, text: &str) -> fmt::Result {
        self.say(text);
        Ok(())
    }
}
