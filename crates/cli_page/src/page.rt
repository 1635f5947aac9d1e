// The bytes that are not written yet. Stays an array with a count: a page is copied with the output that holds it, and is emptied by its count alone.
ghost use Rattle.std.specs.Prelude.{◌<◌};

// A page is never full: a text that would fill it goes on the next.
pub const PAGE: usize = 65536;

#[derive(Clone, Copy)]
pub struct Page {
    bytes: [u8; PAGE],
    count: usize,
    ghost free: { count < 65536 },
}

impl Page {
    ghost use Rattle.std.specs.Prelude.{◌≡◌, ◌++◌, ◌+◌, ◌↔◌, [], length, IsTrue};
    ghost use Rattle.cli_page.specs.Page.{items};

    pub(crate) fn new() -> Page
        ensures { items result ≡ [] }
    {
        Page {
            bytes: [0; PAGE],
            count: 0,
        }
    }

    // Whether so many bytes more leave one free.
    pub(crate) fn has_room(&self, n: usize) -> bool
        ensures { IsTrue result ↔ (length (items self.now) + n < 65536) }
    {
        n < PAGE - self.count
    }

    // The text behind what is on the page.
    pub(crate) fn push(&mut self, text: &[u8])
        requires { length (items self.old) + length text.now < 65536 }
        ensures { items self.new ≡ items self.old ++ text.now }
    {
        let end = self.count + text.len();
        self.bytes[self.count..end].copy_from_slice(text);
        self.count = end;
    }

    pub(crate) fn clear(&mut self)
        ensures { items self.new ≡ [] }
    {
        self.count = 0;
    }

    pub(crate) fn as_slice(&self) -> &[u8]
        ensures { result.now ≡ items self.now }
    {
        &self.bytes[..self.count]
    }
}
