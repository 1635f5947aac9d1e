// What is compared: two sets of keys of one sheet, over a book.
ghost use Rattle.reading.specs.Ready.{ReadyRow};

use book::Book;
use curve::Keys;
use keys::Ready;
use reach::TwoSets;
use reading::{Menu, Reading, row_reading};
use sheet::Target;

#[derive(Clone, Copy)]
pub struct Compared<'a> {
    pub sets: TwoSets<'a>,
    pub book: Book<'a>,
}

// A track with its keys. Its row, and how many textures there are, don't change from frame to frame.
#[derive(Clone, Copy)]
pub struct Track<'a> {
    keys: Keys<'a>,
    row: Target,
    textures: usize,
    ghost ready: { ReadyRow row keys.frames.now keys.values.now keys.slopes.now },
}

impl<'a> Track<'a> {
    ghost use Rattle.std.specs.Prelude.{◌<◌};
    ghost use Rattle.sheet.specs.Sizes.{target_count};

    #[tactic(auto, using(reading::specs::Ready::keys_row))]
    pub fn of(ready: Ready<'a>, t: usize) -> Track<'a>
        requires { t < target_count ready.sheet.bytes.now }
    {
        Track {
            keys: ready.keys,
            row: ready.sheet.target(t),
            textures: ready.sheet.texture_count(),
        }
    }

    // What it reads at frame x. Inlined, as what it calls is: a call would copy the row at each frame.
    #[inline(always)]
    pub fn reading(&self, x: f32) -> Reading {
        let keys = self.keys;
        row_reading(
            keys.frames,
            keys.values,
            keys.slopes,
            x,
            self.row,
            self.textures,
        )
    }
}

impl<'a> Compared<'a> {
    ghost use Rattle.std.specs.Prelude.{◌≡◌};

    // The menu before the edits.
    pub fn before(self) -> Menu<'a>
        ensures sheet { result.ready.sheet.bytes.now ≡ self.entry.sets.old.sheet.bytes.now }
        ensures book { result.book.bytes.now ≡ self.entry.book.bytes.now }
    {
        Menu {
            ready: self.sets.old,
            book: self.book,
        }
    }

    // The menu after them.
    pub fn after(self) -> Menu<'a>
        ensures sheet { result.ready.sheet.bytes.now ≡ self.entry.sets.old.sheet.bytes.now }
        ensures book { result.book.bytes.now ≡ self.entry.book.bytes.now }
    {
        let TwoSets { old, new } = self.sets;
        Menu {
            ready: Ready {
                sheet: old.sheet,
                keys: new,
            },
            book: self.book,
        }
    }
}
