// The journal: a row for each edit that can be undone or redone. Row n % 128 belongs to standing edit number n.
ghost use Rattle.std.specs.Prelude.{◌≡◌, ◌-◌};
ghost use Rattle.std.specs.List.{list_all, range_with_len};
ghost use Rattle.player.specs.Journal.{row_of, with_row, empty_journal};
ghost use Rattle.player.specs.Player.{entry_ok};

use curve::Key;
use edit::spot::has_key;
use sheet::Sheet;

// How many edits back an undo reaches.
pub const ROWS: u64 = 128;

#[derive(Clone, Copy)]
pub struct Entry {
    pub track: u16,
    pub key: u16,
    pub before: Key,
    pub after: Key,
}

// Stays eight arrays, and not one of entries: the layout that C has.
#[repr(C)]
#[derive(Clone, Copy)]
pub struct Journal {
    pub track: [u16; 128],
    pub key: [u16; 128],
    pub before_frame: [f32; 128],
    pub before_value: [f32; 128],
    pub before_slope: [f32; 128],
    pub after_frame: [f32; 128],
    pub after_value: [f32; 128],
    pub after_slope: [f32; 128],
}

impl Journal {
    pub fn fresh() -> Journal
        ensures { result ≡ empty_journal }
    {
        Journal {
            track: [0; 128],
            key: [0; 128],
            before_frame: [0.0; 128],
            before_value: [0.0; 128],
            before_slope: [0.0; 128],
            after_frame: [0.0; 128],
            after_value: [0.0; 128],
            after_slope: [0.0; 128],
        }
    }

    #[tactic(auto, unfolding(crate::specs::Journal::row_of))]
    pub fn row(&self, n: u64) -> Entry
        ensures { result ≡ row_of self.now n }
    {
        let i = (n % ROWS) as usize;
        Entry {
            track: self.track[i],
            key: self.key[i],
            before: Key {
                frame: self.before_frame[i],
                value: self.before_value[i],
                slope: self.before_slope[i],
            },
            after: Key {
                frame: self.after_frame[i],
                value: self.after_value[i],
                slope: self.after_slope[i],
            },
        }
    }

    // Whether the row of edit number n names a key of the sheet: two of the arrays are read.
    #[tactic(auto, unfolding(crate::specs::Journal::row_of))]
    pub fn names_key(&self, sheet: &Sheet, n: u64) -> bool
        ensures { result ≡ entry_ok sheet.now.bytes.now (row_of self.now n) }
    {
        let i = (n % ROWS) as usize;
        has_key(sheet, self.track[i], self.key[i])
    }

    // Whether the rows of these edits all do.
    pub fn names_keys(&self, sheet: &Sheet, first: u64, end: u64) -> bool
        ensures { result ≡ list_all (λ n. entry_ok sheet.now.bytes.now (row_of self.now n)) (range_with_len first (end - first)) }
    {
        (first..end).all(|n| self.names_key(sheet, n))
    }

    #[tactic(auto, unfolding(crate::specs::Journal::with_row))]
    pub fn with_row(mut self, n: u64, e: Entry) -> Journal
        ensures { result ≡ with_row self n e }
    {
        let i = (n % ROWS) as usize;
        self.track[i] = e.track;
        self.key[i] = e.key;
        self.before_frame[i] = e.before.frame;
        self.before_value[i] = e.before.value;
        self.before_slope[i] = e.before.slope;
        self.after_frame[i] = e.after.frame;
        self.after_value[i] = e.after.value;
        self.after_slope[i] = e.after.slope;
        self
    }
}
