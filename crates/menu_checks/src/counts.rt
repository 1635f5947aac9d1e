// How much a sheet and a book hold, for callers that size their arrays by it. Declined by the layout alone.
// Stays a number, the refusal in each answer: C reads it.
ghost use Rattle.std.specs.Prelude.{◌≡◌};
ghost use Rattle.menu_checks.specs.Counts.{sheet_counts_by, book_counts_by, sheet_counts_of, book_counts_of};

use book::Book;
use laws::refusal::ACCEPTED;
use sheet::Sheet;

// A track is a target. Each key array is `keys` long.
#[repr(C)]
#[derive(Clone, Copy)]
pub struct SheetCounts {
    pub refusal: u8,
    pub animations: u16,
    pub contents: u16,
    pub tracks: u16,
    pub keys: u16,
    pub textures: u16,
}

// A whole reading is `channels` long.
#[repr(C)]
#[derive(Clone, Copy)]
pub struct BookCounts {
    pub refusal: u8,
    pub panes: u16,
    pub materials: u16,
    pub channels: u16,
}

#[tactic(auto, unfolding(crate::specs::Counts::sheet_counts_by, crate::specs::Counts::counted))]
fn of_sheet(sheet: &Sheet) -> SheetCounts
    ensures { result ≡ sheet_counts_by 0 sheet.now.bytes.now }
{
    SheetCounts {
        refusal: ACCEPTED,
        animations: sheet.animation_count() as u16,
        contents: sheet.content_count() as u16,
        tracks: sheet.target_count() as u16,
        keys: sheet.key_count() as u16,
        textures: sheet.texture_count() as u16,
    }
}

// Refusal 1.
#[tactic(auto, using(laws::specs::Refused::refused), unfolding(crate::specs::Counts::sheet_counts_of, crate::specs::Counts::sheet_counts_table, crate::specs::Counts::sheet_counts_by, crate::specs::Counts::counted))]
pub fn sheet_counts(s: &[u8]) -> SheetCounts
    ensures { result ≡ sheet_counts_of s.now }
{
    match Sheet::new(s) {
        Ok(sheet) => of_sheet(&sheet),
        Err(e) => SheetCounts {
            refusal: e.number(),
            animations: 0,
            contents: 0,
            tracks: 0,
            keys: 0,
            textures: 0,
        },
    }
}

#[tactic(auto, unfolding(crate::specs::Counts::book_counts_by, crate::specs::Counts::counted, channel::specs::Channel::channel_count))]
fn of_book(book: &Book) -> BookCounts
    ensures { result ≡ book_counts_by 0 book.now.bytes.now }
{
    BookCounts {
        refusal: ACCEPTED,
        panes: book.pane_count() as u16,
        materials: book.material_count() as u16,
        channels: channel::channel_count(book) as u16,
    }
}

// Refusal 2.
#[tactic(auto, using(laws::specs::Refused::refused), unfolding(crate::specs::Counts::book_counts_of, crate::specs::Counts::book_counts_table, crate::specs::Counts::book_counts_by, crate::specs::Counts::counted))]
pub fn book_counts(b: &[u8]) -> BookCounts
    ensures { result ≡ book_counts_of b.now }
{
    match Book::new(b) {
        Ok(book) => of_book(&book),
        Err(e) => BookCounts {
            refusal: e.number(),
            panes: 0,
            materials: 0,
            channels: 0,
        },
    }
}
