// How much a sheet and a book hold.
ghost use Rattle.std.specs.Prelude.{◌≡◌};
ghost use Rattle.menu_checks.specs.Counts.{sheet_counts_of, book_counts_of};

use menu_checks::{BookCounts, SheetCounts};

pub fn menu_sheet_counts(sheet: &[u8]) -> SheetCounts
    ensures { result ≡ sheet_counts_of sheet.now }
{
    menu_checks::sheet_counts(sheet)
}

pub fn menu_book_counts(book: &[u8]) -> BookCounts
    ensures { result ≡ book_counts_of book.now }
{
    menu_checks::book_counts(book)
}
