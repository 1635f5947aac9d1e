// The command `info`: what is in a sheet, and in a book where one is named.
use crate::check::{say_book, say_sheet};
use crate::open::{loadable, no_more};
use book::Book;
use cli_command::{LONGEST, argument, needed, read};
use cli_page::Out;

// A sheet that is declined is told so.
fn say_sheet_info(out: &mut Out, path: &[u8], bytes: &[u8], book: Option<Book<'_>>) {
    match loadable(bytes) {
        Ok(sheet) => cli_info::say_sheet(out, path, sheet, book),
        Err(_) => say_sheet(out, path, bytes),
    }
}

// Of both files.
fn say_both(out: &mut Out, path: &[u8], sheet: &[u8], book_path: &[u8]) -> Option<()> {
    // Stays an array of the longest file: nothing allocates.
    let mut bytes = [0u8; LONGEST];
    let n = read(out, book_path, &mut bytes)?;
    let bytes = &bytes[..n];
    let book = Book::new(bytes).ok();
    say_sheet_info(out, path, sheet, book);
    match book {
        Some(book) => cli_info::say_book(out, book_path, book),
        None => say_book(out, book_path, bytes),
    }
    Some(())
}

// None where what is wrong with the line or a file was told.
pub fn info(out: &mut Out, line: &[u8]) -> Option<()> {
    let path = needed(out, line, 1, "SHEET")?;
    no_more(out, line, 3)?;
    // Stays an array of the longest file: nothing allocates.
    let mut bytes = [0u8; LONGEST];
    let n = read(out, path, &mut bytes)?;
    let sheet = &bytes[..n];
    match argument(line, 2) {
        Some(book_path) => say_both(out, path, sheet, book_path)?,
        None => say_sheet_info(out, path, sheet, None),
    }
    Some(())
}
