// The command `reach`: what the edits between two sheets reach in a book.
use crate::check::{say_book, say_sheet};
use crate::open::{loadable, no_more};
use book::Book;
use cli_command::{LONGEST, needed, read};
use cli_facts::Files;
use cli_page::Out;

// A file: its name, and what it holds.
#[derive(Clone, Copy)]
struct File<'a> {
    path: &'a [u8],
    bytes: &'a [u8],
}

// What is declined is told, the first alone.
fn say_reach(out: &mut Out, old: File<'_>, new: File<'_>, book: File<'_>) {
    let Ok(sheet) = loadable(old.bytes) else {
        say_sheet(out, old.path, old.bytes);
        return;
    };
    if loadable(new.bytes).is_err() {
        say_sheet(out, new.path, new.bytes);
        return;
    }
    match Book::new(book.bytes) {
        Ok(book) => cli_reach::say_reach(out, old.path, new.path, Files { sheet, book }, new.bytes),
        Err(_) => say_book(out, book.path, book.bytes),
    }
}

// None where what is wrong with the line or a file was told.
pub fn reach(out: &mut Out, line: &[u8]) -> Option<()> {
    let old = needed(out, line, 1, "OLD")?;
    let new = needed(out, line, 2, "NEW")?;
    let book = needed(out, line, 3, "BOOK")?;
    no_more(out, line, 4)?;
    // Stays arrays of the longest file: nothing allocates.
    let mut old_room = [0u8; LONGEST];
    let n = read(out, old, &mut old_room)?;
    let mut new_room = [0u8; LONGEST];
    let m = read(out, new, &mut new_room)?;
    let mut book_room = [0u8; LONGEST];
    let k = read(out, book, &mut book_room)?;
    say_reach(
        out,
        File {
            path: old,
            bytes: &old_room[..n],
        },
        File {
            path: new,
            bytes: &new_room[..m],
        },
        File {
            path: book,
            bytes: &book_room[..k],
        },
    );
    Some(())
}
