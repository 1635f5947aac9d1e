// The command `check`: each file a sheet by loading it (rows 1, 3 and 4 of the table), or a book by its layout (row 2).
use crate::open::loadable;
use book::Book;
use cli_command::{Arguments, LONGEST, needed, read, try_read};
use cli_facts::Files;
use cli_faults::{Declined, say_verdict};
use cli_page::Out;
use sheet::Sheet;

// What a file is taken for: what its name ends with says, and else a book where it is one.
fn is_book(path: &[u8], bytes: &[u8]) -> bool {
    path.ends_with(b".book") || (!path.ends_with(b".sheet") && book::book_ok(bytes))
}

fn end(out: &mut Out, hint: Option<&str>) {
    if let Some(hint) = hint {
        out.word("; ", "hint", hint);
    }
    out.end();
}

// A line for a file that is taken for a sheet.
pub fn say_sheet(out: &mut Out, path: &[u8], bytes: &[u8]) {
    let verdict = match loadable(bytes) {
        Ok(_) => Ok(()),
        Err(refusal) => Err(Declined {
            refusal,
            fault: faults::load_fault(bytes).err(),
        }),
    };
    say_verdict(out, path, "sheet", verdict);
    end(out, book::book_ok(bytes).then_some("it is a book"));
}

// A line for a file that is taken for a book.
pub fn say_book(out: &mut Out, path: &[u8], bytes: &[u8]) {
    let verdict = match Book::new(bytes) {
        Ok(_) => Ok(()),
        Err(refusal) => Err(Declined {
            refusal,
            fault: faults::book_fault(bytes).err(),
        }),
    };
    say_verdict(out, path, "book", verdict);
    end(out, sheet::sheet_ok(bytes).then_some("it is a sheet"));
}

// Warnings where the file that was named before a book is a sheet.
fn hold_against(out: &mut Out, before: &[u8], book: &[u8]) {
    // Stays an array of the longest file: nothing allocates.
    let mut bytes = [0u8; LONGEST];
    let Ok(n) = try_read(out.rt, before, &mut bytes) else {
        return;
    };
    if let (Ok(sheet), Ok(book)) = (Sheet::new(&bytes[..n]), Book::new(book)) {
        cli_info::say_unreached(out, before, Files { sheet, book });
    }
}

// The verdict on one file, with the one that was named before it.
fn check_file(out: &mut Out, path: &[u8], before: Option<&[u8]>) -> Option<()> {
    // Stays an array of the longest file: nothing allocates.
    let mut bytes = [0u8; LONGEST];
    let n = read(out, path, &mut bytes)?;
    let bytes = &bytes[..n];
    if !is_book(path, bytes) {
        say_sheet(out, path, bytes);
        return Some(());
    }
    say_book(out, path, bytes);
    if let Some(before) = before {
        hold_against(out, before, bytes);
    }
    Some(())
}

// None where there is no file. A file that can't be read is told, and the next one follows.
pub fn check(out: &mut Out, line: &[u8]) -> Option<()> {
    needed(out, line, 1, "FILE")?;
    let mut before = None;
    for path in Arguments::new(line).skip(1) {
        let _ = check_file(out, path, before);
        before = Some(path);
    }
    Some(())
}
