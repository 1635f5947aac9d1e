// What `frames` and `replay` begin with: the two files, checked, and the keys loaded.
ghost use Rattle.std.specs.Prelude.{◌≡◌, IfOk};
ghost use Rattle.laws.specs.Refusal.{declined};
ghost use Rattle.laws.specs.Rows.{declines};
ghost use Rattle.sheet.specs.Sizes.{key_count};
ghost use Rattle.keys.specs.Load.{load_table};

use crate::check::{say_book, say_sheet};
use book::Book;
use cli_command::{LONGEST, argument, needed, read, too_many};
use cli_facts::{Files, Loaded};
use cli_page::Out;
use laws::Refusal;
use sheet::Sheet;

// The sheet, where it can be loaded, and else the refusal.
#[tactic(auto, unfolding(keys::specs::Load::load_table, laws::specs::Rows::declines, laws::specs::Rows::unless))]
pub fn loadable<'a>(bytes: &'a [u8]) -> Result<Sheet<'a>, Refusal>
    ensures declined { declined result ≡ declines (load_table bytes.now (key_count bytes.now) (key_count bytes.now) (key_count bytes.now)) }
    ensures same { IfOk result (λ sheet. sheet.bytes.now ≡ bytes.now) }
{
    let n = Sheet::new(bytes)?.key_count();
    keys::check_load(bytes, n, n, n)
}

// Whether no word stands at place k or behind it; where one does, that is told.
pub fn no_more(out: &mut Out, line: &[u8], k: usize) -> Option<()> {
    match argument(line, k) {
        Some(more) => {
            too_many(out, more);
            None
        }
        None => Some(()),
    }
}

// Loads the keys and goes on with the command.
fn load<F: FnOnce(&mut Out, Files<'_>, Loaded)>(
    out: &mut Out,
    path: &[u8],
    files: Files<'_>,
    command: F,
)
    requires { F.IsAlwaysCallable command }
{
    match Loaded::of(files.sheet) {
        Ok(loaded) => command(out, files, loaded),
        Err(_) => say_sheet(out, path, files.sheet.bytes),
    }
}

// The command, from its files on; `most` words may stand on its line. None where what is wrong with the line or a file was told.
pub fn open<F: FnOnce(&mut Out, Files<'_>, Loaded)>(
    out: &mut Out,
    line: &[u8],
    most: usize,
    command: F,
) -> Option<()>
    requires { F.IsAlwaysCallable command }
{
    let path = needed(out, line, 1, "SHEET")?;
    let book_path = needed(out, line, 2, "BOOK")?;
    no_more(out, line, most)?;
    // Stays arrays of the longest file: nothing allocates.
    let mut sheet = [0u8; LONGEST];
    let n = read(out, path, &mut sheet)?;
    let mut book = [0u8; LONGEST];
    let m = read(out, book_path, &mut book)?;
    let sheet = &sheet[..n];
    let book = &book[..m];
    match (Sheet::new(sheet), Book::new(book)) {
        (Ok(sheet), Ok(book)) => load(out, path, Files { sheet, book }, command),
        (Err(_), _) => say_sheet(out, path, sheet),
        (_, Err(_)) => say_book(out, book_path, book),
    }
    Some(())
}
