// The call `save` of a list: the sheet with the keys as they are, in a file where one is named, and how far it is from the loaded sheet.
#![tactic(auto)]

mod differing;

use cli_command::{LONGEST, Unwritten};
use cli_page::{Out, Status};
use cli_printed::accepted;
use differing::differing;
use player::Player;
use sheet::Sheet;

// `saved N bytes in FILE, D differ from the loaded sheet`.
fn say_saved(out: &mut Out, path: Option<&[u8]>, bytes: usize, differ: usize) {
    out.note("answer", "saved");
    out.count(" saved ", "bytes", bytes as u64);
    out.lead(" bytes");
    if let Some(path) = path {
        out.bytes(" in ", "file", path);
    }
    out.count(", ", "differ", differ as u64);
    out.lead(" differ from the loaded sheet");
    out.end();
}

// The answer of a save whose file could not be written; the list goes on.
fn cannot_write(out: &mut Out, path: &[u8], why: Unwritten) {
    out.came_to(Status::Wrong);
    out.note("answer", "error");
    out.bytes(" error: ", "file", path);
    let words = match why {
        Unwritten::NotOpened => "cannot be opened for writing",
        Unwritten::NotWhole => "cannot be written whole",
    };
    out.word(": ", "error", words);
    out.end();
}

// Saves, to a file where path has bytes, and answers with the line's end. Where the file can't be written, that is said in the answer's place.
// Stays over three slices: they need not be one length.
pub fn save(
    out: &mut Out,
    p: &Player,
    sheet: Sheet<'_>,
    frames: &[f32],
    values: &[f32],
    slopes: &[f32],
    path: Option<&[u8]>,
) {
    let path = path.filter(|path| !path.is_empty());
    let loaded = sheet.bytes;
    // Stays an array of the longest file: nothing allocates.
    let mut room = [0u8; LONGEST];
    let saved = &mut room[..loaded.len()];
    let declined = menu::save(*p, loaded, frames, values, slopes, saved);
    if let Err(refusal) = accepted(declined) {
        cli_printed::refusal(out, " ", refusal);
        out.end();
        return;
    }
    if let Some(path) = path {
        if let Err(why) = cli_command::write(out.rt, path, saved) {
            cannot_write(out, path, why);
            return;
        }
    }
    say_saved(out, path, saved.len(), differing(loaded, saved));
}
