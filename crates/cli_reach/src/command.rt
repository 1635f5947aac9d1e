// Two sheets and a book: their keys loaded, then what the edits reach.
use crate::compared::Compared;
use crate::follows::say_follows;
use crate::marks::Marks;
use crate::other::say_other;
use crate::summary::say_summary;
use crate::tracks::say_tracks;
use cli_facts::{Files, Loaded};
use cli_page::Out;
use laws::Refusal;
use reach::{KeyArrays, TwoSets};
use sheet::Sheet;

// What the edits reach, animation by animation, and together.
fn say_compared(out: &mut Out, compared: Compared<'_>) {
    let mut all = Marks::none();
    for a in 0..compared.sets.old.sheet.animation_count() {
        let marks = Marks::of(compared, a);
        all.merge(&marks);
        say_tracks(out, compared, a);
        say_follows(out, compared, a, &marks);
    }
    say_summary(out, compared, &all);
}

fn arrays(loaded: &Loaded) -> KeyArrays<'_> {
    let keys = loaded.keys();
    KeyArrays {
        frames: keys.frames,
        values: keys.values,
        slopes: keys.slopes,
    }
}

// Loads the keys of both sheets, and compares them.
fn compare(out: &mut Out, files: Files<'_>, edited: &[u8]) -> Result<(), Refusal> {
    let Files { sheet, book } = files;
    let before = Loaded::of(sheet)?;
    let after = Loaded::of(Sheet::new(edited)?)?;
    let sets = TwoSets::new(sheet, arrays(&before), arrays(&after))?;
    say_compared(out, Compared { sets, book });
    Ok(())
}

// What the edits that made the sheet `edited` of the sheet of the files reach in the book; `old` and `new` are the sheets' names.
// A sheet that can't be loaded is told before, by whoever calls this.
pub fn say_reach(out: &mut Out, old: &[u8], new: &[u8], files: Files<'_>, edited: &[u8]) {
    if !reach::same_sheet(&files.sheet, edited) {
        say_other(out, old, new, files.sheet, edited);
        return;
    }
    if let Err(refusal) = compare(out, files, edited) {
        out.begin();
        cli_printed::refusal(out, "", refusal);
        out.end();
    }
}
