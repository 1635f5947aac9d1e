// Behind the animations: every pane and material touched or untouched, and the counts.
use crate::compared::Compared;
use crate::marks::{Marks, PaneMark};
use book::Book;
use cli_page::Out;
use edit::put::same_key;
use reach::TwoSets;

fn say_how(out: &mut Out, mark: PaneMark) {
    let PaneMark { own, follows } = mark;
    if out.json {
        out.flag("", "touched", own | follows);
        out.flag("", "own", own);
        out.flag("", "follows", follows);
        return;
    }
    out.say(match (own, follows) {
        (true, true) => " touched: own channel, follows",
        (true, false) => " touched: own channel",
        (false, true) => " touched: follows",
        (false, false) => " untouched",
    });
}

fn say_panes(out: &mut Out, book: Book<'_>, marks: &Marks) {
    for i in 0..book.pane_count() {
        out.begin();
        cli_printed::pane(out, "pane ", book, i);
        say_how(out, marks.pane(i));
        out.end();
    }
}

fn say_materials(out: &mut Out, book: Book<'_>, marks: &Marks) {
    for i in 0..book.material_count() {
        let touched = marks.has_material(book, i);
        out.begin();
        cli_printed::material(out, "material ", book, i);
        if out.json {
            out.flag("", "touched", touched);
        } else {
            out.say(if touched { " touched" } else { " untouched" });
        }
        out.end();
    }
}

// How many tracks have a key that differs.
fn edited_tracks(sets: &TwoSets<'_>) -> usize {
    (0..sets.old.sheet.target_count())
        .filter(|t| !sets.same_track(*t))
        .count()
}

// How many keys differ, bit for bit.
fn edited_keys(sets: &TwoSets<'_>) -> usize {
    (0..sets.old.sheet.key_count())
        .filter(|i| !same_key(sets.old.keys.key(*i), sets.new.key(*i)))
        .count()
}

// What was edited.
fn say_edits(out: &mut Out, sets: &TwoSets<'_>) {
    let tracks = edited_tracks(sets);
    let keys = edited_keys(sets);
    out.begin();
    out.count("edited tracks ", "tracks", tracks as u64);
    out.count(" keys ", "keys", keys as u64);
}

// What was touched, and the rest.
fn say_counts(out: &mut Out, book: Book<'_>, marks: &Marks) {
    let all_panes = book.pane_count();
    let all_materials = book.material_count();
    let channels = marks.touched_channels(book);
    let panes = marks.touched_panes(book);
    let materials = marks.touched_materials(book);
    let other_panes = all_panes.saturating_sub(panes);
    let other_materials = all_materials.saturating_sub(materials);
    out.count(" touched channels ", "touched_channels", channels as u64);
    out.count(" panes ", "touched_panes", panes as u64);
    out.count(" materials ", "touched_materials", materials as u64);
    out.count(" untouched panes ", "untouched_panes", other_panes as u64);
    out.count(" materials ", "untouched_materials", other_materials as u64);
    out.end();
}

// The marks are those of all animations together.
pub fn say_summary(out: &mut Out, compared: Compared<'_>, marks: &Marks) {
    let book = compared.book;
    say_panes(out, book, marks);
    say_materials(out, book, marks);
    say_edits(out, &compared.sets);
    say_counts(out, book, marks);
}
