// Why a call was declined: the refusal's number, and of the things that it may mean the one that it was. What was looked at first by the call is told first.
#![tactic(auto)]

use book::Book;
use cli_calls::{Action, Call, Query};
use cli_facts::Files;
use cli_page::Out;
use cli_printed::Owner;
use edit::NONE;
use laws::Refusal;
use sheet::Sheet;

fn words(out: &mut Out, text: &str) {
    out.word(": ", "words", text);
}

// `: no such THING: OWNER has N`
fn no_such(out: &mut Out, thing: &str, owner: &str, n: usize) {
    words(out, thing);
    out.count(owner, "has", n as u64);
}

fn no_animation(out: &mut Out, call: Call<'_>, sheet: Sheet<'_>) {
    match call {
        Call::Make(Action::Play { .. }) | Call::Show(Query::Next { .. }) => no_such(
            out,
            "no such animation",
            ": the sheet has ",
            sheet.animation_count(),
        ),
        _ => words(out, "nothing is active"),
    }
}

// A track that is there, and isn't the active animation's.
fn other_track(out: &mut Out, track: u16, animation: usize, active: u16) {
    out.note("words", "the track is of another animation");
    out.count(": track ", "track", track as u64);
    out.count(" is of animation ", "animation", animation as u64);
    out.count(", and ", "active", active as u64);
    out.lead(" is active");
}

fn no_key(out: &mut Out, track: u16, keys: usize) {
    words(out, "no such key");
    out.count(": track ", "track", track as u64);
    out.count(" has ", "has", keys as u64);
}

// Of a track and a key.
#[tactic(auto, using(sheet::specs::Checked::target_content_lem))]
fn no_track(out: &mut Out, active: u16, track: u16, sheet: Sheet<'_>) {
    let tracks = sheet.target_count();
    if (track as usize) >= tracks {
        no_such(out, "no such track", ": the sheet has ", tracks);
        return;
    }
    let row = sheet.target(track as usize);
    let animation = sheet.content(row.content).animation;
    if animation == (active as usize) {
        no_key(out, track, row.count);
    } else {
        other_track(out, track, animation, active);
    }
}

// `part` is the name of what a row of `rows` has `n` of.
fn no_part(out: &mut Out, owner: Owner, row: u16, book: Book<'_>, part: &str, n: usize) {
    let (rows, thing, one) = match owner {
        Owner::Pane => (book.pane_count(), "no such pane", ": a pane has "),
        Owner::Material => (
            book.material_count(),
            "no such material",
            ": a material has ",
        ),
    };
    if (row as usize) >= rows {
        no_such(out, thing, ": the book has ", rows);
    } else {
        no_such(out, part, one, n);
    }
}

fn no_channel(out: &mut Out, owner: Owner, row: u16, book: Book<'_>) {
    let channels = match owner {
        Owner::Pane => channel::PANE_CHANNELS,
        Owner::Material => channel::MATERIAL_CHANNELS,
    };
    no_part(out, owner, row, book, "no such channel", channels);
}

fn no_layer(out: &mut Out, material: u16, book: Book<'_>) {
    let layers = channel::MATERIAL_LAYERS;
    no_part(
        out,
        Owner::Material,
        material,
        book,
        "no such layer",
        layers,
    );
}

// The first whole number of a call that names no pane and no material, and 0 where it takes none: those row 7 doesn't decline. Stays a match:
// nothing is searched.
fn first_whole(call: Call<'_>) -> u16 {
    match call {
        Call::Make(
            Action::Key { track, .. } | Action::Slope { track, .. } | Action::Open { track, .. },
        ) => track,
        Call::Make(Action::Play { animation } | Action::Pose { animation, .. }) => {
            animation.unwrap_or(NONE)
        }
        Call::Show(Query::Next { animation }) => animation,
        _ => 0,
    }
}

// Row 7: what there isn't.
fn none_such(out: &mut Out, active: u16, call: Call<'_>, files: Files<'_>) {
    let Files { sheet, book } = files;
    match call {
        Call::Show(Query::Read { owner, row, .. }) => no_channel(out, owner, row, book),
        Call::Show(Query::ResolvePane { pane }) => no_channel(out, Owner::Pane, pane, book),
        Call::Show(Query::ResolveSrt { material, .. } | Query::Name { material, .. }) => {
            no_layer(out, material, book);
        }
        _ => no_track(out, active, first_whole(call), sheet),
    }
}

// Row 8: which number is not finite.
fn not_finite(call: Call<'_>) -> &'static str {
    match call {
        Call::Make(Action::Tick { .. }) => {
            "the seconds, the frames per second or the frame that they lead to is not finite"
        }
        Call::Make(Action::Slope { .. }) => "the slope is not finite",
        Call::Make(Action::Pose { .. }) => "the frame is not finite",
        Call::Make(Action::Key { frame, .. } | Action::Drag { frame, .. }) if !frame.is_finite() =>
            { "the frame is not finite" }
        _ => "the value is not finite",
    }
}

fn nothing_to_return(call: Call<'_>) -> &'static str {
    match call {
        Call::Make(Action::Undo) => "nothing to undo",
        _ => "nothing to redo",
    }
}

fn dragging(call: Call<'_>) -> &'static str {
    match call {
        Call::Make(Action::Drag { .. } | Action::Drop | Action::Abandon) => "no drag is open",
        _ => "a drag is open",
    }
}

// ` declined N: ` and why; `active` is the animation that is selected.
pub fn say_declined(
    out: &mut Out,
    refusal: Refusal,
    active: u16,
    call: Call<'_>,
    files: Files<'_>,
) {
    cli_printed::refused(out, " ", refusal);
    match refusal {
        Refusal::NoAnimation => no_animation(out, call, files.sheet),
        Refusal::NoSuchRow => none_such(out, active, call, files),
        Refusal::BadArgument => words(out, not_finite(call)),
        Refusal::NothingToTake => words(out, nothing_to_return(call)),
        Refusal::DragState => words(out, dragging(call)),
        _ => cli_printed::meaning(out, refusal),
    }
}
