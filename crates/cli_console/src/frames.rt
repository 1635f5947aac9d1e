// The command `frames`: an animation posed at one frame after the other.
use crate::open::open;
use cli_command::{begin_error, end_error, progress, progress_end, span_of, whole_argument};
use cli_facts::{Files, Lead, Loaded, Screen};
use cli_page::Out;
use menu_checks::Lent;
use std::ops::Range;

// Progress is told each time this many frames are done.
const EVERY: u64 = 1000;

// What each frame overrides, and its cascade.
fn each_frame(out: &mut Out, files: Files<'_>, loaded: &Loaded, animation: u16, span: Range<u32>) {
    let sheet = files.sheet.bytes;
    let keys = loaded.keys();
    let lent = Lent::new(sheet, keys.frames, keys.values, keys.slopes);
    let total = span.end.saturating_sub(span.start) as u64;
    let mut done = 0u64;
    for f in span.start..span.end {
        let x = std::num::nearest_u32_to_f32(f);
        let posed = menu::pose(loaded.player, sheet, animation, x).player;
        let lead = Lead::Frame(f as u64);
        let screen = Screen {
            player: &posed,
            book: files.book,
            lent,
        };
        cli_facts::say_readings(out, lead, screen);
        cli_facts::say_cascade(out, lead, screen);
        done = done.wrapping_add(1);
        progress(out, done, Some(total), EVERY, " frames");
    }
    progress_end(out, done, EVERY);
}

fn no_animation(out: &mut Out, n: u32, animations: usize) {
    begin_error(out);
    out.count("ANIMATION: ", "animation", n as u64);
    out.word(": ", "error", "no such animation");
    out.count(": the sheet has ", "has", animations as u64);
    out.lead(", counted from 0");
    end_error(out);
}

// The frames that the command line asks for.
fn show(out: &mut Out, line: &[u8], files: Files<'_>, loaded: &Loaded) -> Option<()> {
    let sheet = files.sheet;
    let animations = sheet.animation_count();
    let n = whole_argument(out, line, 3, "ANIMATION")?;
    let animation = n as usize;
    if animation >= animations {
        no_animation(out, n, animations);
        return None;
    }
    let span = span_of(out, line, sheet.animation(animation).frames as u32)?;
    cli_info::say_animation(out, sheet, animation);
    each_frame(out, files, loaded, animation as u16, span);
    Some(())
}

// None where what is wrong with the line or a file was told.
pub fn frames(out: &mut Out, line: &[u8]) -> Option<()> {
    open(out, line, 6, |out, files, loaded| {
        // what is wrong with the line was told where it was found
        let _ = show(out, line, files, &loaded);
    })
}
