// Where the channel of an edited track reads differently: the whole frames, and the largest change.
ghost use Rattle.std.specs.Prelude.{◌<◌};
ghost use Rattle.sheet.specs.Sizes.{target_count};

use crate::compared::{Compared, Track};
use crate::runs::Runs;
use cli_page::Out;
use reading::Reading;
use sheet::Sheet;

// A frame that reads differently.
#[derive(Clone, Copy)]
struct Change {
    at: u64,
    size: f32,
    before: Reading,
    after: Reading,
}

// How large a change is. Shown and hidden, and rows of textures, are no numbers: one change is as large as another.
fn size_of(before: Reading, after: Reading) -> f32 {
    match before {
        Reading::Number(_) | Reading::Level(_) => reach::change(before, after),
        _ => 1.0,
    }
}

impl Change {
    // Stays by hand: a NaN is above every number here, and beside them in the order of f32.
    fn is_above(&self, other: &Change) -> bool {
        let x = self.size;
        let y = other.size;
        !y.is_nan() && (x.is_nan() || y < x)
    }
}

// The name of a texture of the sheet, where there is that row.
fn texture<'a>(sheet: Sheet<'a>, r: Reading) -> Option<&'a [u8]> {
    match r {
        Reading::Row(row) if (row as usize) < sheet.texture_count() => {
            Some(sheet.texture_name(row as usize))
        }
        _ => None,
    }
}

// What is read, as other commands tell it; in JSON an object of its own.
fn say_side(out: &mut Out, sheet: Sheet<'_>, name: &str, r: Reading) {
    if out.json {
        out.key("", name);
        out.begin();
    }
    cli_facts::say_reading(out, r, texture(sheet, r));
    if out.json {
        out.say("}");
    }
}

fn say_largest(out: &mut Out, sheet: Sheet<'_>, largest: Change) {
    let before = largest.before;
    match before {
        Reading::Number(_) => {
            cli_numbers::number(out, " largest change ", "change", largest.size);
        }
        Reading::Level(_) => {
            out.count(" largest change ", "change", float::cut_u64(largest.size));
        }
        _ => out.lead(" first change"),
    }
    out.count(" at frame ", "at", largest.at);
    out.lead(":");
    say_side(out, sheet, "before", before);
    out.lead(" to");
    say_side(out, sheet, "after", largest.after);
}

// The frames before `end` at which a track reads differently, both ends of the animation among them, and the first of the largest changes.
pub fn say_changes(out: &mut Out, compared: Compared<'_>, t: usize, end: u32)
    requires { t < target_count compared.sets.old.sheet.bytes.now }
{
    let sheet = compared.sets.old.sheet;
    let old = Track::of(compared.before().ready, t);
    let new = Track::of(compared.after().ready, t);
    let mut runs = Runs::begin(out);
    let mut largest: Option<Change> = None;
    for f in 0..end {
        let at = f as u64;
        let x = std::num::nearest_u32_to_f32(f);
        let (before, after) = (old.reading(x), new.reading(x));
        let same = reach::same_reading(before, after);
        runs.next(out, at, !same);
        if same {
            continue;
        }
        let change = Change {
            at,
            size: size_of(before, after),
            before,
            after,
        };
        if largest.is_none_or(|l| change.is_above(&l)) {
            largest = Some(change);
        }
    }
    runs.end(out);
    match largest {
        Some(largest) => say_largest(out, sheet, largest),
        None => out.lead(": reads the same at every whole frame"),
    }
}
