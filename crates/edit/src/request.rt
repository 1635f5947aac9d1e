// What is asked of a key, and of which key it may be asked.
ghost use Rattle.std.specs.Prelude.{◌≡◌};
ghost use Rattle.laws.specs.Refusal.{declined};
ghost use Rattle.laws.specs.Rows.{declines};
ghost use Rattle.edit.specs.Edit.{track_rows};

use crate::NONE;
use crate::spot::key_in;
use laws::{Refusal, ask};
use sheet::Sheet;

// What is asked of a key: a frame and a value, or a slope.
#[derive(Clone, Copy)]
pub enum Request {
    Key(f32, f32),
    Slope(f32),
}

// Rows 6, 15 and 7: something is active, no drag is open, and the track is the active animation's and has the key.
// Stays a number in `selection`, NONE for none: C's player has it so.
#[tactic(auto, unfolding(crate::specs::Edit::track_rows, laws::specs::Rows::declines, laws::specs::Rows::unless))]
pub fn check_track(
    sheet: &Sheet,
    selection: u16,
    dragging: bool,
    track: u16,
    key: u16,
) -> Result<(), Refusal>
    ensures { declined result ≡ declines (track_rows sheet.now.bytes.now selection dragging track key) }
{
    ask(selection != NONE, Refusal::NoAnimation)?;
    ask(!dragging, Refusal::DragState)?;
    ask(key_in(sheet, selection, track, key), Refusal::NoSuchRow)
}
