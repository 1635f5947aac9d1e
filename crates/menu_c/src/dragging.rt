// Dragging a key.
// Stays as C has it: slices are lent apart, each exported name is one call, and a refusal is a number.
ghost use Rattle.std.specs.Prelude.{◌≡◌};
ghost use Rattle.edit.specs.Keys.{keys};
ghost use Rattle.menu.specs.Calls.{gave, gave_edit, open_of, drag_of, drop_of, abandon_of};

use menu::{Edited, Played};
use player::Player;

pub fn menu_open_drag(
    player: Player,
    sheet: &[u8],
    frames: &[f32],
    values: &[f32],
    slopes: &[f32],
    track: u16,
    key: u16,
) -> Played
    ensures { result ≡ open_of sheet.now player (keys frames.now values.now slopes.now) track key }
{
    menu::open_drag(player, sheet, frames, values, slopes, track, key)
}

pub fn menu_drag(
    player: Player,
    sheet: &[u8],
    frames: &mut [f32],
    values: &mut [f32],
    slopes: &mut [f32],
    frame: f32,
    value: f32,
) -> Edited
    ensures { gave_edit result (keys frames.new values.new slopes.new) ≡ drag_of sheet.now player (keys frames.old values.old slopes.old) frame value }
{
    menu::drag(player, sheet, frames, values, slopes, frame, value)
}

pub fn menu_drop_drag(
    player: Player,
    sheet: &[u8],
    frames: &[f32],
    values: &[f32],
    slopes: &[f32],
) -> Edited
    ensures { result ≡ drop_of sheet.now player (keys frames.now values.now slopes.now) }
{
    menu::drop_drag(player, sheet, frames, values, slopes)
}

pub fn menu_abandon_drag(
    player: Player,
    sheet: &[u8],
    frames: &mut [f32],
    values: &mut [f32],
    slopes: &mut [f32],
) -> Played
    ensures { gave result (keys frames.new values.new slopes.new) ≡ abandon_of sheet.now player (keys frames.old values.old slopes.old) }
{
    menu::abandon_drag(player, sheet, frames, values, slopes)
}
