// Edits, undo, redo and saving.
// Stays as C has it: slices are lent apart, each exported name is one call, and a refusal is a number.
ghost use Rattle.std.specs.Prelude.{◌≡◌};
ghost use Rattle.edit.specs.Keys.{keys};
ghost use Rattle.menu.specs.Calls.{gave, gave_edit, wrote, edit_of, undo_of, redo_of, save_of};

use edit::request::Request;
use menu::{Edited, Played};
use player::Player;

// Both edits are inlined, so that the export makes their answer in one place.
#[inline(always)]
pub fn menu_key_edit(
    player: Player,
    sheet: &[u8],
    frames: &mut [f32],
    values: &mut [f32],
    slopes: &mut [f32],
    track: u16,
    key: u16,
    frame: f32,
    value: f32,
) -> Edited
    ensures { gave_edit result (keys frames.new values.new slopes.new) ≡ edit_of sheet.now player (keys frames.old values.old slopes.old) track key (Request.Key frame value) }
{
    menu::key_edit(
        player, sheet, frames, values, slopes, track, key, frame, value,
    )
}

#[inline(always)]
pub fn menu_slope_edit(
    player: Player,
    sheet: &[u8],
    frames: &mut [f32],
    values: &mut [f32],
    slopes: &mut [f32],
    track: u16,
    key: u16,
    slope: f32,
) -> Edited
    ensures { gave_edit result (keys frames.new values.new slopes.new) ≡ edit_of sheet.now player (keys frames.old values.old slopes.old) track key (Request.Slope slope) }
{
    menu::slope_edit(player, sheet, frames, values, slopes, track, key, slope)
}

pub fn menu_undo(
    player: Player,
    sheet: &[u8],
    frames: &mut [f32],
    values: &mut [f32],
    slopes: &mut [f32],
) -> Played
    ensures { gave result (keys frames.new values.new slopes.new) ≡ undo_of sheet.now player (keys frames.old values.old slopes.old) }
{
    menu::undo(player, sheet, frames, values, slopes)
}

pub fn menu_redo(
    player: Player,
    sheet: &[u8],
    frames: &mut [f32],
    values: &mut [f32],
    slopes: &mut [f32],
) -> Played
    ensures { gave result (keys frames.new values.new slopes.new) ≡ redo_of sheet.now player (keys frames.old values.old slopes.old) }
{
    menu::redo(player, sheet, frames, values, slopes)
}

pub fn menu_save(
    player: Player,
    sheet: &[u8],
    frames: &[f32],
    values: &[f32],
    slopes: &[f32],
    out: &mut [u8],
) -> u8
    ensures { wrote result out.new ≡ save_of sheet.now player (keys frames.now values.now slopes.now) out.old }
{
    menu::save(player, sheet, frames, values, slopes, out)
}
