// The readings: one channel, all channels, resolving, and the cascade.
// Stays as C has it: slices are lent apart, each exported name is one call, and a refusal is a number.
ghost use Rattle.std.specs.Prelude.{◌≡◌};
ghost use Rattle.edit.specs.Keys.{keys};
ghost use Rattle.menu_readings.specs.Readings.{read_pane_of, read_material_of, gave_tables, read_all_of, resolve_pane_of, resolve_srt_of, gave_cascade, cascade_of};
ghost use Rattle.menu_c.specs.Answers.{read_one_of};

use menu_c::ReadOne;
use menu_readings::{ResolvedPane, ResolvedSrt};
use player::Player;

#[unsafe(no_mangle)]
pub extern "C" fn menu_read_pane(
    player: Player,
    sheet: &[u8],
    book: &[u8],
    frames: &[f32],
    values: &[f32],
    slopes: &[f32],
    pane: u16,
    channel: u16,
) -> ReadOne
    ensures { result ≡ read_one_of (read_pane_of sheet.now book.now player (keys frames.now values.now slopes.now) pane channel) }
{
    menu_c::readings::menu_read_pane(player, sheet, book, frames, values, slopes, pane, channel)
}

#[unsafe(no_mangle)]
pub extern "C" fn menu_read_material(
    player: Player,
    sheet: &[u8],
    book: &[u8],
    frames: &[f32],
    values: &[f32],
    slopes: &[f32],
    material: u16,
    channel: u16,
) -> ReadOne
    ensures { result ≡ read_one_of (read_material_of sheet.now book.now player (keys frames.now values.now slopes.now) material channel) }
{
    menu_c::readings::menu_read_material(
        player, sheet, book, frames, values, slopes, material, channel,
    )
}

#[unsafe(no_mangle)]
pub extern "C" fn menu_read_all(
    player: Player,
    sheet: &[u8],
    book: &[u8],
    frames: &[f32],
    values: &[f32],
    slopes: &[f32],
    marks: &mut [u8],
    numbers: &mut [f32],
) -> u8
    ensures { gave_tables result marks.new numbers.new ≡ read_all_of sheet.now book.now player (keys frames.now values.now slopes.now) marks.old numbers.old }
{
    menu_c::readings::menu_read_all(player, sheet, book, frames, values, slopes, marks, numbers)
}

#[unsafe(no_mangle)]
pub extern "C" fn menu_resolve_pane(
    player: Player,
    sheet: &[u8],
    book: &[u8],
    frames: &[f32],
    values: &[f32],
    slopes: &[f32],
    pane: u16,
) -> ResolvedPane
    ensures { result ≡ resolve_pane_of sheet.now book.now player (keys frames.now values.now slopes.now) pane }
{
    menu_c::readings::menu_resolve_pane(player, sheet, book, frames, values, slopes, pane)
}

#[unsafe(no_mangle)]
pub extern "C" fn menu_resolve_srt(
    player: Player,
    sheet: &[u8],
    book: &[u8],
    frames: &[f32],
    values: &[f32],
    slopes: &[f32],
    material: u16,
    layer: u16,
) -> ResolvedSrt
    ensures { result ≡ resolve_srt_of sheet.now book.now player (keys frames.now values.now slopes.now) material layer }
{
    menu_c::readings::menu_resolve_srt(player, sheet, book, frames, values, slopes, material, layer)
}

#[unsafe(no_mangle)]
pub extern "C" fn menu_cascade(
    player: Player,
    sheet: &[u8],
    book: &[u8],
    frames: &[f32],
    values: &[f32],
    slopes: &[f32],
    visible: &mut [u8],
    alpha: &mut [f32],
    influence: &mut [f32],
) -> u8
    ensures { gave_cascade result visible.new alpha.new influence.new ≡ cascade_of sheet.now book.now player (keys frames.now values.now slopes.now) visible.old alpha.old influence.old }
{
    menu_c::readings::menu_cascade(
        player, sheet, book, frames, values, slopes, visible, alpha, influence,
    )
}
