// What differing keys reach.
// Stays as C has it: slices are lent apart, each exported name is one call, and a refusal is a number.
ghost use Rattle.std.specs.Prelude.{◌≡◌};
ghost use Rattle.edit.specs.Keys.{keys};
ghost use Rattle.reach.specs.Calls.{gave_marks, reach_of};

#[unsafe(no_mangle)]
pub extern "C" fn menu_reach(
    sheet: &[u8],
    book: &[u8],
    frames: &[f32],
    values: &[f32],
    slopes: &[f32],
    new_frames: &[f32],
    new_values: &[f32],
    new_slopes: &[f32],
    animation: u16,
    channels: &mut [u8],
    panes: &mut [u8],
) -> u8
    ensures { gave_marks result channels.new panes.new ≡ reach_of sheet.now book.now (keys frames.now values.now slopes.now) (keys new_frames.now new_values.now new_slopes.now) animation channels.old panes.old }
{
    menu_c::reaching::menu_reach(
        sheet, book, frames, values, slopes, new_frames, new_values, new_slopes, animation,
        channels, panes,
    )
}
