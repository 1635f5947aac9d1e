// Names, which the calls of `menu` hand back as a part of the sheet or of the book, copied into a lent output.
// Stays as C has it: slices are lent apart, each exported name is one call, and a refusal is a number.
ghost use Rattle.std.specs.Prelude.{◌≡◌};
ghost use Rattle.edit.specs.Keys.{keys};
ghost use Rattle.menu.specs.Calls.{wrote};
ghost use Rattle.menu_c.specs.Naming.{next_name_into, texture_name_into};

use player::Player;

// The name that follows an animation, into 24 bytes: all zero where it has none. Refusals 1, 6, 13.
#[unsafe(no_mangle)]
pub extern "C" fn menu_next_name(sheet: &[u8], animation: u16, out: &mut [u8]) -> u8
    ensures { wrote result out.new ≡ next_name_into sheet.now animation out.old }
{
    menu_c::naming::menu_next_name(sheet, animation, out)
}

// The name of a material's texture slot, into 24 bytes. Refusals 1 to 5, 7, 13.
#[unsafe(no_mangle)]
pub extern "C" fn menu_texture_name<'a>(
    player: Player,
    sheet: &'a [u8],
    book: &'a [u8],
    frames: &[f32],
    values: &[f32],
    slopes: &[f32],
    material: u16,
    slot: u16,
    out: &mut [u8],
) -> u8
    ensures { wrote result out.new ≡ texture_name_into sheet.now book.now player (keys frames.now values.now slopes.now) material slot out.old }
{
    menu_c::naming::menu_texture_name(
        player, sheet, book, frames, values, slopes, material, slot, out,
    )
}
