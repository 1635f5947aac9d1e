// Names, which the calls of `menu` hand back as a part of the sheet or of the book, copied into a lent output.
// Stays as C has it: slices are lent apart, each exported name is one call, and a refusal is a number.
// A refusal is told by a match at the call's end: a function over a `Result` would take what the call writes, too.
ghost use Rattle.std.specs.Prelude.{◌≡◌, length};
ghost use Rattle.edit.specs.Keys.{keys};
ghost use Rattle.menu.specs.Calls.{wrote, written_by};
ghost use Rattle.field.specs.Name.{name_bytes};
ghost use Rattle.menu_c.specs.Naming.{name_rows, next_name_into, texture_name_into};

use field::NAME_BYTES;
use laws::Refusal;
use laws::refusal::ACCEPTED;
use player::Player;

#[tactic(auto, using(crate::proofs::Handed::handed_not))]
fn hand_out(name: &[u8], out: &mut [u8]) -> u8
    requires { length name.now ≡ name_bytes }
    ensures { wrote result out.new ≡ written_by (name_rows out.old) name.now out.old }
{
    if out.len() != NAME_BYTES {
        return Refusal::OutputLength.number();
    }
    field::copy(name, out);
    ACCEPTED
}

// The name that follows an animation, into 24 bytes: all zero where it has none. Refusals 1, 6, 13.
pub fn menu_next_name(sheet: &[u8], animation: u16, out: &mut [u8]) -> u8
    ensures { wrote result out.new ≡ next_name_into sheet.now animation out.old }
{
    match menu::find_next_name(sheet, animation) {
        Ok(name) => hand_out(name, out),
        Err(e) => e.number(),
    }
}

// The name of a material's texture slot, into 24 bytes. Refusals 1 to 5, 7, 13.
pub fn menu_texture_name<'a>(
    player: Player,
    sheet: &'a [u8],
    book: &'a [u8],
    frames: &[f32],
    values: &[f32],
    slopes: &[f32],
    material: u16,
    slot: u16,
    out: &mut [u8],
) -> u8
    ensures { wrote result out.new ≡ texture_name_into sheet.now book.now player (keys frames.now values.now slopes.now) material slot out.old }
{
    match menu_readings::find_texture_name(
        &player, sheet, book, frames, values, slopes, material, slot,
    ) {
        Ok(name) => hand_out(name, out),
        Err(e) => e.number(),
    }
}
