// The name of the texture in a material's slot, as part of the sheet or of the book.
ghost use Rattle.std.specs.Prelude.{◌≡◌, ◌<◌, IfSome};
ghost use Rattle.sheet.specs.Sizes.{texture_count};
ghost use Rattle.book.specs.Sizes.{material_count};
ghost use Rattle.keys.specs.Checked.{KeysChecked};
ghost use Rattle.channel.specs.Channel.{material_layers, of_material, slot_channel};
ghost use Rattle.reading.specs.Reading.{reading};
ghost use Rattle.resolve.specs.Resolve.{row_in, texture_of};

use book::Book;
use curve::Keys;
use keys::Ready;
use reading::{At, Menu, Reading};
use sheet::Sheet;

// The row of the sheet's texture names that a reading names. Stays a match: a method that gives the row or none would be the same one.
fn row_in(r: Reading) -> Option<usize>
    ensures { result ≡ row_in r }
{
    match r {
        Reading::Row(k) => Some(k as usize),
        _ => None,
    }
}

// The row of the sheet's texture names that overrides a material's slot.
#[tactic(auto, using(channel::specs::Slot::slot_below, channel::specs::Within::material_below, crate::specs::Textures::named_below))]
fn texture_row(menu: &Menu<'_>, active: Option<At>, m: usize, slot: usize) -> Option<usize>
    requires material { m < material_count menu.now.book.bytes.now }
    requires slot { slot < material_layers }
    ensures row { result ≡ row_in (reading menu.now.ready.sheet.bytes.now menu.now.book.bytes.now menu.now.ready.keys.frames.now menu.now.ready.keys.values.now menu.now.ready.keys.slopes.now active (of_material menu.now.book.bytes.now m (slot_channel slot))) }
    ensures below { IfSome result (λ k. k < texture_count menu.now.ready.sheet.bytes.now) }
{
    let k = channel::slot_channel(slot as u16) as usize;
    let c = channel::of_material(&menu.book, m, k);
    row_in(menu.read_channel(active, c))
}

// The name is part of the sheet or of the book, so it outlives the keys.
#[tactic(auto, unfolding(crate::specs::Resolve::texture_of))]
pub fn texture_name<'a>(
    sheet: Sheet<'a>,
    book: Book<'a>,
    keys: Keys<'_>,
    active: Option<At>,
    m: usize,
    slot: usize,
) -> &'a [u8]
    requires keys { KeysChecked sheet.bytes.now keys.frames.now keys.values.now keys.slopes.now }
    requires material { m < material_count book.bytes.now }
    requires slot { slot < material_layers }
    ensures { result.now ≡ texture_of sheet.entry.bytes.now book.entry.bytes.now keys.entry.frames.now keys.entry.values.now keys.entry.slopes.now active m slot }
{
    let menu = Menu {
        ready: Ready { sheet, keys },
        book,
    };
    match texture_row(&menu, active, m, slot) {
        Some(row) => sheet.texture_name(row),
        None => book.material_texture(m, slot),
    }
}
