// The reading of one channel, of a pane or of a material.
// Stays as C has it: slices are lent apart, a pane and a material are a call each, and a refusal is a number.
ghost use Rattle.std.specs.Prelude.{◌≡◌, ◌<◌, IfOk};
ghost use Rattle.laws.specs.Refusal.{declined};
ghost use Rattle.laws.specs.Rows.{declines};
ghost use Rattle.channel.specs.Channel.{channel_count};
ghost use Rattle.reading.specs.Reading.{reading};
ghost use Rattle.resolve.specs.Row.{channel_in};
ghost use Rattle.edit.specs.Keys.{keys};
ghost use Rattle.player.specs.Parts.{view_of};
ghost use Rattle.menu_checks.specs.Lent.{keys_of};
ghost use Rattle.menu_readings.specs.Rows.{row_channel_rows, read_table};
ghost use Rattle.menu_readings.specs.Readings.{active_in, read_pane_of, read_material_of};

use crate::active_in;
use crate::checked::check_menu;
use book::Book;
use channel::{MATERIAL_CHANNELS, PANE_CHANNELS, Reached, of_material, of_pane};
use laws::refusal::ACCEPTED;
use laws::{Refusal, ask};
use menu_checks::Lent;
use player::Player;
use reading::Reading;

// One channel's reading.
#[derive(Clone, Copy)]
pub struct ReadOne {
    pub refusal: u8,
    pub reading: Reading,
}

impl ReadOne {
    ghost use Rattle.std.specs.Prelude.{◌≡◌};
    ghost use Rattle.menu_readings.specs.Handed.{one};

    fn handed(reading: Result<Reading, Refusal>) -> ReadOne
        ensures { result ≡ one reading }
    {
        match reading {
            Ok(reading) => ReadOne {
                refusal: ACCEPTED,
                reading,
            },
            Err(e) => ReadOne {
                refusal: e.number(),
                reading: Reading::Nothing,
            },
        }
    }
}

// The channel of the book that is channel k of a row. Row 7.
#[tactic(auto, using(laws::specs::Refused::refused, channel::specs::Within::pane_below, channel::specs::Within::material_below), unfolding(crate::specs::Rows::pane_channel_rows, crate::specs::Rows::material_channel_rows, laws::specs::Rows::declines, laws::specs::Rows::unless))]
fn channel_of(book: &Book<'_>, row: Reached, k: usize) -> Result<usize, Refusal>
    ensures declined { declined result ≡ declines (row_channel_rows book.now.bytes.now row k) }
    ensures channel { IfOk result (λ c. c ≡ channel_in book.now.bytes.now row k) }
    ensures below { IfOk result (λ c. c < channel_count book.now.bytes.now) }
{
    match row {
        Reached::Pane(p) => {
            let has = p < book.pane_count() && k < PANE_CHANNELS;
            ask(has, Refusal::NoSuchRow)?;
            Ok(of_pane(p, k))
        }
        Reached::Material(m) => {
            let has = m < book.material_count() && k < MATERIAL_CHANNELS;
            ask(has, Refusal::NoSuchRow)?;
            Ok(of_material(book, m, k))
        }
    }
}

// The reading of channel k of a row of the book.
#[tactic(auto, using(laws::specs::Refused::refused), unfolding(crate::specs::Rows::read_table, laws::specs::Rows::declines, laws::specs::Rows::unless))]
fn row_reading(
    lent: Lent<'_>,
    b: &[u8],
    p: &Player,
    row: Reached,
    k: usize,
) -> Result<Reading, Refusal>
    ensures declined { declined result ≡ declines (read_table lent.entry.sheet.now b.now p.now (keys_of lent.entry) row k) }
    ensures reading { IfOk result (λ r. r ≡ reading lent.entry.sheet.now b.now lent.entry.frames.now lent.entry.values.now lent.entry.slopes.now (active_in (view_of p.now)) (channel_in b.now row k)) }
{
    let menu = check_menu(lent, b, p)?;
    let c = channel_of(&menu.book, row, k)?;
    Ok(menu.read_channel(active_in(p), c))
}

// One of the channels of a pane. Refusals 1 to 5, 7.
#[tactic(auto, using(laws::specs::Refused::refused), unfolding(crate::specs::Readings::read_pane_of, crate::specs::Readings::one_of, crate::specs::Rows::read_pane_table, crate::specs::Rows::read_table))]
pub fn read_pane(
    p: Player,
    s: &[u8],
    b: &[u8],
    frames: &[f32],
    values: &[f32],
    slopes: &[f32],
    pane: u16,
    channel: u16,
) -> ReadOne
    ensures { result ≡ read_pane_of s.now b.now p (keys frames.now values.now slopes.now) pane channel }
{
    let lent = Lent::new(s, frames, values, slopes);
    let row = Reached::Pane(pane as usize);
    ReadOne::handed(row_reading(lent, b, &p, row, channel as usize))
}

// One of the channels of a material. Refusals 1 to 5, 7.
#[tactic(auto, using(laws::specs::Refused::refused), unfolding(crate::specs::Readings::read_material_of, crate::specs::Readings::one_of, crate::specs::Rows::read_material_table, crate::specs::Rows::read_table))]
pub fn read_material(
    p: Player,
    s: &[u8],
    b: &[u8],
    frames: &[f32],
    values: &[f32],
    slopes: &[f32],
    material: u16,
    channel: u16,
) -> ReadOne
    ensures { result ≡ read_material_of s.now b.now p (keys frames.now values.now slopes.now) material channel }
{
    let lent = Lent::new(s, frames, values, slopes);
    let row = Reached::Material(material as usize);
    ReadOne::handed(row_reading(lent, b, &p, row, channel as usize))
}
