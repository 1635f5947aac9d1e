// The whole reading: every channel of the book.
// Stays as C has it: slices are lent apart, and a refusal is a number. A refusal is told by a match at the call's end: a function over a `Result` would take what the call writes, too.
ghost use Rattle.std.specs.Prelude.{◌≡◌, length, IfOk, OnOk};
ghost use Rattle.laws.specs.Refusal.{declined};
ghost use Rattle.laws.specs.Rows.{declines};
ghost use Rattle.channel.specs.Channel.{channel_count};
ghost use Rattle.edit.specs.Keys.{keys};
ghost use Rattle.menu_checks.specs.Lent.{keys_of};
ghost use Rattle.menu_readings.specs.Lent.{MenuOf};
ghost use Rattle.menu_readings.specs.Rows.{read_all_table};
ghost use Rattle.menu_readings.specs.Readings.{gave_tables, read_all_of};

use crate::active_in;
use crate::checked::check_menu;
use laws::refusal::ACCEPTED;
use laws::{Refusal, ask};
use menu_checks::Lent;
use player::Player;
use reading::Menu;

#[tactic(auto, using(laws::specs::Refused::refused), unfolding(crate::specs::Rows::read_all_table, crate::specs::Rows::tables_rows, laws::specs::Rows::declines, laws::specs::Rows::unless))]
fn check_read_all<'a>(
    lent: Lent<'a>,
    b: &'a [u8],
    p: &Player,
    marks: &[u8],
    numbers: &[f32],
) -> Result<Menu<'a>, Refusal>
    ensures declined { declined result ≡ declines (read_all_table lent.entry.sheet.now b.now p.now (keys_of lent.entry) marks.now numbers.now) }
    ensures lent { IfOk result (λ m. MenuOf m lent.entry b.now) }
    ensures marks_long { OnOk result (length marks.now ≡ channel_count b.now) }
    ensures numbers_long { OnOk result (length numbers.now ≡ channel_count b.now) }
{
    let menu = check_menu(lent, b, p)?;
    let n = channel::channel_count(&menu.book);
    ask(
        (marks.len() == n) & (numbers.len() == n),
        Refusal::OutputLength,
    )?;
    Ok(menu)
}

// Every channel of the book: a mark (0 or 1) and a number each, panes first. Refusals 1 to 5, 13.
#[tactic(auto, using(laws::specs::Refused::refused), unfolding(crate::specs::Readings::read_all_of, crate::specs::Readings::tables_of))]
pub fn read_all(
    p: Player,
    s: &[u8],
    b: &[u8],
    frames: &[f32],
    values: &[f32],
    slopes: &[f32],
    marks: &mut [u8],
    numbers: &mut [f32],
) -> u8
    ensures { gave_tables result marks.new numbers.new ≡ read_all_of s.now b.now p (keys frames.now values.now slopes.now) marks.old numbers.old }
{
    let lent = Lent::new(s, frames, values, slopes);
    match check_read_all(lent, b, &p, marks, numbers) {
        Ok(menu) => {
            menu.read_all(active_in(&p), marks, numbers);
            ACCEPTED
        }
        Err(e) => e.number(),
    }
}
