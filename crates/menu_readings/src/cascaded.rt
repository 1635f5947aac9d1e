// The cascade over the panes, by parent.
// Stays as C has it: slices are lent apart, and a refusal is a number. A refusal is told by a match at the call's end: a function over a `Result` would take what the call writes, too.
ghost use Rattle.std.specs.Prelude.{◌≡◌, length, IfOk, OnOk};
ghost use Rattle.laws.specs.Refusal.{declined};
ghost use Rattle.laws.specs.Rows.{declines};
ghost use Rattle.book.specs.Sizes.{pane_count};
ghost use Rattle.edit.specs.Keys.{keys};
ghost use Rattle.menu_checks.specs.Lent.{keys_of};
ghost use Rattle.menu_readings.specs.Lent.{MenuOf};
ghost use Rattle.menu_readings.specs.Rows.{cascade_table};
ghost use Rattle.menu_readings.specs.Readings.{gave_cascade, cascade_of};

use crate::active_in;
use crate::checked::check_menu;
use laws::refusal::ACCEPTED;
use laws::{Refusal, ask};
use menu_checks::Lent;
use player::Player;
use reading::Menu;

#[tactic(auto, using(laws::specs::Refused::refused), unfolding(crate::specs::Rows::cascade_table, crate::specs::Rows::cascade_rows, laws::specs::Rows::declines, laws::specs::Rows::unless))]
fn check_cascade<'a>(
    lent: Lent<'a>,
    b: &'a [u8],
    p: &Player,
    visible: &[u8],
    alpha: &[f32],
    influence: &[f32],
) -> Result<Menu<'a>, Refusal>
    ensures declined { declined result ≡ declines (cascade_table lent.entry.sheet.now b.now p.now (keys_of lent.entry) visible.now alpha.now influence.now) }
    ensures lent { IfOk result (λ m. MenuOf m lent.entry b.now) }
    ensures visible_long { OnOk result (length visible.now ≡ pane_count b.now) }
    ensures alpha_long { OnOk result (length alpha.now ≡ pane_count b.now) }
    ensures influence_long { OnOk result (length influence.now ≡ pane_count b.now) }
{
    let menu = check_menu(lent, b, p)?;
    let n = menu.book.pane_count();
    ask(
        (visible.len() == n) & (alpha.len() == n) & (influence.len() == n),
        Refusal::OutputLength,
    )?;
    Ok(menu)
}

// Each pane's visibility and alpha under its parents, and the influence that it hands its children. Refusals 1 to 5, 13.
#[tactic(auto, using(laws::specs::Refused::refused), unfolding(crate::specs::Readings::cascade_of, crate::specs::Readings::cascaded_of))]
pub fn cascade(
    p: Player,
    s: &[u8],
    b: &[u8],
    frames: &[f32],
    values: &[f32],
    slopes: &[f32],
    visible: &mut [u8],
    alpha: &mut [f32],
    influence: &mut [f32],
) -> u8
    ensures { gave_cascade result visible.new alpha.new influence.new ≡ cascade_of s.now b.now p (keys frames.now values.now slopes.now) visible.old alpha.old influence.old }
{
    let lent = Lent::new(s, frames, values, slopes);
    match check_cascade(lent, b, &p, visible, alpha, influence) {
        Ok(menu) => {
            resolve::cascade(&menu, active_in(&p), visible, alpha, influence);
            ACCEPTED
        }
        Err(e) => e.number(),
    }
}
