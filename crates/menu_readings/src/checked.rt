// The rows that every reading asks.
ghost use Rattle.std.specs.Prelude.{◌≡◌, IfOk};
ghost use Rattle.laws.specs.Refusal.{declined};
ghost use Rattle.laws.specs.Rows.{declines};
ghost use Rattle.menu_checks.specs.Lent.{keys_of};
ghost use Rattle.menu_checks.specs.Rows.{broken_rows, book_rows, reading_rows, behind};
ghost use Rattle.menu_readings.specs.Lent.{MenuOf};

use laws::Refusal;
use menu_checks::{Lent, check_sound};
use player::Player;
use reading::Menu;

// Rows 1 to 5: sheet, book, keys and player.
#[tactic(auto, using(laws::specs::Refused::refused, menu_checks::proofs::Behind::behind_first, menu_checks::proofs::Behind::reading_parts), unfolding(laws::specs::Rows::declines, laws::specs::Rows::unless))]
pub fn check_menu<'a>(lent: Lent<'a>, b: &'a [u8], p: &Player) -> Result<Menu<'a>, Refusal>
    ensures declined { declined result ≡ declines (reading_rows lent.entry.sheet.now b.now p.now (keys_of lent.entry)) }
    ensures parts { declined result ≡ behind (declines (book_rows lent.entry.sheet.now b.now (keys_of lent.entry))) (declines (broken_rows lent.entry.sheet.now p.now (keys_of lent.entry))) }
    ensures lent { IfOk result (λ m. MenuOf m lent.entry b.now) }
{
    let menu = lent.check_book(b)?;
    check_sound(p, &menu.ready)?;
    Ok(menu)
}
