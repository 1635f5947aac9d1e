// The rows of the table that look at what a call takes, whatever it does: 1 the sheet, 2 the book, 3 and 4 the keys, 5 the player. The player is looked at where
// it is: the outward function owns it, and it isn't copied for a check. What a sheet and a book hold is counted in `counts`.
#![tactic(auto)]

mod counts;
mod lent;

ghost use Rattle.std.specs.Prelude.{◌≡◌, true, IfOk, OnOk};
ghost use Rattle.laws.specs.Refusal.{declined};
ghost use Rattle.laws.specs.Rows.{declines};
ghost use Rattle.edit.specs.Keys.{keys};
ghost use Rattle.player.specs.Player.{player_ok};
ghost use Rattle.menu_checks.specs.Rows.{sheet_rows, own_rows, broken_rows, player_rows, behind};

pub use counts::{BookCounts, SheetCounts, book_counts, sheet_counts};
use keys::Ready;
use laws::{Refusal, ask};
pub use lent::Lent;
use player::Player;
use sheet::Sheet;

// Rows 1 and 5: sheet and player.
#[tactic(auto, using(laws::specs::Refused::refused, player::specs::Sound::sound_drag, crate::proofs::Behind::player_parts), unfolding(laws::specs::Rows::declines, laws::specs::Rows::unless))]
pub fn check_player<'a>(p: &Player, s: &'a [u8]) -> Result<Sheet<'a>, Refusal>
    ensures declined { declined result ≡ declines (player_rows s.now p.now) }
    ensures parts { declined result ≡ behind (declines (sheet_rows s.now)) (declines (own_rows s.now p.now)) }
    ensures sheet { IfOk result (λ x. x.bytes.now ≡ s.now) }
    ensures player { OnOk result (player_ok s.now p.now ≡ true) }
{
    let sheet = Sheet::new(s)?;
    ask(p.is_sound(&sheet), Refusal::BrokenState)?;
    Ok(sheet)
}

// Row 5 of a call that takes keys.
#[tactic(auto, using(player::specs::Sound::sound_drag), unfolding(laws::specs::Rows::declines, laws::specs::Rows::unless))]
pub fn check_sound(p: &Player, ready: &Ready) -> Result<(), Refusal>
    ensures declined { declined result ≡ declines (broken_rows ready.now.sheet.bytes.now p.now (keys ready.now.keys.frames.now ready.now.keys.values.now ready.now.keys.slopes.now)) }
    ensures player { OnOk result (player_ok ready.now.sheet.bytes.now p.now ≡ true) }
{
    ask(p.is_sound(&ready.sheet), Refusal::BrokenState)?;
    ask(p.drag.fits(ready), Refusal::BrokenState)
}
