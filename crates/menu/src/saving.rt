// Saving: the sheet with the keys as they are now.
// Stays as C has it: an outward call is lent its slices apart (inside they are one `Lent`), and its refusal is a number.
// A refusal is told by a match at the call's end: a function over a `Result` would take what the call writes, too.
ghost use Rattle.std.specs.Prelude.{◌≡◌, length, IfOk, OnOk};
ghost use Rattle.laws.specs.Refusal.{declined};
ghost use Rattle.laws.specs.Rows.{declines};
ghost use Rattle.edit.specs.Keys.{keys};
ghost use Rattle.menu_checks.specs.Lent.{keys_of, IsOf};
ghost use Rattle.menu.specs.Rows.{save_table};
ghost use Rattle.menu.specs.Calls.{wrote, save_of};

use keys::Ready;
use laws::refusal::ACCEPTED;
use laws::{Refusal, ask};
use menu_checks::Lent;
use player::Player;
use saved::write_sheet;

// `room` is how long the buffer is.
#[tactic(auto, using(laws::specs::Refused::refused), unfolding(crate::specs::Rows::save_table, crate::specs::Rows::save_rows, laws::specs::Rows::declines, laws::specs::Rows::unless))]
fn check_save<'a>(lent: Lent<'a>, p: &Player, room: usize) -> Result<Ready<'a>, Refusal>
    ensures declined { declined result ≡ declines (save_table lent.entry.sheet.now p.now (keys_of lent.entry) room) }
    ensures lent { IfOk result (λ r. IsOf r lent.entry) }
    ensures room { OnOk result (room ≡ length lent.entry.sheet.now) }
{
    let ready = lent.check_state(p)?;
    ask(room == lent.sheet.len(), Refusal::SaveLength)?;
    Ok(ready)
}

// The sheet with the present keys, into a buffer of its length: everything but the two key arrays is copied. Refusals 1, 3 to 5, 14.
#[tactic(auto, using(laws::specs::Refused::refused), unfolding(crate::specs::Calls::save_of, crate::specs::Calls::written_by))]
pub fn save(
    p: Player,
    s: &[u8],
    frames: &[f32],
    values: &[f32],
    slopes: &[f32],
    out: &mut [u8],
) -> u8
    ensures { wrote result out.new ≡ save_of s.now p (keys frames.now values.now slopes.now) out.old }
{
    match check_save(Lent::new(s, frames, values, slopes), &p, out.len()) {
        Ok(ready) => {
            write_sheet(ready, out);
            ACCEPTED
        }
        Err(e) => e.number(),
    }
}
