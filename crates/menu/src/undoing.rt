// Undo and redo: both take an entry of the journal.
// Stays as C has it: slices are lent apart, down to what writes them (what only looks takes a `Lent`), and a refusal is a number.
ghost use Rattle.std.specs.Prelude.{◌≡◌, IfOk, OnOk};
ghost use Rattle.laws.specs.Refusal.{declined};
ghost use Rattle.laws.specs.Rows.{declines};
ghost use Rattle.edit.specs.Keys.{Within, keys};
ghost use Rattle.edit.specs.Edit.{place};
ghost use Rattle.player.specs.Undo.{entry_of};
ghost use Rattle.player.specs.Counts.{CanTake};
ghost use Rattle.menu_checks.specs.Lent.{keys_of};
ghost use Rattle.menu.specs.Rows.{take_table};
ghost use Rattle.menu.specs.Calls.{gave, take_of, take_gives, undo_of, redo_of};

use crate::change::Change;
use crate::playing::Played;
use edit::put::put_key;
use edit::track_key::TrackKey;
use laws::refusal::ACCEPTED;
use laws::{Refusal, ask};
use menu_checks::Lent;
use player::Player;
use player::undo::Way;

#[tactic(auto, using(laws::specs::Refused::refused, player::specs::Takes::entry_sound, crate::proofs::Sounds::can_take, crate::proofs::Sounds::within), unfolding(crate::specs::Rows::take_table, player::specs::Undo::take_rows, edit::specs::Edit::spot_of, laws::specs::Rows::declines, laws::specs::Rows::unless))]
fn check_take(way: Way, lent: Lent, p: &Player) -> Result<Change, Refusal>
    ensures declined { declined result ≡ declines (take_table way lent.entry.sheet.now p.now (keys_of lent.entry)) }
    ensures at { IfOk result (λ c. c.at ≡ place lent.entry.sheet.now c.entry.track c.entry.key) }
    ensures entry { IfOk result (λ c. c.entry ≡ entry_of way p.now) }
    ensures within { IfOk result (λ c. Within (keys_of lent.entry) c.at) }
    ensures counts { OnOk result (CanTake way p.now) }
{
    let ready = lent.check_state(p)?;
    ask(p.take_fits(&ready, way), Refusal::BrokenState)?;
    ask(!p.drag.open, Refusal::DragState)?;
    ask(p.entries(way) != 0, Refusal::NothingToTake)?;
    let entry = p.entry(way);
    let held = TrackKey::of(&ready, entry.track, entry.key);
    Ok(Change {
        at: held.near.spot.at,
        entry,
    })
}

// An undo or a redo, but for the player: the entry's key is left as the entry leaves it.
#[tactic(auto, using(laws::specs::Refused::refused), unfolding(crate::specs::Calls::take_of, player::specs::Undo::taken_keys, edit::specs::Keys::put_key))]
fn take(
    way: Way,
    p: &Player,
    s: &[u8],
    frames: &mut [f32],
    values: &mut [f32],
    slopes: &mut [f32],
) -> Result<(), Refusal>
    ensures taken { gave (take_gives way p.now result) (keys frames.new values.new slopes.new) ≡ take_of way s.now p.now (keys frames.old values.old slopes.old) }
    ensures counts { OnOk result (CanTake way p.now) }
{
    let c = check_take(way, Lent::new(s, frames, values, slopes), p)?;
    put_key(frames, values, slopes, c.at, c.entry.after);
    Ok(())
}

// The answer of either.
fn answer(way: Way, p: Player, taken: Result<(), Refusal>) -> Played
    requires { OnOk taken (CanTake way p) }
    ensures { result ≡ take_gives way p taken }
{
    match taken {
        Ok(()) => Played {
            refusal: ACCEPTED,
            player: p.after_take(way),
        },
        Err(e) => Played::declined(p, e),
    }
}

// Takes the last standing edit back. Refusals 1, 3 to 5, 15, 11.
pub fn undo(
    p: Player,
    s: &[u8],
    frames: &mut [f32],
    values: &mut [f32],
    slopes: &mut [f32],
) -> Played
    ensures { gave result (keys frames.new values.new slopes.new) ≡ undo_of s.now p (keys frames.old values.old slopes.old) }
{
    let taken = take(Way::Undo, &p, s, frames, values, slopes);
    answer(Way::Undo, p, taken)
}

// Makes the edit that was undone last again. Refusals 1, 3 to 5, 15, 11.
pub fn redo(
    p: Player,
    s: &[u8],
    frames: &mut [f32],
    values: &mut [f32],
    slopes: &mut [f32],
) -> Played
    ensures { gave result (keys frames.new values.new slopes.new) ≡ redo_of s.now p (keys frames.old values.old slopes.old) }
{
    let taken = take(Way::Redo, &p, s, frames, values, slopes);
    answer(Way::Redo, p, taken)
}
