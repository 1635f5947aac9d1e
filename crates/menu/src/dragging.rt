// A drag of one key: opened, dragged, and then dropped or abandoned. Play, pose, tick, readings and saving go on meanwhile.
// Stays as C has it: slices are lent apart, down to what writes them (what only looks takes a `Lent`), and a refusal is a number.
// An opening, a drag and an abandonment make the player once, behind the match: a player in each arm is a place of 3.7 KB, zeroed at every call.
ghost use Rattle.std.specs.Prelude.{◌≡◌, IfOk, OnOk};
ghost use Rattle.laws.specs.Refusal.{declined};
ghost use Rattle.laws.specs.Rows.{declines};
ghost use Rattle.edit.specs.Keys.{Within, keys, key_at};
ghost use Rattle.edit.specs.Edit.{place};
ghost use Rattle.player.specs.Counts.{CanEdit};
ghost use Rattle.menu_checks.specs.Lent.{keys_of};
ghost use Rattle.menu.specs.Rows.{open_table, drag_table, close_table};
ghost use Rattle.menu.specs.Calls.{entry_for, gave, gave_edit, open_of, drag_of, drop_of, abandon_of};

use crate::change::{Change, requested};
use crate::editing::Edited;
use crate::playing::Played;
use curve::Key;
use edit::put::{put_key, same_key};
use edit::request::{Request, check_track};
use edit::track_key::TrackKey;
use laws::refusal::ACCEPTED;
use laws::{Refusal, ask};
use menu_checks::Lent;
use player::Player;
use player::drag::Drag;

// The key as it is now.
#[tactic(auto, using(laws::specs::Refused::refused, edit::specs::Accepted::tracked_key), unfolding(crate::specs::Rows::open_table, edit::specs::Edit::track_rows, edit::specs::Edit::spot_of, laws::specs::Rows::declines, laws::specs::Rows::unless))]
fn check_open(lent: Lent, p: &Player, track: u16, key: u16) -> Result<Key, Refusal>
    ensures declined { declined result ≡ declines (open_table lent.entry.sheet.now p.now (keys_of lent.entry) track key) }
    ensures key { IfOk result (λ k. k ≡ key_at (keys_of lent.entry) (place lent.entry.sheet.now track key)) }
{
    let ready = lent.check_state(p)?;
    check_track(&ready.sheet, p.selection, p.drag.open, track, key)?;
    Ok(TrackKey::of(&ready, track, key).key())
}

// Opens a drag of a key of the active animation. Refusals 1, 3 to 6, 15, 7.
#[tactic(auto, using(laws::specs::Refused::refused), unfolding(crate::specs::Calls::open_of))]
pub fn open_drag(
    p: Player,
    s: &[u8],
    frames: &[f32],
    values: &[f32],
    slopes: &[f32],
    track: u16,
    key: u16,
) -> Played
    ensures { result ≡ open_of s.now p (keys frames.now values.now slopes.now) track key }
{
    let (refusal, drag) = match check_open(Lent::new(s, frames, values, slopes), &p, track, key) {
        Ok(now) => (ACCEPTED, Drag::opened(track, key, now)),
        Err(e) => (e.number(), p.drag),
    };
    Played {
        refusal,
        player: p.with_drag(drag),
    }
}

#[tactic(auto, using(laws::specs::Refused::refused, crate::proofs::Sounds::open_key), unfolding(crate::specs::Rows::drag_table, crate::specs::Rows::drag_rows, laws::specs::Rows::declines, laws::specs::Rows::unless))]
fn check_drag(lent: Lent, p: &Player, frame: f32, value: f32) -> Result<Change, Refusal>
    ensures declined { declined result ≡ declines (drag_table lent.entry.sheet.now p.now (keys_of lent.entry) frame value) }
    ensures at { IfOk result (λ c. c.at ≡ place lent.entry.sheet.now p.now.drag.track p.now.drag.key) }
    ensures entry { IfOk result (λ c. c.entry ≡ entry_for lent.entry.sheet.now (keys_of lent.entry) p.now.drag.track p.now.drag.key (Request.Key frame value)) }
    ensures within { IfOk result (λ c. Within (keys_of lent.entry) c.at) }
{
    let ready = lent.check_state(p)?;
    ask(p.drag.open, Refusal::DragState)?;
    requested(&ready, p.drag.track, p.drag.key, Request::Key(frame, value))
}

// Moves the open key to a frame and a value, whatever animation is active. Refusals 1, 3 to 5, 15, 8, 9.
#[tactic(auto, using(laws::specs::Refused::refused), unfolding(crate::specs::Calls::drag_of, crate::specs::Calls::entry_for, edit::specs::Edit::unchanged, edit::specs::Keys::put_key))]
pub fn drag(
    p: Player,
    s: &[u8],
    frames: &mut [f32],
    values: &mut [f32],
    slopes: &mut [f32],
    frame: f32,
    value: f32,
) -> Edited
    ensures { gave_edit result (keys frames.new values.new slopes.new) ≡ drag_of s.now p (keys frames.old values.old slopes.old) frame value }
{
    let checked = check_drag(Lent::new(s, frames, values, slopes), &p, frame, value);
    let (refusal, unchanged, moved) = match checked {
        Ok(c) => {
            put_key(frames, values, slopes, c.at, c.entry.after);
            (ACCEPTED, same_key(c.entry.after, c.entry.before), true)
        }
        Err(e) => (e.number(), false, p.drag.moved),
    };
    Edited {
        refusal,
        unchanged,
        player: p.with_drag(Drag { moved, ..p.drag }),
    }
}

// What is held: the place of the open key, and the key as it is now.
#[derive(Clone, Copy)]
struct Held {
    at: usize,
    now: Key,
}

// What a drop and an abandonment ask.
#[tactic(auto, using(laws::specs::Refused::refused, crate::proofs::Sounds::open_key, crate::proofs::Sounds::can_edit, crate::proofs::Sounds::within), unfolding(crate::specs::Rows::close_table, edit::specs::Edit::spot_of, laws::specs::Rows::declines, laws::specs::Rows::unless))]
fn check_close(lent: Lent, p: &Player) -> Result<Held, Refusal>
    ensures declined { declined result ≡ declines (close_table lent.entry.sheet.now p.now (keys_of lent.entry)) }
    ensures at { IfOk result (λ h. h.at ≡ place lent.entry.sheet.now p.now.drag.track p.now.drag.key) }
    ensures now { IfOk result (λ h. h.now ≡ key_at (keys_of lent.entry) h.at) }
    ensures within { IfOk result (λ h. Within (keys_of lent.entry) h.at) }
    ensures counts { OnOk result (CanEdit p.now) }
{
    let ready = lent.check_state(p)?;
    ask(p.drag.open, Refusal::DragState)?;
    let held = TrackKey::of(&ready, p.drag.track, p.drag.key);
    Ok(Held {
        at: held.near.spot.at,
        now: held.key(),
    })
}

// Leaves the key where it is, as one edit if a drag was accepted and the key has other bits than at opening. Refusals 1, 3 to 5, 15.
#[tactic(auto, using(laws::specs::Refused::refused), unfolding(crate::specs::Calls::drop_of))]
pub fn drop_drag(p: Player, s: &[u8], frames: &[f32], values: &[f32], slopes: &[f32]) -> Edited
    ensures { result ≡ drop_of s.now p (keys frames.now values.now slopes.now) }
{
    match check_close(Lent::new(s, frames, values, slopes), &p) {
        Ok(held) => Edited {
            refusal: ACCEPTED,
            unchanged: p.drag.unchanged(held.now),
            player: p.dropped(held.now),
        },
        Err(e) => Edited::declined(p, e),
    }
}

// Puts the key back as it was at opening; nothing is counted. Refusals 1, 3 to 5, 15.
#[tactic(auto, using(laws::specs::Refused::refused), unfolding(crate::specs::Calls::abandon_of, player::specs::Drag::put_back, edit::specs::Keys::put_key))]
pub fn abandon_drag(
    p: Player,
    s: &[u8],
    frames: &mut [f32],
    values: &mut [f32],
    slopes: &mut [f32],
) -> Played
    ensures { gave result (keys frames.new values.new slopes.new) ≡ abandon_of s.now p (keys frames.old values.old slopes.old) }
{
    let (refusal, drag) = match check_close(Lent::new(s, frames, values, slopes), &p) {
        Ok(held) => {
            put_key(frames, values, slopes, held.at, p.drag.start());
            (ACCEPTED, Drag::closed())
        }
        Err(e) => (e.number(), p.drag),
    };
    Played {
        refusal,
        player: p.with_drag(drag),
    }
}
