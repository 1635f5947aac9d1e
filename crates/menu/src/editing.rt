// The edits of one key.
// Stays as C has it: slices are lent apart, down to what writes them (what only looks takes a `Lent`), and a refusal is a number.
ghost use Rattle.std.specs.Prelude.{◌≡◌, IfOk, OnOk};
ghost use Rattle.laws.specs.Refusal.{declined};
ghost use Rattle.laws.specs.Rows.{declines};
ghost use Rattle.edit.specs.Keys.{Within, keys};
ghost use Rattle.edit.specs.Edit.{place};
ghost use Rattle.player.specs.Counts.{CanEdit};
ghost use Rattle.menu_checks.specs.Lent.{keys_of};
ghost use Rattle.menu.specs.Rows.{edit_table};
ghost use Rattle.menu.specs.Calls.{gave_edit, entry_for, edit_of, edit_gives};

use crate::change::{Change, requested};
use edit::put::{put_key, same_key};
use edit::request::{Request, check_track};
use laws::Refusal;
use laws::refusal::ACCEPTED;
use menu_checks::Lent;
use player::Player;
use player::journal::Entry;

// What an edit, a drag and a drop answer. `unchanged`: accepted, and the key has the same bits as before the call, for a drop as at the opening; also a drop
// with no accepted drag.
#[repr(C)]
#[derive(Clone, Copy)]
pub struct Edited {
    pub refusal: u8,
    pub unchanged: bool,
    pub player: Player,
}

impl Edited {
    ghost use Rattle.std.specs.Prelude.{◌≡◌, false, OnOk};
    ghost use Rattle.laws.specs.Refusal.{number};
    ghost use Rattle.player.specs.Counts.{CanEdit};
    ghost use Rattle.menu.specs.Calls.{edit_gives};

    // The answer of an edit, by the entry that it made.
    fn made(p: Player, entry: Result<Option<Entry>, Refusal>) -> Edited
        requires { OnOk entry (CanEdit p) }
        ensures { result ≡ edit_gives p entry }
    {
        match entry {
            Ok(Some(e)) => Edited {
                refusal: ACCEPTED,
                unchanged: false,
                player: p.after_edit(e),
            },
            Ok(None) => Edited {
                refusal: ACCEPTED,
                unchanged: true,
                player: p,
            },
            Err(e) => Edited::declined(p, e),
        }
    }

    // The player as it was.
    pub(crate) fn declined(player: Player, refusal: Refusal) -> Edited
        ensures refusal { result.refusal ≡ number refusal }
        ensures unchanged { result.unchanged ≡ false }
        ensures player { result.player ≡ player }
    {
        Edited {
            refusal: refusal.number(),
            unchanged: false,
            player,
        }
    }
}

#[tactic(auto, using(laws::specs::Refused::refused, edit::specs::Accepted::tracked_key, crate::proofs::Sounds::can_edit), unfolding(crate::specs::Rows::edit_table, edit::specs::Edit::edit_rows, edit::specs::Edit::track_rows, laws::specs::Rows::declines, laws::specs::Rows::unless))]
fn check_edit(lent: Lent, p: &Player, track: u16, key: u16, r: Request) -> Result<Change, Refusal>
    ensures declined { declined result ≡ declines (edit_table lent.entry.sheet.now p.now (keys_of lent.entry) track key r) }
    ensures at { IfOk result (λ c. c.at ≡ place lent.entry.sheet.now track key) }
    ensures entry { IfOk result (λ c. c.entry ≡ entry_for lent.entry.sheet.now (keys_of lent.entry) track key r) }
    ensures within { IfOk result (λ c. Within (keys_of lent.entry) c.at) }
    ensures counts { OnOk result (CanEdit p.now) }
{
    let ready = lent.check_state(p)?;
    check_track(&ready.sheet, p.selection, p.drag.open, track, key)?;
    requested(&ready, track, key, r)
}

// An edit of either kind, but for the player: the entry that its journal takes. Where the key has the same bits as before, nothing is stored, and there is none.
#[tactic(auto, using(laws::specs::Refused::refused), unfolding(crate::specs::Calls::edit_of, crate::specs::Calls::entry_for, edit::specs::Edit::unchanged, edit::specs::Keys::put_key))]
fn edit(
    p: &Player,
    s: &[u8],
    frames: &mut [f32],
    values: &mut [f32],
    slopes: &mut [f32],
    track: u16,
    key: u16,
    r: Request,
) -> Result<Option<Entry>, Refusal>
    ensures made { gave_edit (edit_gives p.now result) (keys frames.new values.new slopes.new) ≡ edit_of s.now p.now (keys frames.old values.old slopes.old) track key r }
    ensures counts { OnOk result (CanEdit p.now) }
{
    let c = check_edit(Lent::new(s, frames, values, slopes), p, track, key, r)?;
    if same_key(c.entry.after, c.entry.before) {
        return Ok(None);
    }
    put_key(frames, values, slopes, c.at, c.entry.after);
    Ok(Some(c.entry))
}

// Moves a key of the active animation to a frame and a value. Refusals 1, 3 to 6, 15, 7 to 9.
// Inlined, as slope_edit is, up to the export: each call on the way would zero a place of 3.7 KB for the answer and copy it there.
#[inline(always)]
pub fn key_edit(
    p: Player,
    s: &[u8],
    frames: &mut [f32],
    values: &mut [f32],
    slopes: &mut [f32],
    track: u16,
    key: u16,
    frame: f32,
    value: f32,
) -> Edited
    ensures { gave_edit result (keys frames.new values.new slopes.new) ≡ edit_of s.now p (keys frames.old values.old slopes.old) track key (Request.Key frame value) }
{
    let made = edit(
        &p,
        s,
        frames,
        values,
        slopes,
        track,
        key,
        Request::Key(frame, value),
    );
    Edited::made(p, made)
}

// Gives a Hermite key of the active animation a slope. Refusals 1, 3 to 6, 15, 7, 8, 10.
#[inline(always)]
pub fn slope_edit(
    p: Player,
    s: &[u8],
    frames: &mut [f32],
    values: &mut [f32],
    slopes: &mut [f32],
    track: u16,
    key: u16,
    slope: f32,
) -> Edited
    ensures { gave_edit result (keys frames.new values.new slopes.new) ≡ edit_of s.now p (keys frames.old values.old slopes.old) track key (Request.Slope slope) }
{
    let made = edit(
        &p,
        s,
        frames,
        values,
        slopes,
        track,
        key,
        Request::Slope(slope),
    );
    Edited::made(p, made)
}
