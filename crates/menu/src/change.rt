// What a request, an undo or a redo makes of a key.
ghost use Rattle.std.specs.Prelude.{◌≡◌, true, IfOk};
ghost use Rattle.laws.specs.Refusal.{declined};
ghost use Rattle.laws.specs.Rows.{declines};
ghost use Rattle.edit.specs.Keys.{Within, keys};
ghost use Rattle.edit.specs.Edit.{has_key, place, spot_of, request_rows};
ghost use Rattle.menu.specs.Calls.{entry_for};

use edit::request::Request;
use edit::track_key::TrackKey;
use keys::Ready;
use laws::Refusal;
use player::journal::Entry;

// The key's place among all keys, and the journal's entry.
#[derive(Clone, Copy)]
pub struct Change {
    pub at: usize,
    pub entry: Entry,
}

// The change that a request makes of a key that the sheet has, by the request's own rows.
#[tactic(auto, using(laws::specs::Refused::refused, crate::proofs::Sounds::within), unfolding(crate::specs::Calls::entry_for, edit::specs::Edit::edited, edit::specs::Edit::spot_of))]
pub fn requested(ready: &Ready, track: u16, key: u16, r: Request) -> Result<Change, Refusal>
    requires { has_key ready.now.sheet.bytes.now track key ≡ true }
    ensures declined { declined result ≡ declines (request_rows ready.now.keys.frames.now (spot_of ready.now.sheet.bytes.now track key) r) }
    ensures at { IfOk result (λ c. c.at ≡ place ready.now.sheet.bytes.now track key) }
    ensures entry { IfOk result (λ c. c.entry ≡ entry_for ready.now.sheet.bytes.now (keys ready.now.keys.frames.now ready.now.keys.values.now ready.now.keys.slopes.now) track key r) }
    ensures within { IfOk result (λ c. Within (keys ready.now.keys.frames.now ready.now.keys.values.now ready.now.keys.slopes.now) c.at) }
{
    let held = TrackKey::of(ready, track, key);
    held.near.check(r)?;
    Ok(Change {
        at: held.near.spot.at,
        entry: Entry {
            track,
            key,
            before: held.key(),
            after: held.edited(r),
        },
    })
}
