// A key of one of the sheet's tracks: the key that a request makes of it. What goes by its neighbours' frames alone is asked of those.
ghost use Rattle.edit.specs.Spot.{InsideAll};

use crate::neighbours::Neighbours;
use crate::request::Request;
use crate::spot::spot_of;
use curve::Key;
use keys::Ready;

// All keys, and where among them the key is. Each array reaches that far, and may be longer than the others.
#[derive(Clone, Copy)]
pub struct TrackKey<'a> {
    pub near: Neighbours<'a>,
    pub values: &'a [f32],
    pub slopes: &'a [f32],
    pub ghost inside: { InsideAll near.frames.now values.now slopes.now near.spot },
}

impl<'a> TrackKey<'a> {
    ghost use Rattle.std.specs.Prelude.{◌≡◌, true};
    ghost use Rattle.edit.specs.Keys.{keys, key_at};
    ghost use Rattle.edit.specs.Edit.{has_key, spot_of, edited_at};

    // Key number `key` of the track.
    #[tactic(auto, using(crate::specs::Put::has_key_lem, crate::specs::Put::ready_inside_all))]
    pub fn of(ready: &Ready<'a>, track: u16, key: u16) -> TrackKey<'a>
        requires { has_key ready.now.sheet.bytes.now track key ≡ true }
        ensures spot { result.near.spot ≡ spot_of ready.now.sheet.bytes.now track key }
        ensures frames { result.near.frames.now ≡ ready.now.keys.frames.now }
        ensures values { result.values.now ≡ ready.now.keys.values.now }
        ensures slopes { result.slopes.now ≡ ready.now.keys.slopes.now }
    {
        TrackKey {
            near: Neighbours {
                frames: ready.keys.frames,
                spot: spot_of(&ready.sheet, track as usize, key),
            },
            values: ready.keys.values,
            slopes: ready.keys.slopes,
        }
    }

    #[tactic(auto, unfolding(crate::specs::Keys::key_at))]
    pub fn key(&self) -> Key
        ensures { result ≡ key_at (keys self.now.near.frames.now self.now.values.now self.now.slopes.now) self.now.near.spot.at }
    {
        let at = self.near.spot.at;
        curve::key_at(self.near.frames, self.values, self.slopes, at)
    }

    #[tactic(auto, unfolding(crate::specs::Edit::edited_at, crate::specs::Keys::key_at))]
    pub fn edited(&self, r: Request) -> Key
        ensures { result ≡ edited_at (keys self.now.near.frames.now self.now.values.now self.now.slopes.now) self.now.near.spot r }
    {
        let old = self.key();
        match r {
            Request::Key(x, v) => Key {
                frame: self.near.edited_frame(x),
                value: self.near.edited_value(v),
                ..old
            },
            Request::Slope(m) => Key { slope: m, ..old },
        }
    }
}
