// A drag: one key is held between its opening and its drop or its abandonment.
ghost use Rattle.std.specs.Prelude.{◌≡◌, true};
ghost use Rattle.edit.specs.Keys.{keys};
ghost use Rattle.player.specs.Drag.{no_drag, opened_on, start_of, drop_unchanged, drag_entry, drag_ok, drag_fits};
ghost use Rattle.player.specs.Dragged.{dropped_player};
ghost use Rattle.player.specs.Parts.{with_drag};
ghost use Rattle.player.specs.Counts.{CanEdit};

use crate::Player;
use crate::journal::Entry;
use curve::Key;
use edit::put::same_key;
use edit::spot::has_key;
use edit::track_key::TrackKey;
use keys::Ready;
use sheet::Sheet;

// `open` while a key is held, `moved` once a drag was accepted; the key's row, and the key as it was at opening. Closed, each is 0.
// Stays a struct with the flag `open`, and no option: it passes to C.
#[repr(C)]
#[derive(Clone, Copy)]
pub struct Drag {
    pub open: bool,
    pub moved: bool,
    pub track: u16,
    pub key: u16,
    pub start_frame: f32,
    pub start_value: f32,
    pub start_slope: f32,
}

impl Drag {
    pub fn closed() -> Drag
        ensures { result ≡ no_drag }
    {
        Drag {
            open: false,
            moved: false,
            track: 0,
            key: 0,
            start_frame: 0.0,
            start_value: 0.0,
            start_slope: 0.0,
        }
    }

    // A key as it is now, opened.
    pub fn opened(track: u16, key: u16, now: Key) -> Drag
        ensures { result ≡ opened_on track key now }
    {
        Drag {
            open: true,
            moved: false,
            track,
            key,
            start_frame: now.frame,
            start_value: now.value,
            start_slope: now.slope,
        }
    }

    // The key as it was at opening.
    pub fn start(self) -> Key
        ensures { result ≡ start_of self }
    {
        Key {
            frame: self.start_frame,
            value: self.start_value,
            slope: self.start_slope,
        }
    }

    // Whether a drop of the key as it is now leaves no edit: no drag was accepted, or the key has its starting bits.
    #[tactic(auto, unfolding(crate::specs::Drag::drop_unchanged))]
    pub fn unchanged(self, now: Key) -> bool
        ensures { result ≡ drop_unchanged self now }
    {
        !self.moved || same_key(now, self.start())
    }

    // The journal's entry of a drop: the key as it was at opening, and as it is now.
    fn entry(self, now: Key) -> Entry
        ensures { result ≡ drag_entry self now }
    {
        Entry {
            track: self.track,
            key: self.key,
            before: self.start(),
            after: now,
        }
    }

    // Row 5: an open drag's row is one of the sheet's keys.
    #[tactic(auto, unfolding(crate::specs::Drag::drag_ok))]
    pub fn ok(&self, sheet: &Sheet) -> bool
        ensures { result ≡ drag_ok sheet.now.bytes.now self.now }
    {
        !self.open || has_key(sheet, self.track, self.key)
    }

    // Row 5 where keys are taken: an open drag's starting key, put back, keeps the key rules.
    #[tactic(auto, using(crate::specs::Dragged::open_has, crate::proofs::Drags::fits_checked), unfolding(crate::specs::Drag::drag_fits))]
    pub fn fits(self, ready: &Ready) -> bool
        requires { drag_ok ready.now.sheet.bytes.now self ≡ true }
        ensures { result ≡ drag_fits ready.now.sheet.bytes.now (keys ready.now.keys.frames.now ready.now.keys.values.now ready.now.keys.slopes.now) self }
    {
        !self.open
            || TrackKey::of(ready, self.track, self.key)
                .near
                .fits(self.start())
    }
}

impl Player {
    pub fn with_drag(self, d: Drag) -> Player
        ensures { result ≡ with_drag self d }
    {
        Player { drag: d, ..self }
    }

    // The player after a drop, the key being `now`. An unchanged one is no edit.
    #[tactic(auto, unfolding(crate::specs::Dragged::dropped_player))]
    pub fn dropped(self, now: Key) -> Player
        requires { CanEdit self }
        ensures { result ≡ dropped_player self now }
    {
        let d = self.drag;
        let closed = self.with_drag(Drag::closed());
        if d.unchanged(now) {
            closed
        } else {
            closed.after_edit(d.entry(now))
        }
    }
}
