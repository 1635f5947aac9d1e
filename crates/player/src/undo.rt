// Undo and redo: the entry that each takes, and the counts after it. Both are one step over an entry.
ghost use Rattle.std.specs.Prelude.{◌≡◌, true};
ghost use Rattle.edit.specs.Keys.{keys};
ghost use Rattle.player.specs.Player.{entry_ok, player_ok};
ghost use Rattle.player.specs.Undo.{entries, turned, entry_of, takes_ok, take_fits, undone_player, redone_player, taken_player};
ghost use Rattle.player.specs.Counts.{CanUndo, CanRedo, CanTake};

use crate::Player;
use crate::journal::Entry;
use edit::put::same_key;
use edit::track_key::TrackKey;
use keys::Ready;

// Which way an entry is taken.
#[derive(Clone, Copy)]
pub enum Way {
    Undo,
    Redo,
}

impl Entry {
    // An entry that finds the key as this one leaves it, and leaves it as this one finds it. Stays a function: it is no conversion to another type.
    fn turned(self) -> Entry
        ensures { result ≡ turned self }
    {
        Entry {
            before: self.after,
            after: self.before,
            ..self
        }
    }

    // Whether the entry may be taken: its key is, bit for bit, as the entry finds it, and may stand there as the entry leaves it.
    #[tactic(auto, using(crate::specs::Takes::takes_checked))]
    pub fn fits(self, ready: &Ready) -> bool
        requires { entry_ok ready.now.sheet.bytes.now self ≡ true }
        ensures { result ≡ takes_ok ready.now.sheet.bytes.now (keys ready.now.keys.frames.now ready.now.keys.values.now ready.now.keys.slopes.now) self }
    {
        let key = TrackKey::of(ready, self.track, self.key);
        same_key(key.key(), self.before) && key.near.fits(self.after)
    }
}

// Row 5 of an undo or a redo that takes e, the first of so many entries: there is none, or it may be taken. While a drag is open, nothing is asked.
#[tactic(auto, unfolding(crate::specs::Undo::take_fits))]
pub fn take_fits(ready: &Ready, dragging: bool, count: u64, e: Entry) -> bool
    requires { (count ≡ 0 → ⊥) → entry_ok ready.now.sheet.bytes.now e ≡ true }
    ensures { result ≡ take_fits ready.now.sheet.bytes.now (keys ready.now.keys.frames.now ready.now.keys.values.now ready.now.keys.slopes.now) dragging count e }
{
    dragging || count == 0 || e.fits(ready)
}

impl Player {
    // How many entries there are to take.
    pub fn entries(&self, way: Way) -> u64
        ensures { result ≡ entries way self.now }
    {
        match way {
            Way::Undo => self.reach,
            Way::Redo => self.redo,
        }
    }

    // The same of the entry that the player takes.
    #[tactic(auto, using(crate::specs::Takes::entry_sound))]
    pub fn take_fits(&self, ready: &Ready, way: Way) -> bool
        requires { player_ok ready.now.sheet.bytes.now self.now ≡ true }
        ensures { result ≡ take_fits ready.now.sheet.bytes.now (keys ready.now.keys.frames.now ready.now.keys.values.now ready.now.keys.slopes.now) self.now.drag.open (entries way self.now) (entry_of way self.now) }
    {
        take_fits(ready, self.drag.open, self.entries(way), self.entry(way))
    }

    // The entry that is taken. With no standing edit an undo's is the journal's first row, which nothing takes.
    #[tactic(auto, unfolding(crate::specs::Undo::entry_of))]
    pub fn entry(&self, way: Way) -> Entry
        ensures { result ≡ entry_of way self.now }
    {
        match way {
            Way::Undo => self.journal.row(self.standing.saturating_sub(1)).turned(),
            Way::Redo => self.journal.row(self.standing),
        }
    }

    #[tactic(auto, unfolding(crate::specs::Undo::undone_player))]
    fn after_undo(mut self) -> Player
        requires { CanUndo self }
        ensures { result ≡ undone_player self }
    {
        self.reach -= 1;
        self.redo += 1;
        self.undone += 1;
        self.standing -= 1;
        self
    }

    #[tactic(auto, unfolding(crate::specs::Undo::redone_player))]
    fn after_redo(mut self) -> Player
        requires { CanRedo self }
        ensures { result ≡ redone_player self }
    {
        self.reach += 1;
        self.redo -= 1;
        self.redone += 1;
        self.standing += 1;
        self
    }

    // The player with an entry taken.
    pub fn after_take(self, way: Way) -> Player
        requires { CanTake way self }
        ensures { result ≡ taken_player way self }
    {
        match way {
            Way::Undo => self.after_undo(),
            Way::Redo => self.after_redo(),
        }
    }
}
