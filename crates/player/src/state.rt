// Whether a player's state is broken: row 5 of the table of refusals, as far as it looks at the player alone. The player is looked at where it is, and not copied.
// Stays a number: a selection, NONE for none, since C reads the player.
ghost use Rattle.std.specs.Prelude.{◌≡◌, true};
ghost use Rattle.player.specs.Player.{selection_ok, counts_ok, numbers_ok, all_used_ok, player_ok};

use crate::Player;
use crate::journal::ROWS;
use edit::NONE;
use float::is_finite;
use sheet::Sheet;

// The highest that a count goes.
const MOST: u64 = 1099511627776;

impl Player {
    #[tactic(auto, unfolding(crate::specs::Player::selection_ok))]
    fn selection_ok(&self, sheet: &Sheet) -> bool
        ensures { result ≡ selection_ok sheet.now.bytes.now self.now.selection }
    {
        self.selection == NONE || (self.selection as usize) < sheet.animation_count()
    }

    // Each number is held to its bound before two are added.
    #[tactic(auto, unfolding(crate::specs::Player::counts_ok))]
    fn counts_ok(&self) -> bool
        ensures { result ≡ counts_ok self.now.reach self.now.redo self.now.accepted self.now.undone self.now.redone self.now.standing }
    {
        self.reach <= ROWS
            && self.redo <= ROWS
            && self.accepted <= MOST
            && self.undone <= MOST
            && self.redone <= MOST
            && self.standing <= MOST
            && self.reach + self.redo <= ROWS
            && self.reach <= self.standing
            && self.accepted + self.redone == self.undone + self.standing
    }

    // The selection, the frame, the counts and the drag.
    #[tactic(auto, unfolding(crate::specs::Player::numbers_ok))]
    pub fn numbers_ok(&self, sheet: &Sheet) -> bool
        ensures { result ≡ numbers_ok sheet.now.bytes.now self.now }
    {
        self.selection_ok(sheet) && is_finite(self.frame) && self.counts_ok() && self.drag.ok(sheet)
    }

    // The journal's used rows each name a key of the sheet.
    #[tactic(auto, using(crate::specs::Sound::own_counts))]
    pub fn used_ok(&self, sheet: &Sheet) -> bool
        requires { numbers_ok sheet.now.bytes.now self.now ≡ true }
        ensures { result ≡ all_used_ok sheet.now.bytes.now self.now }
    {
        self.journal.names_keys(sheet, self.standing - self.reach, self.standing + self.redo)
    }

    #[tactic(auto, using(crate::specs::Sound::numbers_not, crate::proofs::Whole::used_left))]
    pub fn is_sound(&self, sheet: &Sheet) -> bool
        ensures { result ≡ player_ok sheet.now.bytes.now self.now }
    {
        self.numbers_ok(sheet) && self.used_ok(sheet)
    }
}
