// The player after an edit that is made.
ghost use Rattle.std.specs.Prelude.{◌≡◌, ◌≤◌};
ghost use Rattle.player.specs.Journal.{rows};
ghost use Rattle.player.specs.Edited.{edited_player, one_more};
ghost use Rattle.player.specs.Counts.{CanEdit};

use crate::Player;
use crate::journal::{Entry, ROWS};

impl Player {
    // Row standing % 128 takes the entry.
    #[tactic(auto, unfolding(crate::specs::Edited::edited_player))]
    pub fn after_edit(self, e: Entry) -> Player
        requires { CanEdit self }
        ensures { result ≡ edited_player self e }
    {
        Player {
            reach: one_more(self.reach),
            redo: 0,
            accepted: self.accepted + 1,
            standing: self.standing + 1,
            journal: self.journal.with_row(self.standing, e),
            ..self
        }
    }
}

// One more edit that can be undone, up to the journal's 128.
fn one_more(reach: u64) -> u64
    requires { reach ≤ rows }
    ensures { result ≡ one_more reach }
{
    (reach + 1).min(ROWS)
}
