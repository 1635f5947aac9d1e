// The player: what is selected and shown, the journal of the edits that can be undone and redone, and the key that is dragged.
#![tactic(auto)]

pub mod drag;
pub mod editing;
pub mod journal;
pub mod playing;
pub mod state;
pub mod undo;

ghost use Rattle.std.specs.Prelude.{◌≡◌};
ghost use Rattle.player.specs.Player.{fresh_player};

use drag::Drag;
use edit::NONE;
use journal::Journal;

// `selection` is an animation's number, or NONE. `reach` is how many standing edits can be undone, `redo` how many undone ones can be made
// again; `standing` counts the edits that stand. Stays numbers and arrays: the struct passes by value to C.
#[repr(C)]
#[derive(Clone, Copy)]
pub struct Player {
    pub selection: u16,
    pub playing: bool,
    pub preview: bool,
    pub frame: f32,
    pub reach: u64,
    pub redo: u64,
    pub accepted: u64,
    pub undone: u64,
    pub redone: u64,
    pub standing: u64,
    pub journal: Journal,
    pub drag: Drag,
}

// What a tick answers: nothing moved; the animation goes on; it ended; it ended and names the one that comes next.
#[derive(Clone, Copy)]
pub enum Tick {
    Idle,
    Running,
    Ended,
    Next,
}

impl Player {
    #[tactic(auto, unfolding(crate::specs::Player::fresh_player))]
    pub fn fresh() -> Player
        ensures { result ≡ fresh_player }
    {
        Player {
            selection: NONE,
            playing: false,
            preview: false,
            frame: 0.0,
            reach: 0,
            redo: 0,
            accepted: 0,
            undone: 0,
            redone: 0,
            standing: 0,
            journal: Journal::fresh(),
            drag: Drag::closed(),
        }
    }
}
