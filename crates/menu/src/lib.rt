// Loading, playing, editing, dragging and saving: each call looks at its rows of the table in their order, then makes its step. No call asks anything of its
// caller.
#![tactic(auto)]

mod change;
mod dragging;
mod editing;
mod loading;
mod playing;
mod saving;
mod undoing;

pub use dragging::{abandon_drag, drag, drop_drag, open_drag};
pub use editing::{Edited, key_edit, slope_edit};
pub use loading::{find_next_name, load, next_name};
pub use playing::{Played, Ticked, play, pose, tick};
pub use saving::save;
pub use undoing::{redo, undo};
