// The outward calls as C and Rust get them: each hands its arguments on and gives the answer on, an enum in it as a number. No call asks anything of its
// caller. `menu_exports` exports them under the same names.
#![tactic(auto)]

mod answers;
pub mod counts;
pub mod dragging;
pub mod editing;
pub mod naming;
pub mod playing;
pub mod reaching;
pub mod readings;
pub mod shapes;

pub use answers::{ReadOne, Ticked};
