// Calls that show something and change nothing: each answered behind what stands for the call, in one line or several.
#![tactic(auto)]

mod resolved;
mod shown;
mod state;
mod tracks;

pub use shown::show;
pub use tracks::say_key;
