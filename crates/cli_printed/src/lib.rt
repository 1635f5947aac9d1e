// What the command line writes, each as text and as a member of a JSON object: names, channels, refusals in words.
#![tactic(auto)]

mod channels;
mod names;
mod refusals;

pub use channels::{MATERIAL_CHANNELS, Owner, PANE_CHANNELS, channel, name_channel};
pub use names::{material, name, pane};
pub use refusals::{accepted, meaning, refusal, refused, say_refusals};
