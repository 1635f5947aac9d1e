// What the edits between two sheets reach, one line a fact: each edited track with the frames at which its channel reads differently, the panes that
// follow, then every pane and material touched or untouched.
#![tactic(auto)]

mod changes;
mod command;
mod compared;
mod follows;
mod marks;
mod other;
mod runs;
mod summary;
mod tracks;

pub use command::say_reach;
