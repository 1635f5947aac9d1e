// What the channels of a book read while an animation is active at a frame.
#![tactic(auto)]

mod menu;
mod plan;
mod single;
mod value;
mod whole;

pub use menu::Menu;
pub use plan::{MOST_TARGETS, Plan, numbered_channel, plan_of};
pub use value::row_reading;

// The active animation and its frame.
#[derive(Clone, Copy, Debug)]
pub struct At {
    pub animation: usize,
    pub frame: f32,
}

// What one channel reads: no override, a number, shown or hidden, a row of the sheet's texture names, a colour level.
// Stays an enum of its own and no option of one: hosts and the command line know these five cases.
#[derive(Clone, Copy, Debug)]
pub enum Reading {
    Nothing,
    Number(f32),
    Shown(bool),
    Row(u16),
    Level(u8),
}
