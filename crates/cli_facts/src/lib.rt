// What a player shows, one line a fact: the overridden channels and the cascade over the panes.
#![tactic(auto)]

mod cascade;
mod lead;
mod loaded;
mod places;
mod readings;
mod screen;
mod shown;

pub use cascade::{Cascade, MOST_PANES, say_cascade};
pub use lead::{Lead, say_line};
pub use loaded::{Loaded, MOST_KEYS};
pub use places::{place_of, say_place};
pub use readings::{MOST_CHANNELS, Overrides, say_readings, slot_of};
pub use screen::{Files, Screen};
pub use shown::{say_reading, say_shown};
