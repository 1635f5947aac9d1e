// Edits of one key: where it is, the key that a request makes, when the request is declined, and when a key may stand in another's place.
#![tactic(auto)]

pub mod neighbours;
pub mod put;
pub mod request;
pub mod spot;
pub mod track_key;

// The animation's number that stands for none. Stays a number: C hands a selection over in the player, as one u16.
pub const NONE: u16 = 65535;
