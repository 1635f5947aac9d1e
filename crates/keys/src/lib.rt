// The keys of a sheet: their rules, and loading them.
#![tactic(auto)]

mod blocks;
mod load;
mod ready;
mod rules;
mod stored;

pub use load::{check_load, load_keys};
pub use ready::Ready;
pub use rules::{curve_ok, key_rule, keys_ok};
pub use stored::StoredKeys;
