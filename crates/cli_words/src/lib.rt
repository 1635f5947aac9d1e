// Words, pieces and numbers of a text: what a command line and a list of calls are made of.
#![tactic(auto)]

mod number;
mod part;

pub use number::{Decimal, TOO_LARGE, pattern, read_number, whole};
pub use part::{Pieces, Words, is_quoted, uncommented, unquoted, word};
