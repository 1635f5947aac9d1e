// Numbers as the command line writes them: in text and as members of JSON objects.
#![tactic(auto)]

mod exact;
mod numbers;

pub use numbers::number;
