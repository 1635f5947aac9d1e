// The first rule that a sheet, a book or the keys of a sheet break: which part, which row, where, and what is there. For whoever has to say why a file is
// declined. Nothing is printed here.
#![tactic(auto)]

mod books;
mod fault;
mod names;
mod rules;
mod sheets;
mod stored;
mod walk;

pub use books::book_fault;
pub use fault::{Fault, Number, Part};
pub use rules::Rule;
pub use sheets::sheet_fault;
pub use stored::{keys_fault, load_fault};
