// What is in a sheet and a book, one line a fact, for whoever has to find a track by what it moves.
#![tactic(auto)]

mod book_rows;
mod contents;
mod sheet_rows;
mod tracks;

pub use book_rows::say_book;
pub use contents::{ContentType, say_named, say_unreached};
pub use sheet_rows::{say_animation, say_sheet};
pub use tracks::{channel_of, say_code};
