// The book: a lent slice of bytes that holds panes and materials.
#![tactic(auto)]

mod layout;
mod rows;
mod view;

pub use layout::book_ok;
pub use rows::{
    HEAD, MATERIAL_BYTES, NO_PARENT, PANE_BYTES, Pane, material_count, materials_at, pane_count,
};
pub use view::Book;
