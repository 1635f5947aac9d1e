// Panes and materials by name: the row of the book that has it.
use book::Book;
use cli_printed::Owner;
use field::NAME_BYTES;

// A word as a name's field: 24 bytes, with zeros behind the word. One that is longer is no name. Stays an array: nothing allocates.
fn field_of(w: &[u8]) -> Option<[u8; NAME_BYTES]> {
    let mut field = [0u8; NAME_BYTES];
    field.get_mut(..w.len())?.copy_from_slice(w);
    Some(field)
}

// The row whose name a word is: a pane's label, or a material's name.
pub fn row_named(book: Book<'_>, owner: Owner, w: &[u8]) -> Option<u16> {
    let names = match owner {
        Owner::Pane => channel::labels(&book),
        Owner::Material => channel::material_names(&book),
    };
    u16::try_from(names.find(&field_of(w)?, 0)?).ok()
}
