// Names, as a 24-byte field holds them.
ghost use Rattle.std.specs.Prelude.{◌≡◌, ◌==◌, ◌-◌, ◌<◌, length, take};
ghost use Rattle.std.specs.List.{suffix_len};
ghost use Rattle.book.specs.Sizes.{pane_count, material_count};

use book::Book;
use cli_page::Out;

// A name without the zero bytes at its end.
fn counted(field: &[u8]) -> &[u8]
    ensures { result.now ≡ take (length field.now - suffix_len (λ b. b == 0) field.now) field.now }
{
    match field.iter().rposition(|b| *b != 0) {
        Some(last) => &field[..last + 1],
        None => &field[..0],
    }
}

// A name on one line, whatever its bytes are.
pub fn name(out: &mut Out, before: &str, key: &str, field: &[u8]) {
    out.bytes(before, key, counted(field));
}

pub fn pane(out: &mut Out, before: &str, book: Book<'_>, i: usize)
    requires { i < pane_count book.bytes.now }
{
    name(out, before, "pane", book.pane_label(i));
}

pub fn material(out: &mut Out, before: &str, book: Book<'_>, i: usize)
    requires { i < material_count book.bytes.now }
{
    name(out, before, "material", book.material_name(i));
}
