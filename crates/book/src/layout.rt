// Whether a slice of bytes is a book: row 2 of the table of refusals.
// Stays by numbers: a length is held against a size, and a parent against the format's own number of none.
// A row's check has no early way out, so that its fields are read side by side; the walks over rows have one.
ghost use Rattle.std.specs.Prelude.{◌≡◌, true, ◌+◌, ◌*◌, ◌<◌, ◌≤◌, length};
ghost use Rattle.laws.specs.Below.{all_below};
ghost use Rattle.book.specs.Sizes.{head_bytes, pane_bytes, material_bytes, panes_at};
ghost use Rattle.book.specs.Tested.{rows_ok};
ghost use Rattle.book.specs.Book.{sizes_ok, pane_ok, material_ok, book_ok};

use crate::rows::{HEAD, MATERIAL_BYTES, NO_PARENT, PANE_BYTES};
use field::{NAME_BYTES, Names, byte_at, u16_at};

#[tactic(auto, unfolding(crate::specs::Book::sizes_ok))]
fn sizes_ok(b: &[u8]) -> bool
    requires { head_bytes ≤ length b.now }
    ensures { result ≡ sizes_ok b.now }
{
    let p = u16_at(b, 0);
    let m = u16_at(b, 2);
    (1 <= p) & (p <= 64) & (m <= 32) & (b.len() == HEAD + p * PANE_BYTES + m * MATERIAL_BYTES)
}

#[tactic(auto, unfolding(crate::specs::Book::pane_ok))]
fn pane_ok(b: &[u8], i: usize) -> bool
    requires { panes_at + i * pane_bytes + pane_bytes ≤ length b.now }
    ensures { result ≡ pane_ok b.now i }
{
    let at = HEAD + i * PANE_BYTES;
    let parent = u16_at(b, at + NAME_BYTES);
    ((parent == NO_PARENT) | (parent < i))
        & (byte_at(b, at + 26) <= 3)
        & (byte_at(b, at + 28) <= 2)
        & (byte_at(b, at + 29) <= 2)
        & (u16_at(b, at + 30) == 0)
        & field::finite_row(b, at + 32, 10)
}

#[tactic(auto, unfolding(laws::specs::Below::all_below))]
fn panes_ok(b: &[u8], n: usize) -> bool
    requires { panes_at + n * pane_bytes ≤ length b.now }
    ensures { result ≡ all_below n (pane_ok b.now) }
{
    (0..n).all(|i| pane_ok(b, i))
}

#[tactic(auto, unfolding(crate::specs::Book::material_ok))]
fn material_ok(b: &[u8], base: usize, i: usize) -> bool
    requires { base + i * material_bytes + material_bytes ≤ length b.now }
    ensures { result ≡ material_ok b.now base i }
{
    field::finite_row(b, base + i * MATERIAL_BYTES + 96, 15)
}

#[tactic(auto, unfolding(laws::specs::Below::all_below))]
fn materials_ok(b: &[u8], base: usize, n: usize) -> bool
    requires { base + n * material_bytes ≤ length b.now }
    ensures { result ≡ all_below n (material_ok b.now base) }
{
    (0..n).all(|i| material_ok(b, base, i))
}

// The rows and their names, where the sizes say where they stand.
#[tactic(auto, using(crate::specs::Checked::sized, crate::specs::Checked::label_place, crate::specs::Checked::name_place), unfolding(crate::specs::Tested::rows_ok))]
fn rows_ok(b: &[u8]) -> bool
    requires there { head_bytes ≤ length b.now }
    requires sized { sizes_ok b.now ≡ true }
    ensures { result ≡ rows_ok b.now }
{
    let p = u16_at(b, 0);
    let m = u16_at(b, 2);
    let materials = HEAD + p * PANE_BYTES;
    let labels = Names {
        table: b,
        base: HEAD,
        stride: PANE_BYTES,
        rows: p,
    };
    let names = Names {
        table: b,
        base: materials,
        stride: MATERIAL_BYTES,
        rows: m,
    };
    panes_ok(b, p) & materials_ok(b, materials, m) & labels.are_distinct() & names.are_distinct()
}

// Whether b is a book.
#[tactic(auto, unfolding(crate::specs::Book::book_ok, crate::specs::Tested::rows_ok))]
pub fn book_ok(b: &[u8]) -> bool
    ensures { result ≡ book_ok b.now }
{
    b.len() >= HEAD && sizes_ok(b) && rows_ok(b)
}
