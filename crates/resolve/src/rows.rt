// Visible, alpha and influence over all panes by parent (the Rust's inner `update`).
// Stays over tables apart: lent in a struct of `&mut` slices the proof didn't close, since the call may replace a slice in it.
// Stays by index: a row reads an earlier row of the tables that it writes.
ghost use Rattle.std.specs.Prelude.{◌≡◌, map, ◌<◌, length};
ghost use Rattle.laws.specs.Grown.{grow};
ghost use Rattle.book.specs.Sizes.{pane_count, no_parent};
ghost use Rattle.resolve.specs.Cascade.{under, row_from, shown_bit, alpha_in, influence_in, visibles, alphas, influences};
ghost use Rattle.resolve.specs.Tables.{read_above, shown_of, number_in};

use crate::Cascaded;
use crate::own::own_rows;
use book::{Book, Pane};
use reading::{At, Menu};

// A row from the one above it.
#[tactic(auto, unfolding(crate::specs::Cascade::under))]
fn under(above: Cascaded, visible: bool, alpha: f32, influences: bool) -> Cascaded
    ensures { result ≡ under above visible alpha influences }
{
    Cascaded {
        visible: above.visible & visible,
        alpha: alpha * above.influence,
        influence: if influences {
            above.influence * alpha
        } else {
            above.influence
        },
    }
}

// The row above a pane's, of the rows in three tables; a root is given true and 1.0.
#[tactic(auto, unfolding(crate::specs::Tables::read_above, book::specs::Rows::parent_of))]
fn above(pane: &Pane, visible: &[u8], alpha: &[f32], influence: &[f32]) -> Cascaded
    requires { (pane.now.parent ≡ no_parent → ⊥) → (pane.now.parent < length visible.now) × ((pane.now.parent < length alpha.now) × (pane.now.parent < length influence.now)) }
    ensures { result ≡ read_above visible.now alpha.now influence.now pane.now.parent }
{
    match pane.above() {
        Some(p) => Cascaded {
            visible: visible[p] != 0,
            alpha: alpha[p],
            influence: influence[p],
        },
        None => Cascaded {
            visible: true,
            alpha: 1.0,
            influence: 1.0,
        },
    }
}

// The cascade in place: `visible` and `alpha` hold each pane's own, and a parent's row is a smaller one, so it is made before.
fn descend(book: &Book<'_>, visible: &mut [u8], alpha: &mut [f32], influence: &mut [f32])
    requires visible_len { length visible.old ≡ pane_count book.now.bytes.now }
    requires alpha_len { length alpha.old ≡ pane_count book.now.bytes.now }
    requires influence_len { length influence.old ≡ pane_count book.now.bytes.now }
    ensures visible_after { visible.new ≡ map shown_bit (grow (pane_count book.now.bytes.now) (row_from book.now.bytes.now (shown_of visible.old) (number_in alpha.old))) }
    ensures alpha_after { alpha.new ≡ map alpha_in (grow (pane_count book.now.bytes.now) (row_from book.now.bytes.now (shown_of visible.old) (number_in alpha.old))) }
    ensures influence_after { influence.new ≡ map influence_in (grow (pane_count book.now.bytes.now) (row_from book.now.bytes.now (shown_of visible.old) (number_in alpha.old))) }
{
    for i in 0..book.pane_count() {
        let pane = book.pane(i);
        let over = above(&pane, visible, alpha, influence);
        let row = under(over, visible[i] != 0, alpha[i], pane.influences);
        visible[i] = u8::from(row.visible);
        alpha[i] = row.alpha;
        influence[i] = row.influence;
    }
}

// The cascade over all panes.
pub fn cascade(
    menu: &Menu<'_>,
    active: Option<At>,
    visible: &mut [u8],
    alpha: &mut [f32],
    influence: &mut [f32],
)
    requires visible_len { length visible.old ≡ pane_count menu.now.book.bytes.now }
    requires alpha_len { length alpha.old ≡ pane_count menu.now.book.bytes.now }
    requires influence_len { length influence.old ≡ pane_count menu.now.book.bytes.now }
    ensures visible_after { visible.new ≡ visibles menu.now.ready.sheet.bytes.now menu.now.book.bytes.now menu.now.ready.keys.frames.now menu.now.ready.keys.values.now menu.now.ready.keys.slopes.now active }
    ensures alpha_after { alpha.new ≡ alphas menu.now.ready.sheet.bytes.now menu.now.book.bytes.now menu.now.ready.keys.frames.now menu.now.ready.keys.values.now menu.now.ready.keys.slopes.now active }
    ensures influence_after { influence.new ≡ influences menu.now.ready.sheet.bytes.now menu.now.book.bytes.now menu.now.ready.keys.frames.now menu.now.ready.keys.values.now menu.now.ready.keys.slopes.now active }
{
    own_rows(menu, active, visible, alpha);
    descend(&menu.book, visible, alpha, influence);
}
