// Each pane's own visible and alpha, resolved, in one pass over the targets. Only the curves of these two channels are evaluated.
// Stays over tables apart: lent in a struct of `&mut` slices the proof didn't close, since the call may replace a slice in it.
// Stays by index: a target writes one row, and of what an adapter of iter_mut writes the library says nothing.
ghost use Rattle.std.specs.Prelude.{◌≡◌, not, ◌<◌, eqb, length};
ghost use Rattle.laws.specs.Table.{table};
ghost use Rattle.book.specs.Sizes.{pane_count};
ghost use Rattle.book.specs.Rows.{pane_row};
ghost use Rattle.channel.specs.Channel.{visible_channel};
ghost use Rattle.reading.specs.Active.{active_at};
ghost use Rattle.resolve.specs.Resolve.{or_number, or_shown, book_alpha};
ghost use Rattle.resolve.specs.Own.{bit_of, book_bit, own_bits, own_alphas, own_channel, own_number, own_numbers, pane_in, put_if};

use crate::over::{or_number, or_shown};
use book::Book;
use channel::{ALPHA, Names, Reached, VISIBLE, labels, pane_row_channel};
use reading::{At, Menu, Reading, row_reading};
use sheet::Target;

// A sheet of so many contents has the labels indexed. Few materials are searched for.
const MANY: usize = 32;

// The two channels of a pane that the cascade starts from.
#[derive(Clone, Copy)]
enum Own {
    Visible,
    Alpha,
}

// What the book has.
fn book_rows(book: &Book<'_>, visible: &mut [u8], alpha: &mut [f32])
    requires visible_len { length visible.old ≡ pane_count book.now.bytes.now }
    requires alpha_len { length alpha.old ≡ pane_count book.now.bytes.now }
    ensures visible_after { visible.new ≡ table (pane_count book.now.bytes.now) (book_bit book.now.bytes.now) }
    ensures alpha_after { alpha.new ≡ table (pane_count book.now.bytes.now) (book_alpha book.now.bytes.now) }
{
    for i in 0..book.pane_count() {
        let row = book.pane(i);
        visible[i] = u8::from(row.visible);
        alpha[i] = row.alpha as f32 / 255.0;
    }
}

// Of a pane's channels only visible and alpha.
#[tactic(auto, unfolding(crate::specs::Own::own_channel))]
fn own_channel(row: Target) -> Option<Own>
    ensures { own_numbers result ≡ own_channel row }
{
    match pane_row_channel(row)? {
        VISIBLE => Some(Own::Visible),
        ALPHA => Some(Own::Alpha),
        _ => None,
    }
}

fn pane_in(reached: Option<Reached>) -> Option<usize>
    ensures { result ≡ pane_in reached }
{
    match reached? {
        Reached::Pane(p) => Some(p),
        Reached::Material(_) => None,
    }
}

// A target's reading as pane p's visible or alpha.
fn put_own(book: &Book<'_>, p: usize, own: Own, r: Reading, visible: &mut [u8], alpha: &mut [f32])
    requires pane { p < pane_count book.now.bytes.now }
    requires visible_len { length visible.old ≡ pane_count book.now.bytes.now }
    requires alpha_len { length alpha.old ≡ pane_count book.now.bytes.now }
    ensures visible_after { visible.new ≡ put_if (eqb (own_number own) visible_channel) p (bit_of (or_shown r (pane_row book.now.bytes.now p).visible)) visible.old }
    ensures alpha_after { alpha.new ≡ put_if (not (eqb (own_number own) visible_channel)) p (or_number r (book_alpha book.now.bytes.now p)) alpha.old }
{
    let row = book.pane(p);
    match own {
        Own::Visible => {
            visible[p] = u8::from(or_shown(r, row.visible));
        }
        Own::Alpha => {
            alpha[p] = or_number(r, row.alpha as f32 / 255.0);
        }
    }
}

// The pass, over what the book has, with an animation active at a frame. The rows' place is summed once.
fn sweep_own(menu: &Menu<'_>, names: &Names<'_, '_>, at: At, visible: &mut [u8], alpha: &mut [f32])
    requires names { names.now.book.bytes.now ≡ menu.now.book.bytes.now }
    requires visible_value { visible.old ≡ table (pane_count menu.now.book.bytes.now) (book_bit menu.now.book.bytes.now) }
    requires alpha_value { alpha.old ≡ table (pane_count menu.now.book.bytes.now) (book_alpha menu.now.book.bytes.now) }
    ensures visible_after { visible.new ≡ own_bits menu.now.ready.sheet.bytes.now menu.now.book.bytes.now menu.now.ready.keys.frames.now menu.now.ready.keys.values.now menu.now.ready.keys.slopes.now (active_at at.animation at.frame) }
    ensures alpha_after { alpha.new ≡ own_alphas menu.now.ready.sheet.bytes.now menu.now.book.bytes.now menu.now.ready.keys.frames.now menu.now.ready.keys.values.now menu.now.ready.keys.slopes.now (active_at at.animation at.frame) }
{
    let sheet = menu.ready.sheet;
    let s = sheet.bytes;
    let keys = menu.ready.keys;
    let base = sheet::targets_at(s);
    let textures = sheet.texture_count();
    let mut held = None;
    for t in 0..sheet.target_count() {
        let row = sheet::target_at(s, base + t * sheet::TARGET_BYTES);
        let Some(own) = own_channel(row) else {
            continue;
        };
        let now = names.held_for(&sheet, at.animation, row.content, held);
        held = Some(now);
        let Some(p) = pane_in(now.reached) else {
            continue;
        };
        let r = row_reading(
            keys.frames,
            keys.values,
            keys.slopes,
            at.frame,
            row,
            textures,
        );
        put_own(&menu.book, p, own, r, visible, alpha);
    }
}

// Each pane's own visible and alpha.
#[tactic(auto, using(crate::proofs::Pass::none_shown, crate::proofs::Pass::none_faded))]
pub fn own_rows(menu: &Menu<'_>, active: Option<At>, visible: &mut [u8], alpha: &mut [f32])
    requires visible_len { length visible.old ≡ pane_count menu.now.book.bytes.now }
    requires alpha_len { length alpha.old ≡ pane_count menu.now.book.bytes.now }
    ensures visible_after { visible.new ≡ own_bits menu.now.ready.sheet.bytes.now menu.now.book.bytes.now menu.now.ready.keys.frames.now menu.now.ready.keys.values.now menu.now.ready.keys.slopes.now active }
    ensures alpha_after { alpha.new ≡ own_alphas menu.now.ready.sheet.bytes.now menu.now.book.bytes.now menu.now.ready.keys.frames.now menu.now.ready.keys.values.now menu.now.ready.keys.slopes.now active }
{
    book_rows(&menu.book, visible, alpha);
    if let Some(at) = active {
        if menu.ready.sheet.content_count() >= MANY {
            let panes = labels(&menu.book).index();
            let indexed = Names {
                book: menu.book,
                panes: Some(&panes),
                materials: None,
            };
            sweep_own(menu, &indexed, at, visible, alpha);
        } else {
            let plain = Names {
                book: menu.book,
                panes: None,
                materials: None,
            };
            sweep_own(menu, &plain, at, visible, alpha);
        }
    }
}
