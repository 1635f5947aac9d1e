// The panes whose row of the cascade follows one above it: the whole frames at which they are shown otherwise or have another alpha.
// The cascades of a frame are made once for 32 panes, a bit each, since a line of output is a pane's.
ghost use Rattle.std.specs.Prelude.{◌+◌, ◌<◌, ◌≤◌};
ghost use Rattle.sheet.specs.Sizes.{animation_count};
ghost use Rattle.book.specs.Sizes.{pane_count};

use crate::compared::Compared;
use crate::marks::Marks;
use crate::runs::Runs;
use crate::tracks::frames_end;
use book::Book;
use cli_facts::Cascade;
use cli_page::Out;
use reading::{At, Menu, Reading};
use resolve::Cascaded;

const GROUP: usize = 32;

// Progress is told each time this many frames are done.
const EVERY: u64 = 1000;

// The cascade of animation a at frame x. Inlined, so that its tables are not copied.
#[inline(always)]
fn cascade_of(menu: &Menu<'_>, a: usize, x: f32) -> Cascade {
    let n = menu.book.pane_count();
    let mut cascade = Cascade::none();
    let active = At {
        animation: a,
        frame: x,
    };
    resolve::cascade(
        menu,
        Some(active),
        &mut cascade.visible[..n],
        &mut cascade.alpha[..n],
        &mut cascade.influence[..n],
    );
    cascade
}

// Whether a pane is shown alike, with the same alpha.
fn is_same(before: Cascaded, after: Cascaded) -> bool {
    let (alpha, other) = (Reading::Number(before.alpha), Reading::Number(after.alpha));
    (before.visible == after.visible) & reach::same_reading(alpha, other)
}

// A bit for each of 32 panes from `from` on, set where frame f of animation a shows the pane otherwise after the edits.
fn bits_at(before: &Menu<'_>, after: &Menu<'_>, a: usize, f: u32, from: usize) -> u32
    requires { from ≤ 32 }
{
    let x = std::num::nearest_u32_to_f32(f);
    let before = cascade_of(before, a, x);
    let after = cascade_of(after, a, x);
    let mut bits = 0u32;
    for k in 0..32u32 {
        let pane = from + k as usize;
        if !is_same(before.pane(pane), after.pane(pane)) {
            bits |= 1u32 << k;
        }
    }
    bits
}

// A pane that follows, and the frames that have bit k.
fn say_follow(out: &mut Out, book: Book<'_>, a: usize, pane: usize, bits: &[u32], k: u32)
    requires in_book { pane < pane_count book.bytes.now }
    requires in_word { k < 32 }
{
    out.begin();
    out.count("animation ", "animation", a as u64);
    cli_printed::pane(out, " pane ", book, pane);
    out.mark(" follows", "follows", true);
    let mut runs = Runs::begin(out);
    for (f, word) in bits.iter().enumerate() {
        runs.next(out, f as u64, (*word >> k) % 2 == 1);
    }
    runs.end(out);
    out.end();
}

// A group of 32 panes or fewer, where one of them follows.
fn say_group(out: &mut Out, compared: Compared<'_>, a: usize, marks: &Marks, from: usize, to: usize)
    requires in_sheet { a < animation_count compared.sets.old.sheet.bytes.now }
    requires in_book { (from ≤ 32) × (to ≤ pane_count compared.book.bytes.now) × (to ≤ from + 32) }
{
    if !(from..to).any(|i| marks.pane(i).follows) {
        return;
    }
    let end = frames_end(compared.sets.old.sheet, a);
    // Stays a word for every frame that an animation can have: nothing allocates.
    let mut bits = [0u32; 65536];
    let before = compared.before();
    let after = compared.after();
    for f in 0..end {
        bits[f as usize] = bits_at(&before, &after, a, f, from);
        cli_command::progress(out, f as u64 + 1, Some(end as u64), EVERY, " frames");
    }
    cli_command::progress_end(out, end as u64, EVERY);
    for i in from..to {
        if marks.pane(i).follows {
            say_follow(
                out,
                compared.book,
                a,
                i,
                &bits[..end as usize],
                (i - from) as u32,
            );
        }
    }
}

// The panes that follow, by their marks.
pub fn say_follows(out: &mut Out, compared: Compared<'_>, a: usize, marks: &Marks)
    requires { a < animation_count compared.sets.old.sheet.bytes.now }
{
    let n = compared.book.pane_count();
    say_group(out, compared, a, marks, 0, n.min(GROUP));
    say_group(out, compared, a, marks, GROUP, n);
}
