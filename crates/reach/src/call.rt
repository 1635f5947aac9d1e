// The outward call: what it declines by rising number, then the marks.
// Stays as C has it: slices are lent apart, and a refusal is a number. A refusal is told by a match at the call's end: a function over a `Result` would take what the call writes, too.
ghost use Rattle.std.specs.Prelude.{◌≡◌, IfOk, length};
ghost use Rattle.laws.specs.Refusal.{declined};
ghost use Rattle.laws.specs.Rows.{declines};
ghost use Rattle.book.specs.Sizes.{pane_count};
ghost use Rattle.channel.specs.Channel.{channel_count};
ghost use Rattle.edit.specs.Keys.{keys};
ghost use Rattle.reach.specs.Calls.{reach_table, gave_marks, reach_of};

use crate::panes::touched_panes;
use crate::{KeyArrays, TwoSets};
use book::Book;
use laws::refusal::ACCEPTED;
use laws::{Refusal, ask};
use sheet::Sheet;

// Why the call is declined, or what is compared.
#[tactic(auto, unfolding(crate::specs::Calls::reach_table, laws::specs::Rows::declines, laws::specs::Rows::unless))]
fn checked<'a>(
    s: &'a [u8],
    b: &'a [u8],
    old: KeyArrays<'a>,
    new: KeyArrays<'a>,
    animation: u16,
    channels: &[u8],
    panes: &[u8],
) -> Result<(TwoSets<'a>, Book<'a>), Refusal>
    ensures declined { declined result ≡ declines (reach_table s.now b.now (keys old.entry.frames.now old.entry.values.now old.entry.slopes.now) (keys new.entry.frames.now new.entry.values.now new.entry.slopes.now) animation channels.now panes.now) }
    ensures sheet { IfOk result (λ r. r.0.old.sheet.bytes.now ≡ s.now) }
    ensures book { IfOk result (λ r. r.1.bytes.now ≡ b.now) }
    ensures old { IfOk result (λ r. keys r.0.old.keys.frames.now r.0.old.keys.values.now r.0.old.keys.slopes.now ≡ keys old.entry.frames.now old.entry.values.now old.entry.slopes.now) }
    ensures new { IfOk result (λ r. keys r.0.new.frames.now r.0.new.values.now r.0.new.slopes.now ≡ keys new.entry.frames.now new.entry.values.now new.entry.slopes.now) }
    ensures channels { IfOk result (λ r. length channels.now ≡ channel_count b.now) }
    ensures panes { IfOk result (λ r. length panes.now ≡ pane_count b.now) }
{
    let sheet = Sheet::new(s)?;
    let book = Book::new(b)?;
    let sets = TwoSets::new(sheet, old, new)?;
    ask(
        (animation as usize) < sheet.animation_count(),
        Refusal::NoAnimation,
    )?;
    let long = channels.len() == channel::channel_count(&book);
    ask(
        long & (panes.len() == book.pane_count()),
        Refusal::OutputLength,
    )?;
    Ok((sets, book))
}

// What the second set of keys can make read differently, while the animation is active: a mark for each channel of the book and for each pane.
// Refusals 1 to 4, 6, 13.
pub fn reach(
    s: &[u8],
    b: &[u8],
    frames: &[f32],
    values: &[f32],
    slopes: &[f32],
    new_frames: &[f32],
    new_values: &[f32],
    new_slopes: &[f32],
    animation: u16,
    channels: &mut [u8],
    panes: &mut [u8],
) -> u8
    ensures { gave_marks result channels.new panes.new ≡ reach_of s.now b.now (keys frames.now values.now slopes.now) (keys new_frames.now new_values.now new_slopes.now) animation channels.old panes.old }
{
    let old = KeyArrays {
        frames,
        values,
        slopes,
    };
    let new = KeyArrays {
        frames: new_frames,
        values: new_values,
        slopes: new_slopes,
    };
    match checked(s, b, old, new, animation, channels, panes) {
        Ok((sets, book)) => {
            sets.touched_channels(&book, animation as usize, channels);
            touched_panes(&book, channels, panes);
            ACCEPTED
        }
        Err(e) => e.number(),
    }
}
