// Whether a target addresses one given channel: the channel's row of the book is known, so its name is compared and none is searched for.
ghost use Rattle.std.specs.Prelude.{◌≡◌, ◌<◌};
ghost use Rattle.sheet.specs.Sizes.{content_count};
ghost use Rattle.channel.specs.Channel.{active_reach};
ghost use Rattle.channel.specs.Within.{ReachedIn};
ghost use Rattle.channel.specs.Place.{place_of, is_row, hits, PlacedIn};

use crate::Reached;
use crate::address::{MATERIAL_CHANNELS, PANE_CHANNELS, material_row_channel, pane_row_channel};
use book::{Book, MATERIAL_BYTES, PANE_BYTES};
use sheet::{CONTENT_BYTES, ROW_NAME, Sheet, Target};

// Where a channel stands: a pane's or a material's row, and its number there.
// Stays beside Reached: what the number means goes by the row's kind, so that a match takes the two at once.
#[derive(Clone, Copy, Debug, PartialEq, Eq)]
pub enum Place {
    Pane(usize, usize),
    Material(usize, usize),
}

#[tactic(auto, unfolding(crate::specs::Place::place_of))]
pub fn place_of(book: &Book<'_>, c: usize) -> Place
    ensures { result ≡ place_of book.now.bytes.now c }
{
    let panes = book.pane_count() * PANE_CHANNELS;
    if c < panes {
        return Place::Pane(c / PANE_CHANNELS, c % PANE_CHANNELS);
    }
    let rest = c - panes;
    Place::Material(rest / MATERIAL_CHANNELS, rest % MATERIAL_CHANNELS)
}

// Whether content c reaches a row of the book while animation a is active. Names are distinct, so that is the row with its name.
#[tactic(auto, using(crate::specs::Place::pane_reached, crate::specs::Place::material_reached))]
fn reaches(sheet: &Sheet<'_>, book: &Book<'_>, a: usize, c: usize, row: Reached) -> bool
    requires content { c < content_count sheet.now.bytes.now }
    requires row { ReachedIn book.now.bytes.now row }
    ensures { result ≡ is_row (active_reach sheet.now.bytes.now book.now.bytes.now a c) row }
{
    let content = sheet.content(c);
    let (named, at) = match row {
        Reached::Pane(p) => (content.reaches_pane(), book::HEAD + p * PANE_BYTES),
        Reached::Material(m) => (
            content.reaches_material(),
            book::materials_at(book.bytes) + m * MATERIAL_BYTES,
        ),
    };
    let name = sheet::contents_at(sheet.bytes) + c * CONTENT_BYTES + ROW_NAME;
    content.animation == a && named && field::same_name(book.bytes, at, sheet.bytes, name)
}

// Whether a target's row addresses the channel at a place. The channel's number is compared first: that is cheap, and seldom passes.
#[tactic(auto, unfolding(crate::specs::Place::hits))]
pub fn hits(sheet: &Sheet<'_>, book: &Book<'_>, a: usize, place: Place, row: Target) -> bool
    requires content { row.content < content_count sheet.now.bytes.now }
    requires place { PlacedIn book.now.bytes.now place }
    ensures { result ≡ hits sheet.now.bytes.now book.now.bytes.now a place row }
{
    match place {
        Place::Pane(p, k) => {
            pane_row_channel(row) == Some(k)
                && reaches(sheet, book, a, row.content, Reached::Pane(p))
        }
        Place::Material(m, k) => {
            material_row_channel(row) == Some(k)
                && reaches(sheet, book, a, row.content, Reached::Material(m))
        }
    }
}
