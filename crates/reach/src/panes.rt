// The panes that differing keys reach, by the marks of the channels: those with a marked channel of their own, and those whose row of the cascade
// follows the row above it.
ghost use Rattle.std.specs.Prelude.{◌≡◌, ◌+◌, ◌*◌, ◌<◌, ◌≤◌, length};
ghost use Rattle.std.specs.List.{list_any, range_with_len};
ghost use Rattle.book.specs.Sizes.{pane_count, no_parent};
ghost use Rattle.channel.specs.Channel.{pane_channels, channel_count};
ghost use Rattle.reach.specs.Touched.{marked, own_marked, pane_marks};
ghost use Rattle.reach.specs.Ready.{handed_in};

use book::{Book, Pane};
use channel::{ALPHA, PANE_CHANNELS, VISIBLE, of_pane};

// How many panes a book has at most.
const MOST_PANES: usize = 64;

// Whether channel k of pane p is marked.
#[tactic(auto, unfolding(crate::specs::Touched::marked, channel::specs::Channel::of_pane))]
fn marked(channels: &[u8], p: usize, k: usize) -> bool
    requires { (p < 64) × ((k < pane_channels) × (p * pane_channels + k < length channels.now)) }
    ensures { result ≡ marked channels.now p k }
{
    channels[of_pane(p, k)] != 0
}

// Whether one of its first n channels is.
fn some_marked(channels: &[u8], p: usize, n: usize) -> bool
    requires { (p < 64) × ((n ≤ pane_channels) × (p * pane_channels + n ≤ length channels.now)) }
    ensures { result ≡ list_any (λ k. marked channels.now p k) (range_with_len 0 n) }
{
    (0..n).any(|k| marked(channels, p, k))
}

// Whether a channel of its own is.
#[tactic(auto, using(crate::proofs::Laws::any_not_all), unfolding(crate::specs::Touched::own_marked, laws::specs::Below::all_below))]
fn own_marked(channels: &[u8], p: usize) -> bool
    requires { (p < 64) × (p * pane_channels + pane_channels ≤ length channels.now) }
    ensures { result ≡ own_marked channels.now p }
{
    some_marked(channels, p, PANE_CHANNELS)
}

// What the row above a pane's hands down, of a table by row. What a root is given never changes.
#[tactic(auto, unfolding(crate::specs::Ready::handed_in, book::specs::Rows::parent_of))]
fn handed_down(table: &[u8], pane: &Pane) -> bool
    requires { (pane.now.parent ≡ no_parent → ⊥) → pane.now.parent < length table.now }
    ensures { result ≡ handed_in table.now pane.now.parent }
{
    match pane.above() {
        Some(p) => table[p] != 0,
        None => false,
    }
}

// Each pane's mark, down the rows; what a row hands its children is kept in two tables, and a parent's row is a smaller one.
// Stays by index, and the mark a sum: a row reads an earlier row of the tables that it writes, and C reads the mark as one byte of two bits.
fn descend(
    book: &Book<'_>,
    channels: &[u8],
    visible: &mut [u8],
    influence: &mut [u8],
    panes: &mut [u8],
)
    requires channels_len { length channels.now ≡ channel_count book.now.bytes.now }
    requires visible_len { length visible.old ≡ 64 }
    requires influence_len { length influence.old ≡ 64 }
    requires panes_len { length panes.old ≡ pane_count book.now.bytes.now }
    ensures { panes.new ≡ pane_marks book.now.bytes.now channels.now }
{
    for i in 0..book.pane_count() {
        let pane = book.pane(i);
        let shown = handed_down(visible, &pane);
        let faded = handed_down(influence, &pane);
        let own = own_marked(channels, i);
        let shows = marked(channels, i, VISIBLE);
        let fades = marked(channels, i, ALPHA);
        visible[i] = u8::from(shown | shows);
        influence[i] = u8::from(faded | (pane.influences & fades));
        panes[i] = u8::from(own) + 2 * u8::from(shown | faded);
    }
}

// A mark for each pane: 1 where a channel of its own is marked, and 2 more where its row of the cascade follows the row above it.
pub fn touched_panes(book: &Book<'_>, channels: &[u8], panes: &mut [u8])
    requires channels_len { length channels.now ≡ channel_count book.now.bytes.now }
    requires panes_len { length panes.old ≡ pane_count book.now.bytes.now }
    ensures { panes.new ≡ pane_marks book.now.bytes.now channels.now }
{
    // Stays two arrays of the most: nothing allocates. Stays numbers, 0 and 1: the definition of what is handed down reads a list of numbers.
    let mut visible = [0u8; MOST_PANES];
    let mut influence = [0u8; MOST_PANES];
    descend(book, channels, &mut visible, &mut influence, panes);
}
