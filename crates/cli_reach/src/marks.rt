// What edits reach of a book.
ghost use Rattle.std.specs.Prelude.{◌<◌};
ghost use Rattle.book.specs.Sizes.{material_count};

use crate::compared::Compared;
use book::Book;
use channel::{MATERIAL_CHANNELS, PANE_CHANNELS};
use cli_facts::{MOST_CHANNELS, MOST_PANES};

// What is touched of a pane: a channel of its own; its row of the cascade, which follows the row above it.
#[derive(Clone, Copy, Debug, PartialEq, Eq)]
pub struct PaneMark {
    pub own: bool,
    pub follows: bool,
}

// A mark counts 1 for the first and 2 for the second.
impl From<u8> for PaneMark {
    fn from(mark: u8) -> PaneMark {
        PaneMark {
            own: mark % 2 == 1,
            follows: mark >= 2,
        }
    }
}

// A mark for each channel that is touched, and one for each pane. Stays two arrays of the most of each: nothing allocates, and `reach` writes two slices.
#[derive(Clone, Copy)]
pub struct Marks {
    channels: [u8; MOST_CHANNELS],
    panes: [u8; MOST_PANES],
}

// How many are marked.
fn count(marks: &[u8]) -> usize {
    marks.iter().filter(|mark| **mark != 0).count()
}

fn merge(all: &mut [u8], marks: &[u8]) {
    for (all, mark) in all.iter_mut().zip(marks) {
        *all |= *mark;
    }
}

impl Marks {
    pub fn none() -> Marks {
        Marks {
            channels: [0; MOST_CHANNELS],
            panes: [0; MOST_PANES],
        }
    }

    // Those of animation a.
    #[tactic(auto, unfolding(channel::specs::Channel::channel_count))]
    pub fn of(compared: Compared<'_>, a: usize) -> Marks {
        let Compared { sets, book } = compared;
        let n = channel::channel_count(&book);
        let mut marks = Marks::none();
        let channels = &mut marks.channels[..n];
        let panes = &mut marks.panes[..book.pane_count()];
        sets.touched_channels(&book, a, channels);
        reach::touched_panes(&book, channels, panes);
        marks
    }

    // What is marked in others is marked here too.
    pub fn merge(&mut self, others: &Marks) {
        merge(&mut self.channels, &others.channels);
        merge(&mut self.panes, &others.panes);
    }

    pub fn pane(&self, i: usize) -> PaneMark
        requires { i < 64 }
    {
        PaneMark::from(self.panes[i])
    }

    // Whether a channel of a material is touched.
    pub fn has_material(&self, book: Book<'_>, material: usize) -> bool
        requires { material < material_count book.bytes.now }
    {
        let from = book.pane_count() * PANE_CHANNELS + material * MATERIAL_CHANNELS;
        count(&self.channels[from..from + MATERIAL_CHANNELS]) > 0
    }

    // How many channels are touched, and how many panes.
    #[tactic(auto, unfolding(channel::specs::Channel::channel_count))]
    pub fn touched_channels(&self, book: Book<'_>) -> usize {
        count(&self.channels[..channel::channel_count(&book)])
    }

    pub fn touched_panes(&self, book: Book<'_>) -> usize {
        count(&self.panes[..book.pane_count()])
    }

    pub fn touched_materials(&self, book: Book<'_>) -> usize {
        (0..book.material_count())
            .filter(|i| self.has_material(book, *i))
            .count()
    }
}
