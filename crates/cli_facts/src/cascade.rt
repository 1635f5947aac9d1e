// The cascade: each pane shown or hidden under its parents, and its alpha.
ghost use Rattle.std.specs.Prelude.{◌<◌};
ghost use Rattle.book.specs.Sizes.{pane_count};

use crate::lead::Lead;
use crate::screen::Screen;
use crate::shown::say_shown;
use book::Book;
use cli_page::Out;
use resolve::Cascaded;

// The most panes of a book.
pub const MOST_PANES: usize = 64;

// What the cascade gives the panes of a book. Stays three arrays of the most panes: nothing allocates, and the calls write three slices.
#[derive(Clone, Copy)]
pub struct Cascade {
    pub visible: [u8; MOST_PANES],
    pub alpha: [f32; MOST_PANES],
    pub influence: [f32; MOST_PANES],
}

impl Cascade {
    ghost use Rattle.std.specs.Prelude.{◌≡◌, ◌<◌, eqb, slice_index, get_or};
    ghost use Rattle.std.specs.Float.{nan};

    #[inline(always)]
    pub fn none() -> Cascade {
        Cascade {
            visible: [0; MOST_PANES],
            alpha: [0.0; MOST_PANES],
            influence: [0.0; MOST_PANES],
        }
    }

    // What it gives one pane.
    pub fn pane(&self, i: usize) -> Cascaded
        requires { i < 64 }
        ensures visible { result.visible ≡ eqb (slice_index self.now.visible i) 1 }
        ensures alpha { result.alpha ≡ get_or self.now.alpha i nan }
        ensures influence { result.influence ≡ get_or self.now.influence i nan }
    {
        Cascaded {
            visible: self.visible[i] == 1,
            alpha: self.alpha[i],
            influence: self.influence[i],
        }
    }
}

fn say_state(out: &mut Out, lead: Lead, book: Book<'_>, i: usize, state: Cascaded)
    requires { i < pane_count book.bytes.now }
{
    lead.begin(out);
    cli_printed::pane(out, "pane ", book, i);
    say_shown(out, " ", state.visible);
    cli_numbers::number(out, " alpha ", "alpha", state.alpha);
    out.end();
}

// Every pane's state, or the refusal.
pub fn say_cascade(out: &mut Out, lead: Lead, screen: Screen<'_>) {
    let book = screen.book;
    let n = book.pane_count();
    let mut cascade = Cascade::none();
    let made = screen.cascade_into(
        &mut cascade.visible[..n],
        &mut cascade.alpha[..n],
        &mut cascade.influence[..n],
    );
    if let Err(refusal) = made {
        return lead.say_refusal(out, refusal);
    }
    for i in 0..n {
        say_state(out, lead, book, i, cascade.pane(i));
    }
}
