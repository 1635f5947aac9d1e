// The whole reading: each overridden channel by the label of its pane or the name of its material.
ghost use Rattle.std.specs.Prelude.{◌<◌};
ghost use Rattle.channel.specs.Place.{PlacedIn};

use crate::lead::Lead;
use crate::places::{place_of, say_place};
use crate::screen::Screen;
use crate::shown::say_reading;
use channel::{Place, VISIBLE};
use cli_page::Out;
use reading::Reading;

// The most channels of a book.
pub const MOST_CHANNELS: usize = 2752;

// Of a material's channels, textures apart, those from here on are no plain numbers.
const FIRST_COLOUR: usize = 22;

// How many texture slots a material has.
const SLOTS: u16 = channel::MATERIAL_LAYERS as u16;

// A mark for each channel that is overridden, and its number. Stays two arrays of the most channels: nothing allocates, and the call writes two slices.
#[derive(Clone, Copy)]
pub struct Overrides {
    pub marks: [u8; MOST_CHANNELS],
    pub numbers: [f32; MOST_CHANNELS],
}

impl Overrides {
    ghost use Rattle.std.specs.Prelude.{◌≡◌, ◌<◌, ◌↔◌, IsSome, IfSome, slice_index, get_or};
    ghost use Rattle.std.specs.Float.{nan};

    #[inline(always)]
    pub fn none() -> Overrides {
        Overrides {
            marks: [0; MOST_CHANNELS],
            numbers: [0.0; MOST_CHANNELS],
        }
    }

    // What channel c is overridden with.
    pub fn at(&self, c: usize) -> Option<f32>
        requires { c < 2752 }
        ensures marked { IsSome result ↔ (slice_index self.now.marks c ≡ 1) }
        ensures number { IfSome result (λ x. x ≡ get_or self.now.numbers c nan) }
    {
        if self.marks[c] == 1 {
            Some(self.numbers[c])
        } else {
            None
        }
    }
}

// The texture slot that has a channel of a material.
pub fn slot_of(c: usize) -> Option<u16> {
    (0..SLOTS).find(|slot| channel::slot_channel(*slot) as usize == c)
}

// What channel c of a pane reads, where it is overridden with x.
fn pane_reading(c: usize, x: f32) -> Reading {
    match c {
        VISIBLE => Reading::Shown(x != 0.0),
        _ => Reading::Number(x),
    }
}

// Likewise of a material, `slot` being the texture slot that has the channel.
fn material_reading(c: usize, slot: Option<u16>, x: f32) -> Reading {
    if slot.is_some() {
        Reading::Row(float::cut_u16(x))
    } else if c < FIRST_COLOUR {
        Reading::Number(x)
    } else {
        Reading::Level(float::cut_u8(x))
    }
}

// What the channel at a place reads, where it is overridden with x.
fn say_override(out: &mut Out, screen: Screen<'_>, place: Place, x: f32)
    requires { PlacedIn screen.book.bytes.now place }
{
    match place {
        Place::Pane(_, c) => say_reading(out, pane_reading(c, x), None),
        Place::Material(i, c) => {
            let slot = slot_of(c);
            let name = slot.and_then(|slot| screen.texture_name(i as u16, slot).ok());
            say_reading(out, material_reading(c, slot, x), name);
        }
    }
}

// Every overridden channel, or the refusal.
#[tactic(auto, unfolding(channel::specs::Channel::channel_count))]
pub fn say_readings(out: &mut Out, lead: Lead, screen: Screen<'_>) {
    let book = screen.book;
    let n = channel::channel_count(&book);
    let mut all = Overrides::none();
    if let Err(refusal) = screen.read_into(&mut all.marks[..n], &mut all.numbers[..n]) {
        return lead.say_refusal(out, refusal);
    }
    for c in 0..n {
        let Some(x) = all.at(c) else {
            continue;
        };
        let place = place_of(book, c);
        lead.begin(out);
        say_place(out, book, place);
        say_override(out, screen, place, x);
        out.end();
    }
}
