// The reading of one channel: the last target that addresses it, from the last target back.
use crate::value::row_reading;
use crate::{At, Menu, Reading};
use channel::{Place, hits, place_of};

impl<'a> Menu<'a> {
    ghost use Rattle.std.specs.Prelude.{◌≡◌, ◌<◌};
    ghost use Rattle.laws.specs.Swept.{is_at};
    ghost use Rattle.sheet.specs.Sizes.{target_count};
    ghost use Rattle.channel.specs.Channel.{channel_count, target_channel};
    ghost use Rattle.channel.specs.Place.{place_of};
    ghost use Rattle.reading.specs.Reading.{last_target, reading};

    // Whether target t addresses channel c, which stands at a place, while animation a is active.
    #[tactic(auto, using(channel::proofs::Places::place_hit, channel::specs::Place::placed, sheet::specs::Checked::target_content_lem))]
    fn addresses(&self, a: usize, c: usize, place: Place, t: usize) -> bool
        requires channel { c < channel_count self.now.book.bytes.now }
        requires place { place ≡ place_of self.now.book.bytes.now c }
        requires target { t < target_count self.now.ready.sheet.bytes.now }
        ensures { result ≡ is_at (target_channel self.now.ready.sheet.bytes.now self.now.book.bytes.now a t) c }
    {
        hits(
            &self.ready.sheet,
            &self.book,
            a,
            place,
            self.ready.sheet.target(t),
        )
    }

    // The last target that addresses channel c while animation a is active. Stays counted down by hand: of `(0..n).rev().find(..)` the proof didn't close.
    fn last_target(&self, a: usize, c: usize) -> Option<usize>
        requires { c < channel_count self.now.book.bytes.now }
        ensures { result ≡ last_target self.now.ready.sheet.bytes.now self.now.book.bytes.now a c }
    {
        let place = place_of(&self.book, c);
        let mut end = self.ready.sheet.target_count();
        while 0 < end {
            end -= 1;
            if self.addresses(a, c, place, end) {
                return Some(end);
            }
        }
        None
    }

    #[tactic(auto, using(crate::specs::Ready::keys_row, crate::proofs::LastTarget::decides_within), unfolding(crate::specs::Reading::reading, crate::specs::Reading::target_reading))]
    pub fn read_channel(&self, active: Option<At>, c: usize) -> Reading
        requires { c < channel_count self.now.book.bytes.now }
        ensures { result ≡ reading self.now.ready.sheet.bytes.now self.now.book.bytes.now self.now.ready.keys.frames.now self.now.ready.keys.values.now self.now.ready.keys.slopes.now active c }
    {
        let Some(at) = active else {
            return Reading::Nothing;
        };
        let Some(t) = self.last_target(at.animation, c) else {
            return Reading::Nothing;
        };
        let sheet = self.ready.sheet;
        let keys = self.ready.keys;
        let textures = sheet.texture_count();
        row_reading(
            keys.frames,
            keys.values,
            keys.slopes,
            at.frame,
            sheet.target(t),
            textures,
        )
    }
}
