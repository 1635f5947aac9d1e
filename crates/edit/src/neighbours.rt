// What is asked of the key in a place, by that key's neighbours alone: whether another key may stand there, the frame that a request is held to, and when the
// request is declined.
ghost use Rattle.edit.specs.Spot.{Inside};

use crate::request::Request;
use crate::spot::Spot;
use curve::{Key, Kind};
use float::is_finite;
use keys::key_rule;
use laws::{Refusal, ask};

// All frames, and where among them the key is.
#[derive(Clone, Copy)]
pub struct Neighbours<'a> {
    pub frames: &'a [f32],
    pub spot: Spot,
    pub ghost inside: { Inside frames.now spot },
}

impl<'a> Neighbours<'a> {
    ghost use Rattle.std.specs.Prelude.{◌≡◌, ◌<◌, true, Option};
    ghost use Rattle.laws.specs.Refusal.{declined};
    ghost use Rattle.laws.specs.Rows.{declines};
    ghost use Rattle.edit.specs.Edit.{lowest, highest, clamped_frame, edited_frame, edited_value, overtakes, request_rows};
    ghost use Rattle.edit.specs.Spot.{previous_of, next_of};
    ghost use Rattle.edit.specs.Put.{frame_before, before_next, fits_at};

    // The frame of the track's previous key.
    #[tactic(auto, unfolding(crate::specs::Spot::previous_of))]
    fn previous(&self) -> Option<f32>
        ensures { result ≡ previous_of self.now.frames.now self.now.spot }
    {
        if self.spot.key == 0 {
            None
        } else {
            Some(self.frames[self.spot.at - 1])
        }
    }

    // The frame of the track's next key.
    #[tactic(auto, unfolding(crate::specs::Spot::next_of))]
    fn next(&self) -> Option<f32>
        ensures { result ≡ next_of self.now.frames.now self.now.spot }
    {
        if self.spot.more {
            Some(self.frames[self.spot.at + 1])
        } else {
            None
        }
    }

    // ---- a key put in its place

    // Whether the track's next key, if there is one, is not before the frame, which a Constant curve doesn't ask.
    #[tactic(auto, unfolding(crate::specs::Put::before_next, crate::specs::Spot::next_of))]
    fn before_next(&self, frame: f32) -> bool
        ensures { result ≡ before_next self.now.frames.now self.now.spot frame }
    {
        match self.next() {
            Some(next) => self.spot.is(Kind::Constant) || frame <= next,
            None => true,
        }
    }

    #[tactic(auto, using(keys::specs::Kinds::rule_kind), unfolding(crate::specs::Put::fits_at, crate::specs::Put::finite_numbers, crate::specs::Put::frame_before, crate::specs::Spot::previous_of))]
    pub fn fits(&self, x: Key) -> bool
        ensures { result ≡ fits_at self.now.frames.now self.now.spot x }
    {
        let finite = is_finite(x.frame) & is_finite(x.value) & is_finite(x.slope);
        // The track's first key is held against itself.
        let before = self.previous().unwrap_or(x.frame);
        finite & key_rule(self.spot.kind(), before, x) & self.before_next(x.frame)
    }

    // ---- the key that a request makes

    #[tactic(auto, unfolding(crate::specs::Edit::lowest, crate::specs::Spot::previous_of))]
    fn lowest(&self) -> f32
        ensures { result ≡ lowest self.now.frames.now self.now.spot }
    {
        match self.previous() {
            Some(frame) => frame + 0.01,
            None => 0.0,
        }
    }

    #[tactic(auto, unfolding(crate::specs::Edit::highest, crate::specs::Spot::next_of))]
    fn highest(&self) -> f32
        ensures { result ≡ highest self.now.frames.now self.now.spot }
    {
        match self.next() {
            Some(frame) => frame - 0.01,
            None => f32::MAX,
        }
    }

    // The frame that is asked for, held between the neighbours; the lower bound wins.
    #[tactic(auto, unfolding(crate::specs::Edit::clamped_frame))]
    fn clamped_frame(&self, x: f32) -> f32
        ensures { result ≡ clamped_frame self.now.frames.now self.now.spot x }
    {
        let lo = self.lowest();
        let hi = self.highest();
        float::clamp(x, lo, float::max(hi, lo))
    }

    #[tactic(auto, unfolding(crate::specs::Edit::edited_frame))]
    pub(crate) fn edited_frame(&self, x: f32) -> f32
        ensures { result ≡ edited_frame self.now.frames.now self.now.spot x }
    {
        if self.spot.is(Kind::Constant) {
            self.frames[self.spot.at]
        } else {
            self.clamped_frame(x)
        }
    }

    #[tactic(auto, unfolding(crate::specs::Edit::edited_value))]
    pub(crate) fn edited_value(&self, v: f32) -> f32
        ensures { result ≡ edited_value self.now.spot v }
    {
        if self.spot.is(Kind::Step) {
            float::step_value(v)
        } else {
            v
        }
    }

    // ---- what is declined

    // Whether the clamped frame is above the next key's, which a Constant curve doesn't ask.
    #[tactic(auto, unfolding(crate::specs::Edit::overtakes, crate::specs::Spot::next_of))]
    fn overtakes(&self, x: f32) -> bool
        ensures { result ≡ overtakes self.now.frames.now self.now.spot x }
    {
        match self.next() {
            Some(next) => !self.spot.is(Kind::Constant) && next < self.clamped_frame(x),
            None => false,
        }
    }

    // Rows 8 and 9 of a key edit, 8 and 10 of a slope edit.
    #[tactic(auto, unfolding(crate::specs::Edit::request_rows, laws::specs::Rows::declines, laws::specs::Rows::unless))]
    pub fn check(&self, r: Request) -> Result<(), Refusal>
        ensures { declined result ≡ declines (request_rows self.now.frames.now self.now.spot r) }
    {
        match r {
            Request::Key(x, v) => {
                ask(is_finite(x) & is_finite(v), Refusal::BadArgument)?;
                ask(!self.overtakes(x), Refusal::PastNextKey)
            }
            Request::Slope(m) => {
                ask(is_finite(m), Refusal::BadArgument)?;
                ask(self.spot.is(Kind::Hermite), Refusal::NotHermite)
            }
        }
    }
}
