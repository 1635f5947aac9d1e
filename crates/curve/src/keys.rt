// The keys of a sheet, or of one curve of it: three lent slices of one length.
ghost use Rattle.std.specs.Prelude.{◌≡◌, length};

use crate::kind::Kind;
use crate::{Key, count_before, key_at, part, span};

// The keys, to read.
#[derive(Clone, Copy)]
pub struct Keys<'a> {
    pub frames: &'a [f32],
    pub values: &'a [f32],
    pub slopes: &'a [f32],
    pub ghost values_long: { length values.now ≡ length frames.now },
    pub ghost slopes_long: { length slopes.now ≡ length frames.now },
}

// The keys, to write.
#[derive(Drop)]
pub struct KeysMut<'a> {
    pub frames: &'a mut [f32],
    pub values: &'a mut [f32],
    pub slopes: &'a mut [f32],
    pub ghost values_long: { length values.now ≡ length frames.now },
    pub ghost slopes_long: { length slopes.now ≡ length frames.now },
}

impl<'a> Keys<'a> {
    ghost use Rattle.std.specs.Prelude.{◌≡◌, ◌+◌, ◌-◌, ◌<◌, ◌≤◌, ◌↔◌, length, true, IsSome, IfSome};
    ghost use Rattle.float.specs.Rising.{rising};
    ghost use Rattle.curve.specs.Keys.{part_of, key_at, before};
    ghost use Rattle.curve.specs.Curve.{Ordered, kind_hermite, eval_hermite, eval_curve, eval_curve_step_u16};
    ghost use Rattle.curve.specs.Kind.{number};

    // Stays over three slices: C lends them apart.
    pub fn new(frames: &'a [f32], values: &'a [f32], slopes: &'a [f32]) -> Option<Keys<'a>>
        ensures same_length { IsSome result ↔ ((length values.now ≡ length frames.now) × (length slopes.now ≡ length frames.now)) }
        ensures frames { IfSome result (λ k. k.frames.now ≡ frames.now) }
        ensures values { IfSome result (λ k. k.values.now ≡ values.now) }
        ensures slopes { IfSome result (λ k. k.slopes.now ≡ slopes.now) }
    {
        if values.len() == frames.len() && slopes.len() == frames.len() {
            Some(Keys {
                frames,
                values,
                slopes,
            })
        } else {
            None
        }
    }

    pub fn len(&self) -> usize
        ensures { result ≡ length self.now.frames.now }
    {
        self.frames.len()
    }

    pub fn key(&self, i: usize) -> Key
        requires { i < length self.now.frames.now }
        ensures { result ≡ key_at self.now.frames.now self.now.values.now self.now.slopes.now i }
    {
        key_at(self.frames, self.values, self.slopes, i)
    }

    // The keys that one target's curve owns.
    pub fn part(&self, first: usize, count: usize) -> Keys<'a>
        requires { first + count ≤ length self.now.frames.now }
        ensures frames { result.frames.now ≡ part_of first count self.now.frames.now }
        ensures values { result.values.now ≡ part_of first count self.now.values.now }
        ensures slopes { result.slopes.now ≡ part_of first count self.now.slopes.now }
    {
        Keys {
            frames: part(self.frames, first, count),
            values: part(self.values, first, count),
            slopes: part(self.slopes, first, count),
        }
    }

    // The Rust's eval_hermite, of one key at least. At a start of equal frames that is the first, so key 0 is tested before the search.
    #[tactic(auto, using(crate::specs::Before::before_le), unfolding(crate::specs::Curve::eval_hermite))]
    fn eval_hermite(&self, x: f32) -> f32
        requires some { 0 < length self.now.frames.now }
        requires ordered { rising self.now.frames.now ≡ true }
        ensures { result ≡ eval_hermite self.now.frames.now self.now.values.now self.now.slopes.now x }
    {
        let last = self.len() - 1;
        if x <= self.frames[0] {
            return self.values[0];
        }
        if self.frames[last] <= x {
            return self.values[last];
        }
        match count_before(self.frames, x) {
            // x is a NaN
            0 => self.values[0],
            n => span(self.key(n - 1), self.key(n), x),
        }
    }

    // The Rust's eval_curve: what a curve of this kind, with these keys, gives at x. Inlined: a call would put the three slices into memory, and cost a
    // row of readings a sixth more instructions.
    #[tactic(auto, using(crate::specs::Before::before_len), unfolding(crate::specs::Curve::eval_curve))]
    #[inline(always)]
    pub fn eval_curve(&self, kind: Kind, x: f32) -> f32
        requires { Ordered (number kind) self.now.frames.now }
        ensures { result ≡ eval_curve (number kind) self.now.frames.now self.now.values.now self.now.slopes.now x }
    {
        if self.frames.is_empty() {
            return 0.0;
        }
        match kind {
            Kind::Constant => self.values[float::cut_index(x, self.len() - 1)],
            // the last key at or before x, else key 0
            Kind::Step => self.values[count_before(self.frames, x).saturating_sub(1)],
            Kind::Hermite => self.eval_hermite(x),
        }
    }

    // The Rust's eval_curve_step_u16. A Step value is whole, so its cut is the value itself.
    pub fn eval_curve_step_u16(&self, kind: Kind, x: f32) -> u16
        requires { Ordered (number kind) self.now.frames.now }
        ensures { result ≡ eval_curve_step_u16 (number kind) self.now.frames.now self.now.values.now self.now.slopes.now x }
    {
        float::cut_u16(self.eval_curve(kind, x))
    }
}
