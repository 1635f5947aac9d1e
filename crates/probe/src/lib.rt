// Inner functions, for a program that compares them with the Rust on millions of inputs; `probe_exports` exports them. No part of the player.
// A probe requires nothing: it tests what the function inside requires, and answers 0 where a test fails. It is proved safe and to end, no more: what it
// answers is compared, and the function inside has a contract of its own.
// Stays with slices and numbers apart in all its files: so C lends and reads them.
#![tactic(auto)]

pub mod apart;
pub mod formats;
pub mod readings;

ghost use Rattle.std.specs.Prelude.{◌≡◌, ◌<◌, length, IfSome};
ghost use Rattle.float.specs.Rising.{not_below, rising};
ghost use Rattle.curve.specs.Curve.{Ordered};
ghost use Rattle.curve.specs.Kind.{number};

use curve::{Keys, Kind};

// The number of the last kind that there is.
const LAST_KIND: u8 = 2;

// Whether frame i is not below the one before it; frame 0 is held against itself.
#[tactic(auto, unfolding(float::specs::Rising::not_below))]
fn not_below(frames: &[f32], i: usize) -> bool
    requires { i < length frames.now }
    ensures { result ≡ not_below frames.now 0 i }
{
    frames[i.saturating_sub(1)] <= frames[i]
}

#[tactic(auto, unfolding(float::specs::Rising::rising_in, laws::specs::Below::all_below))]
fn never_falls(frames: &[f32]) -> bool
    ensures { result ≡ rising frames.now }
{
    (0..frames.len()).all(|i| not_below(frames, i))
}

// The kind and the keys of a curve that can be read. A Constant's frames may fall.
#[tactic(auto, using(curve::specs::Kind::number_kind))]
fn curve_of<'a>(
    kind: u8,
    frames: &'a [f32],
    values: &'a [f32],
    slopes: &'a [f32],
) -> Option<(Kind, Keys<'a>)>
    ensures kind { IfSome result (λ c. number c.0 ≡ kind) }
    ensures frames { IfSome result (λ c. c.1.frames.now ≡ frames.now) }
    ensures values { IfSome result (λ c. c.1.values.now ≡ values.now) }
    ensures slopes { IfSome result (λ c. c.1.slopes.now ≡ slopes.now) }
    ensures ordered { IfSome result (λ c. Ordered (number c.0) c.1.frames.now) }
{
    if kind > LAST_KIND {
        return None;
    }
    let keys = Keys::new(frames, values, slopes)?;
    let kind = Kind::of(kind as usize);
    match kind {
        Kind::Constant => Some((kind, keys)),
        Kind::Step | Kind::Hermite => {
            if never_falls(frames) {
                Some((kind, keys))
            } else {
                None
            }
        }
    }
}

pub fn probe_eval_curve(
    kind: u8,
    frames: &[f32],
    values: &[f32],
    slopes: &[f32],
    frame: f32,
) -> f32 {
    match curve_of(kind, frames, values, slopes) {
        Some((kind, keys)) => keys.eval_curve(kind, frame),
        None => 0.0,
    }
}

pub fn probe_eval_curve_step_u16(
    kind: u8,
    frames: &[f32],
    values: &[f32],
    slopes: &[f32],
    frame: f32,
) -> u32 {
    match curve_of(kind, frames, values, slopes) {
        Some((kind, keys)) => keys.eval_curve_step_u16(kind, frame) as u32,
        None => 0,
    }
}
