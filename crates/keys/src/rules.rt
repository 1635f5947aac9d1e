// Whether three lent lists are keys of a sheet: row 4 of the table of refusals.
// Stays over three slices where they need not be one length: C lends them apart.
ghost use Rattle.std.specs.Prelude.{◌≡◌, ◌+◌, ◌<◌, ◌≤◌, length};
ghost use Rattle.laws.specs.Below.{all_below};
ghost use Rattle.sheet.specs.Sizes.{target_count};
ghost use Rattle.curve.specs.Kind.{number};
ghost use Rattle.keys.specs.Rules.{curve_ok, key_rule};
ghost use Rattle.keys.specs.Keys.{keys_fit, held_track, keys_ok, Fit};

use crate::blocks::{constant_keys, finite_keys, rising_keys, step_keys};
use curve::{Key, Keys, Kind};
use field::{byte_at, u16_at};
use float::{is_whole16, same_bits};

// Whether the `count` keys from `first` on keep the rules of a curve.
#[tactic(auto, unfolding(crate::specs::Rules::curve_ok))]
pub fn curve_ok(
    kind: Kind,
    frames: &[f32],
    values: &[f32],
    slopes: &[f32],
    first: usize,
    count: usize,
) -> bool
    requires frames { first + count ≤ length frames.now }
    requires values { first + count ≤ length values.now }
    requires slopes { first + count ≤ length slopes.now }
    ensures { result ≡ curve_ok (number kind) frames.now values.now slopes.now first count }
{
    match kind {
        Kind::Constant => constant_keys(frames, slopes, first, count),
        Kind::Step => {
            step_keys(values, slopes, first, count) & rising_keys(frames, first, count)
        }
        Kind::Hermite => rising_keys(frames, first, count),
    }
}

// The rule on one key of a curve, with the frame before it, which for its curve's first key is its own.
#[tactic(auto, unfolding(crate::specs::Rules::key_rule))]
pub fn key_rule(kind: Kind, before: f32, key: Key) -> bool
    ensures { result ≡ key_rule (number kind) before key.frame key.value key.slope }
{
    match kind {
        Kind::Constant => same_bits(key.frame, 0.0) & same_bits(key.slope, 0.0),
        Kind::Step => same_bits(key.slope, 0.0) & is_whole16(key.value) & (before <= key.frame),
        Kind::Hermite => before <= key.frame,
    }
}

// Track t.
#[tactic(auto, using(crate::specs::Kinds::curve_kind), unfolding(crate::specs::Keys::held_track, crate::specs::Rules::track_ok, sheet::specs::Rows::target_row))]
fn held_track(s: &[u8], keys: &Keys<'_>, t: usize) -> bool
    requires fit { Fit s.now keys.now.frames.now keys.now.values.now keys.now.slopes.now }
    requires track { t < target_count s.now }
    ensures { result ≡ held_track s.now keys.now.frames.now keys.now.values.now keys.now.slopes.now t }
{
    let at = sheet::targets_at(s) + t * sheet::TARGET_BYTES;
    let first = u16_at(s, at + 10);
    let count = u16_at(s, at + 12);
    let kind = Kind::of(byte_at(s, at + 8));
    first + count <= keys.len()
        && curve_ok(kind, keys.frames, keys.values, keys.slopes, first, count)
}

#[tactic(auto, unfolding(laws::specs::Below::all_below))]
fn tracks_ok(s: &[u8], keys: &Keys<'_>) -> bool
    requires { Fit s.now keys.now.frames.now keys.now.values.now keys.now.slopes.now }
    ensures { result ≡ all_below (target_count s.now) (held_track s.now keys.now.frames.now keys.now.values.now keys.now.slopes.now) }
{
    (0..sheet::target_count(s)).all(|t| held_track(s, keys, t))
}

#[tactic(auto, unfolding(crate::specs::Keys::keys_fit))]
fn keys_fit(s: &[u8], frames: &[f32], values: &[f32], slopes: &[f32]) -> bool
    ensures { result ≡ keys_fit s.now frames.now values.now slopes.now }
{
    s.len() >= sheet::HEAD
        && sheet::length_ok(s)
        && frames.len() == sheet::key_count(s)
        && values.len() == sheet::key_count(s)
        && slopes.len() == sheet::key_count(s)
}

// Whether the lists are keys of the sheet s.
#[tactic(auto, using(crate::specs::Keys::fit), unfolding(crate::specs::Keys::keys_ok))]
pub fn keys_ok(s: &[u8], frames: &[f32], values: &[f32], slopes: &[f32]) -> bool
    ensures { result ≡ keys_ok s.now frames.now values.now slopes.now }
{
    if !keys_fit(s, frames, values, slopes) {
        return false;
    }
    let keys = Keys {
        frames,
        values,
        slopes,
    };
    finite_keys(keys) & tracks_ok(s, &keys)
}
