// Whether a target's row reads differently at a frame with other keys, and by how much.
ghost use Rattle.std.specs.Prelude.{◌≡◌, not};
ghost use Rattle.reading.specs.Reading.{row_reading};
ghost use Rattle.reading.specs.Ready.{ReadyRow};
ghost use Rattle.reach.specs.Apart.{same_number, same_reading, change_of};

use reading::{Reading, row_reading};
use sheet::Target;

// Bit for bit, all NaNs counted as one. Stays by hand, since `==` on floats is neither.
#[tactic(auto, unfolding(crate::specs::Apart::same_number))]
fn same_number(a: f32, b: f32) -> bool
    ensures { result ≡ same_number a b }
{
    if a.is_nan() {
        b.is_nan()
    } else {
        float::same_bits(a, b)
    }
}

// The same kind of reading, with the same number, bool, row or level. Stays by hand: a derived equality holds NaNs apart and the two zeros together.
pub fn same_reading(a: Reading, b: Reading) -> bool
    ensures { result ≡ same_reading a b }
{
    match (a, b) {
        (Reading::Nothing, Reading::Nothing) => true,
        (Reading::Number(v), Reading::Number(w)) => same_number(w, v),
        (Reading::Shown(x), Reading::Shown(y)) => x == y,
        (Reading::Row(k), Reading::Row(l)) => l == k,
        (Reading::Level(k), Reading::Level(l)) => l == k,
        _ => false,
    }
}

// Whether the row reads differently at x with the second keys; the sheet has so many texture names.
// Stays over slices: a row's part has to lie in each, and `Keys` asks that they are of one length.
pub fn apart(
    frames: &[f32],
    values: &[f32],
    slopes: &[f32],
    new_frames: &[f32],
    new_values: &[f32],
    new_slopes: &[f32],
    row: Target,
    textures: usize,
    x: f32,
) -> bool
    requires old { ReadyRow row frames.now values.now slopes.now }
    requires new { ReadyRow row new_frames.now new_values.now new_slopes.now }
    ensures { result ≡ not (same_reading (row_reading textures frames.now values.now slopes.now x row) (row_reading textures new_frames.now new_values.now new_slopes.now x row)) }
{
    !same_reading(
        row_reading(frames, values, slopes, x, row, textures),
        row_reading(new_frames, new_values, new_slopes, x, row, textures),
    )
}

// How far the number of b is from that of a, never below 0 where it is a number.
#[tactic(auto, unfolding(crate::specs::Apart::change_of))]
pub fn change(a: Reading, b: Reading) -> f32
    ensures { result ≡ change_of a b }
{
    let d = f32::from(b) - f32::from(a);
    if d <= 0.0 { 0.0 - d } else { d }
}
