// What a target reads, by its family and its curve's value, and a reading as a mark and a number.
// Stays u8: a mark and a colour level are bytes that C reads.
ghost use Rattle.std.specs.Prelude.{◌≡◌};
ghost use Rattle.std.specs.Float.Ieee.{to_unsigned};
ghost use Rattle.reading.specs.Reading.{level_of, row_of, read_as, value_at, row_reading, mark_of, number_of};
ghost use Rattle.reading.specs.Ready.{ReadyRow};

use crate::Reading;
use channel::Family;
use sheet::Target;

// A colour's level, as the Rust: round, clamp, cast.
#[tactic(auto, unfolding(crate::specs::Reading::level_of))]
fn level_of(v: f32) -> u8
    ensures { result ≡ level_of v }
{
    float::cut_u8(float::clamp(float::nearest_whole(v), 0.0, 255.0))
}

// A texture index from `textures` up leaves its slot with no override.
#[tactic(auto, unfolding(crate::specs::Reading::row_of))]
fn row_of(n: u16, textures: usize) -> Reading
    ensures { result ≡ row_of n textures }
{
    if (n as usize) < textures {
        Reading::Row(n)
    } else {
        Reading::Nothing
    }
}

// What a target of a family reads where its curve's value is v.
fn read_as(f: Family, v: f32, textures: usize) -> Reading
    ensures { result ≡ read_as f v (to_unsigned 16 v) textures }
{
    match f {
        Family::PaneSrt | Family::TextureSrt | Family::IndirectSrt | Family::AlphaCompare => {
            Reading::Number(v)
        }
        Family::Visibility => Reading::Shown(float::cut_u16(v) != 0),
        Family::VertexColor => Reading::Number(v / 255.0),
        Family::TexturePattern => row_of(float::cut_u16(v), textures),
        Family::MaterialColor => Reading::Level(level_of(v)),
        Family::Other => Reading::Nothing,
    }
}

// The value of a target's curve at frame x: its keys are a part of the whole arrays.
// Stays over three slices: they need not be one length, and `Keys` asks that they are.
#[tactic(auto, unfolding(crate::specs::Reading::value_at))]
#[inline(always)]
pub fn row_value(frames: &[f32], values: &[f32], slopes: &[f32], x: f32, row: Target) -> f32
    requires { ReadyRow row frames.now values.now slopes.now }
    ensures { result ≡ value_at frames.now values.now slopes.now x row }
{
    let kind = row.curve as u8;
    curve::eval_part(kind, frames, values, slopes, row.first, row.count, x)
}

// What a target's row reads at frame x. Stays over three slices: they need not be one length, and `Keys` asks that they are.
// Inlined: a loop over frames then takes the row and its part of the keys apart once.
#[tactic(auto, using(crate::proofs::Pass::read_is))]
#[inline(always)]
pub fn row_reading(
    frames: &[f32],
    values: &[f32],
    slopes: &[f32],
    x: f32,
    row: Target,
    textures: usize,
) -> Reading
    requires { ReadyRow row frames.now values.now slopes.now }
    ensures { result ≡ row_reading textures frames.now values.now slopes.now x row }
{
    let v = row_value(frames, values, slopes, x, row);
    read_as(Family::from(row.code), v, textures)
}

// The mark of what a family reads, with no reading between: a whole reading has hundreds, and an enum goes through memory. So this and the number
// beside it are two functions, and no methods of a reading.
#[tactic(auto, unfolding(crate::specs::Reading::row_of))]
pub fn mark_as(f: Family, v: f32, textures: usize) -> u8
    ensures { result ≡ mark_of (read_as f v (to_unsigned 16 v) textures) }
{
    match f {
        Family::TexturePattern => u8::from((float::cut_u16(v) as usize) < textures),
        Family::Other => 0,
        _ => 1,
    }
}

// Its number likewise.
#[tactic(auto, unfolding(crate::specs::Reading::row_of))]
pub fn number_as(f: Family, v: f32, textures: usize) -> f32
    ensures { result ≡ number_of (read_as f v (to_unsigned 16 v) textures) }
{
    match f {
        Family::PaneSrt | Family::TextureSrt | Family::IndirectSrt | Family::AlphaCompare => v,
        Family::Visibility if float::cut_u16(v) != 0 => 1.0,
        Family::VertexColor => v / 255.0,
        Family::TexturePattern if (float::cut_u16(v) as usize) < textures => {
            float::cut_u16(v) as f32
        }
        Family::MaterialColor => level_of(v) as f32,
        _ => 0.0,
    }
}

// A reading as a number: shown is 1, hidden 0; a row and a level stand as their numbers, and nothing as 0.
impl From<Reading> for f32 {
    ghost use Rattle.std.specs.Prelude.{◌≡◌};
    ghost use Rattle.reading.specs.Reading.{number_of};

    ghost from_gives = { λ r x. x ≡ number_of r };

    fn from(r: Reading) -> f32 {
        match r {
            Reading::Nothing => 0.0,
            Reading::Number(v) => v,
            Reading::Shown(b) => { if b { 1.0 } else { 0.0 } }
            Reading::Row(k) => k as f32,
            Reading::Level(l) => l as f32,
        }
    }
}
