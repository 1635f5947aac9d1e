// Whether a track reads differently with other keys. Stays with the slices apart, and with a number: so C lends and reads them.
ghost use Rattle.std.specs.Prelude.{◌≡◌, ◌<◌, ℕ, IsOk, IfOk};
ghost use Rattle.sheet.specs.Sizes.{target_count};
ghost use Rattle.edit.specs.Keys.{keys};
ghost use Rattle.probe.specs.Readable.{CanCompare};

use book::Book;
use keys::Ready;
use laws::Refusal;
use reach::{KeyArrays, TwoSets, apart};
use sheet::Sheet;

// Both sets of keys and their sheet, where each track that there is can be read with both.
fn sets<'a>(
    s: &'a [u8],
    b: &[u8],
    old: KeyArrays<'a>,
    new: KeyArrays<'a>,
) -> Result<TwoSets<'a>, Refusal>
    ensures sheet { IfOk result (λ r. r.old.sheet.bytes.now ≡ s.now) }
    ensures old { IfOk result (λ r. keys r.old.keys.frames.now r.old.keys.values.now r.old.keys.slopes.now ≡ keys old.entry.frames.now old.entry.values.now old.entry.slopes.now) }
    ensures new { IfOk result (λ r. keys r.new.frames.now r.new.values.now r.new.slopes.now ≡ keys new.entry.frames.now new.entry.values.now new.entry.slopes.now) }
    ensures can_compare { IsOk result → (t : ℕ) → t < target_count s.now → CanCompare s.now b.now old.entry.frames.now old.entry.values.now old.entry.slopes.now new.entry.frames.now new.entry.values.now new.entry.slopes.now t }
{
    let sheet = Sheet::new(s)?;
    let _ = Book::new(b)?;
    TwoSets::new(sheet, old, new)
}

// Whether track t does at frame x.
#[tactic(auto, using(reading::specs::Ready::keys_row))]
fn is_apart(sets: &TwoSets<'_>, t: usize, x: f32) -> bool
    requires { t < target_count sets.now.old.sheet.bytes.now }
{
    let TwoSets { old, new } = *sets;
    let Ready { sheet, keys } = old;
    apart(
        keys.frames,
        keys.values,
        keys.slopes,
        new.frames,
        new.values,
        new.slopes,
        sheet.target(t),
        sheet.texture_count(),
        x,
    )
}

// 2 where track t reads differently at frame x, 1 where it doesn't.
pub fn probe_apart(
    s: &[u8],
    b: &[u8],
    frames: &[f32],
    values: &[f32],
    slopes: &[f32],
    new_frames: &[f32],
    new_values: &[f32],
    new_slopes: &[f32],
    t: usize,
    x: f32,
) -> u8 {
    let old = KeyArrays {
        frames,
        values,
        slopes,
    };
    let new = KeyArrays {
        frames: new_frames,
        values: new_values,
        slopes: new_slopes,
    };
    match sets(s, b, old, new) {
        Ok(sets) if t < sets.old.sheet.target_count() => 1 + u8::from(is_apart(&sets, t, x)),
        _ => 0,
    }
}
