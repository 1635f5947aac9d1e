// Loading: the keys that a sheet holds are copied into three lent arrays.
// Stays over three arrays, or over their lengths: C lends them apart, and row 3 of the table of refusals tells where they are unlike.
ghost use Rattle.std.specs.Prelude.{◌≡◌, length, IfOk};
ghost use Rattle.laws.specs.Refusal.{declined};
ghost use Rattle.laws.specs.Rows.{declines};
ghost use Rattle.keys.specs.Stored.{floats_from, Floats};
ghost use Rattle.keys.specs.Load.{arrays_ok, load_table, loaded, load_of};

use crate::stored::stored_ok;
use laws::{Refusal, ask};
use sheet::Sheet;

// Row 3: key arrays of these lengths are each K long.
#[tactic(auto, unfolding(crate::specs::Load::arrays_ok))]
pub fn arrays_ok(sheet: &Sheet<'_>, frames: usize, values: usize, slopes: usize) -> bool
    ensures { result ≡ arrays_ok sheet.now.bytes.now frames values slopes }
{
    let n = sheet.key_count();
    (frames == n) & (values == n) & (slopes == n)
}

// Rows 1, 3 and 4 of loading into arrays of these lengths.
#[tactic(auto, unfolding(crate::specs::Load::load_table, laws::specs::Rows::declines, laws::specs::Rows::unless))]
pub fn check_load(
    s: &[u8],
    frames: usize,
    values: usize,
    slopes: usize,
) -> Result<Sheet<'_>, Refusal>
    ensures declined { declined result ≡ declines (load_table s.now frames values slopes) }
    ensures same { IfOk result (λ sheet. sheet.bytes.now ≡ s.now) }
{
    let sheet = Sheet::new(s)?;
    ask(
        arrays_ok(&sheet, frames, values, slopes),
        Refusal::KeyArrayLength,
    )?;
    ask(stored_ok(sheet), Refusal::KeyRules)?;
    Ok(sheet)
}

// The f32 at `at`, and those each `stride` bytes on, into a lent array. Stays by index: of what an adapter of iter_mut writes the library says nothing.
#[tactic(auto, using(laws::specs::Table::filled_none, laws::specs::Table::filled_more, laws::specs::Table::filled_all))]
fn copy_floats(s: &[u8], at: usize, stride: usize, out: &mut [f32])
    requires { Floats s.now at stride (length out.old) }
    ensures { out.new ≡ floats_from s.now at stride (length out.old) }
{
    for i in 0..out.len() {
        out[i] = field::f32_at(s, at + i * stride);
    }
}

// Copies the keys of the sheet s; where it declines, it changes nothing.
#[tactic(auto, using(crate::specs::Loading::loadable, crate::specs::Stored::frame_floats, crate::specs::Stored::value_floats, crate::specs::Stored::slope_floats))]
pub fn load_keys(
    s: &[u8],
    frames: &mut [f32],
    values: &mut [f32],
    slopes: &mut [f32],
) -> Result<(), Refusal>
    ensures { loaded (declined result) frames.new values.new slopes.new ≡ load_of s.now frames.old values.old slopes.old }
{
    let sheet = check_load(s, frames.len(), values.len(), slopes.len())?;
    let points = sheet.points_at();
    copy_floats(s, sheet.frames_at(), 4, frames);
    copy_floats(s, points, 8, values);
    copy_floats(s, points + 4, 8, slopes);
    Ok(())
}
