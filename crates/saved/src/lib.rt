// A sheet written from its bytes and other keys: everything but the two key arrays is copied, the arrays are the keys.
// Stays by index in its loops: of what an adapter of iter_mut writes the library says nothing.
#![tactic(auto)]

ghost use Rattle.std.specs.Prelude.{◌≡◌, ◌*◌, length};
ghost use Rattle.field.specs.Write.{float_bytes};
ghost use Rattle.saved.specs.Saved.{points_of, saved_of, Finite};

use field::put_f32;
use keys::Ready;

// f32s, one after the other.
fn put_floats(xs: &[f32], out: &mut [u8])
    requires { Finite xs.now × (length out.old ≡ length xs.now * 4) }
    ensures { out.new ≡ float_bytes xs.now }
{
    for i in 0..xs.len() {
        put_f32(out, i * 4, xs[i]);
    }
}

// Points: a value, then its slope.
fn put_points(values: &[f32], slopes: &[f32], out: &mut [u8])
    requires { (Finite values.now × Finite slopes.now) × ((length slopes.now ≡ length values.now) × (length out.old ≡ length values.now * 8)) }
    ensures { out.new ≡ float_bytes (points_of values.now slopes.now) }
{
    for i in 0..values.len() {
        put_f32(out, i * 8, values[i]);
        put_f32(out, i * 8 + 4, slopes[i]);
    }
}

// The sheet with these keys, into an output of its length.
pub fn write_sheet(ready: Ready<'_>, out: &mut [u8])
    requires { length out.old ≡ length ready.sheet.bytes.now }
    ensures { out.new ≡ saved_of ready.entry.sheet.bytes.now ready.entry.keys.frames.now ready.entry.keys.values.now ready.entry.keys.slopes.now }
{
    let at = ready.sheet.frames_at();
    let points = ready.sheet.points_at();
    field::copy(&ready.sheet.bytes[..at], out);
    put_floats(ready.keys.frames, &mut out[at..points]);
    put_points(ready.keys.values, ready.keys.slopes, &mut out[points..]);
}
