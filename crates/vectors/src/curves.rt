// The family of curves. A record is a curve and the frames that it was asked at: kind, how many keys, how many frames (u8 each), zero u8;
// for each key frame, value and slope (f32); the frames (f32); and for each of these the value's bits (u32) and the whole value (u16).
ghost use Rattle.std.specs.Prelude.{◌<◌, length, IfSome};

use crate::sample::{Rest, Tally};
use probe::{probe_eval_curve, probe_eval_curve_step_u16};

// The most keys that a stored curve has.
const MOST_KEYS: usize = 64;

// The record that the rest begins with.
pub fn record(rest: &mut Rest, tally: &mut Tally) -> Option<()>
    ensures { IfSome result (λ _. length rest.new.bytes.now < length rest.old.bytes.now) }
{
    let [kind, keys, asked, _] = rest.next::<4>()?;
    let n = keys as usize;
    if n > MOST_KEYS {
        return None;
    }
    // Stays three arrays, as the probe takes the keys.
    let mut frames = [0.0f32; MOST_KEYS];
    let mut values = [0.0f32; MOST_KEYS];
    let mut slopes = [0.0f32; MOST_KEYS];
    for i in 0..n {
        frames[i] = rest.number()?;
        values[i] = rest.number()?;
        slopes[i] = rest.number()?;
    }
    let mut at = Rest {
        bytes: rest.take(4 * asked as usize)?,
    };
    for _ in 0..asked {
        let x = at.number()?;
        let value = probe_eval_curve(kind, &frames[..n], &values[..n], &slopes[..n], x);
        let whole = probe_eval_curve_step_u16(kind, &frames[..n], &values[..n], &slopes[..n], x);
        tally.count(rest.has(value)? & (rest.count()? == whole as usize));
    }
    Some(())
}
