// The family of UVs. Each record is a case: how many numbers the layers, the SRTs and the output have, and the refusal (u8 each); the layers and the SRTs (f32);
// the bits of the output after the call (u32), in which +0 stood before.
ghost use Rattle.std.specs.Prelude.{◌<◌, length, IfSome};

use crate::sample::{Rest, Tally};

// The most numbers that a list of a stored case has.
const MOST: usize = 64;

// The record that the rest begins with.
pub fn record(rest: &mut Rest, tally: &mut Tally) -> Option<()>
    ensures { IfSome result (λ _. length rest.new.bytes.now < length rest.old.bytes.now) }
{
    let [l, s, n, refusal] = rest.next::<4>()?;
    if (l as usize > MOST) | (s as usize > MOST) {
        return None;
    }
    // Stays an array for each list: a Vec would only add a failure to each record.
    let mut layers = [0.0f32; MOST];
    let layers = &mut layers[..l as usize];
    rest.numbers(layers)?;
    let mut srts = [0.0f32; MOST];
    let srts = &mut srts[..s as usize];
    rest.numbers(srts)?;
    let mut told = Rest {
        bytes: rest.take(4 * n as usize)?,
    };
    // Stays an array: a Vec would only add a failure to each record.
    let mut output = [0.0f32; MOST];
    if n as usize > output.len() {
        tally.count(false);
        return Some(());
    }
    let out = &mut output[..n as usize];
    let mut same = uv::uvs(layers, srts, out) == refusal;
    for x in out.iter() {
        same &= told.has(*x)?;
    }
    tally.count(same);
    Some(())
}
