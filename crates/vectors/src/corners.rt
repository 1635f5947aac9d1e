// The family of corners. Each record is a case: centre, size and rotation (f32), horizontal and vertical origin, the refusal and zero (u8 each),
// and the bits of top left, top right, bottom left and bottom right (u32).
ghost use Rattle.std.specs.Prelude.{◌<◌, length, IfSome};

use crate::sample::{Rest, Tally};
use float::{Vector2, Vector3};

// The record that the rest begins with.
pub fn record(rest: &mut Rest, tally: &mut Tally) -> Option<()>
    ensures { IfSome result (λ _. length rest.new.bytes.now < length rest.old.bytes.now) }
{
    let center = Vector2 {
        x: rest.number()?,
        y: rest.number()?,
    };
    let size = Vector2 {
        x: rest.number()?,
        y: rest.number()?,
    };
    let rotation = Vector3 {
        x: rest.number()?,
        y: rest.number()?,
        z: rest.number()?,
    };
    let [horizontal, vertical, refusal, _] = rest.next::<4>()?;
    let placed = corner::corners(center, size, horizontal, vertical, rotation);
    let c = placed.corners;
    let mut same = placed.refusal == refusal;
    for p in [c.topleft, c.topright, c.bottomleft, c.bottomright] {
        same &= rest.has(p.x)? & rest.has(p.y)?;
    }
    tally.count(same);
    Some(())
}
