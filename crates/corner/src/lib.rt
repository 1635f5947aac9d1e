// Corners (document 01, "UVs and corners"), as the Rust's pane_tree.rs has them.
// The calls from outside are `corners`, `translate` and `rotate_point`. None asks anything of its arguments: each answers a refusal's number, 0 for
// none, and on a refusal +0 throughout.
// Stays a number, the refusal in each answer: C reads it.
#![tactic(auto)]

mod checks;
pub mod points;

ghost use Rattle.std.specs.Prelude.{◌≡◌};
ghost use Rattle.corner.specs.Calls.{no_corners, placed_of, moved_of, turned_of};

use float::{Vector2, Vector3};
use laws::refusal::ACCEPTED;
use points::Corners;

#[repr(C)]
#[derive(Clone, Copy)]
pub struct Placed {
    pub refusal: u8,
    pub corners: Corners,
}

#[repr(C)]
#[derive(Clone, Copy)]
pub struct Turned {
    pub refusal: u8,
    pub point: Vector2,
}

// +0 throughout.
fn no_corners() -> Corners
    ensures { result ≡ no_corners }
{
    let p = Vector2 { x: 0.0, y: 0.0 };
    Corners {
        topleft: p,
        topright: p,
        bottomleft: p,
        bottomright: p,
    }
}

// The corners of a pane.
#[tactic(auto, unfolding(crate::specs::Calls::placed_of))]
pub fn corners(
    center: Vector2,
    size: Vector2,
    origin_x: u8,
    origin_y: u8,
    rotation: Vector3,
) -> Placed
    ensures { result ≡ placed_of center size origin_x origin_y rotation }
{
    match checks::check_corners(center, size, origin_x, origin_y, rotation) {
        Ok(()) => Placed {
            refusal: ACCEPTED,
            corners: Corners::compute(center, size, origin_x, origin_y, rotation),
        },
        Err(e) => Placed {
            refusal: e.number(),
            corners: no_corners(),
        },
    }
}

// A corner set moved by delta.
#[tactic(auto, unfolding(crate::specs::Calls::moved_of))]
pub fn translate(corners: Corners, delta: Vector2) -> Placed
    ensures { result ≡ moved_of corners delta }
{
    match checks::check_translate(corners, delta) {
        Ok(()) => Placed {
            refusal: ACCEPTED,
            corners: corners.translate(delta),
        },
        Err(e) => Placed {
            refusal: e.number(),
            corners: no_corners(),
        },
    }
}

// A point about a centre, turned by three angles in degrees.
#[tactic(auto, unfolding(crate::specs::Calls::turned_of))]
pub fn rotate_point(point: Vector2, center: Vector2, rotation: Vector3) -> Turned
    ensures { result ≡ turned_of point center rotation }
{
    match checks::check_rotate(point, center, rotation) {
        Ok(()) => Turned {
            refusal: ACCEPTED,
            point: Corners::rotate_point(point, center, rotation),
        },
        Err(e) => Turned {
            refusal: e.number(),
            point: Vector2 { x: 0.0, y: 0.0 },
        },
    }
}
