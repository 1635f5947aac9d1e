// The four corners of a pane (document 01, "UVs and corners"; Corners of pane_tree.rs).
ghost use Rattle.std.specs.Prelude.{◌≡◌};
ghost use Rattle.corner.specs.Corners.{turn_back, turned, rotated, start_of, corners_of, translated};
ghost use Rattle.corner.specs.Turns.{turns_of, rotated_by};

use float::{SinCos, Vector2, Vector3};

#[repr(C)]
#[derive(Clone, Copy)]
pub struct Corners {
    pub topleft: Vector2,
    pub topright: Vector2,
    pub bottomleft: Vector2,
    pub bottomright: Vector2,
}

// Sine and cosine of an angle in degrees, turned the other way.
fn turn_back(degrees: f32) -> SinCos
    ensures { result ≡ turn_back degrees }
{
    float::sin_cos(-float::radians(degrees))
}

// The sine and cosine of each angle of a rotation, turned the other way.
#[derive(Clone, Copy)]
struct Turns {
    x: SinCos,
    y: SinCos,
    z: SinCos,
}

// A rotation as its points take it, made once for all of them: none where it is all zero.
#[tactic(auto, unfolding(crate::specs::Turns::turns_of))]
fn turns_of(rotation: Vector3) -> Option<Turns>
    ensures { result ≡ turns_of rotation }
{
    if (rotation.x == 0.0) & (rotation.y == 0.0) & (rotation.z == 0.0) {
        None
    } else {
        Some(Turns {
            x: turn_back(rotation.x),
            y: turn_back(rotation.y),
            z: turn_back(rotation.z),
        })
    }
}

// A point of the plane about the centre, turned about z, then y, then x. Its own z is 0.
fn turn(point: Vector2, center: Vector2, t: Turns) -> Vector2
    ensures { result ≡ turned point center t.x t.y t.z }
{
    let Turns { x, y, z } = t;
    let x1 = point.x * z.cos - point.y * z.sin;
    let y1 = point.x * z.sin + point.y * z.cos;
    let x2 = x1 * y.cos + 0.0 * y.sin;
    let z2 = -x1 * y.sin + 0.0 * y.cos;
    let y3 = y1 * x.cos - z2 * x.sin;
    Vector2 {
        x: center.x + x2,
        y: center.y + y3,
    }
}

// A point about the centre under a rotation.
#[tactic(auto, unfolding(crate::specs::Turns::rotated_by))]
fn rotate_by(point: Vector2, center: Vector2, turns: Option<Turns>) -> Vector2
    ensures { result ≡ rotated_by point center turns }
{
    match turns {
        None => center + point,
        Some(t) => turn(point, center, t),
    }
}

// Where a pane of this size starts, counted from its pivot: origin 0 is the centre, 1 left or top, 2 right or bottom.
// Stays a number, `origin`: C hands it in, and its row of the table is its only test.
#[tactic(auto, unfolding(crate::specs::Corners::start_of))]
fn start(size: f32, origin: u8) -> f32
    ensures { result ≡ start_of size origin }
{
    match origin {
        0 => -size * 0.5,
        1 => 0.0,
        _ => -size,
    }
}

impl Corners {
    // A point about the centre, turned by three angles in degrees.
    #[tactic(auto, using(crate::specs::Turns::turned_once))]
    pub fn rotate_point(point: Vector2, center: Vector2, rotation: Vector3) -> Vector2
        ensures { result ≡ rotated point center rotation }
    {
        rotate_by(point, center, turns_of(rotation))
    }

    // The corners of a pane of this size about its pivot, which is the centre.
    #[tactic(auto, using(crate::specs::Turns::turned_once), unfolding(crate::specs::Corners::corners_of))]
    pub fn compute(
        center: Vector2,
        size: Vector2,
        origin_x: u8,
        origin_y: u8,
        rotation: Vector3,
    ) -> Corners
        ensures { result ≡ corners_of center size origin_x origin_y rotation }
    {
        let lx = start(size.x, origin_x);
        let ly = start(size.y, origin_y);
        let rx = lx + size.x;
        let by = ly + size.y;
        let t = turns_of(rotation);
        Corners {
            topleft: rotate_by(Vector2 { x: lx, y: ly }, center, t),
            topright: rotate_by(Vector2 { x: rx, y: ly }, center, t),
            bottomleft: rotate_by(Vector2 { x: lx, y: by }, center, t),
            bottomright: rotate_by(Vector2 { x: rx, y: by }, center, t),
        }
    }

    // Every corner moved by delta.
    pub fn translate(self, delta: Vector2) -> Corners
        ensures { result ≡ translated self delta }
    {
        Corners {
            topleft: self.topleft + delta,
            topright: self.topright + delta,
            bottomleft: self.bottomleft + delta,
            bottomright: self.bottomright + delta,
        }
    }
}
