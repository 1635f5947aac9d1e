// UVs and corners.
// Stays as C has it: a refusal is a number.
ghost use Rattle.std.specs.Prelude.{◌≡◌};
ghost use Rattle.uv.specs.Calls.{filled, uvs_of};
ghost use Rattle.corner.specs.Calls.{placed_of, moved_of, turned_of};

use corner::points::Corners;
use corner::{Placed, Turned};
use float::{Vector2, Vector3};

pub fn menu_uvs(layers: &[f32], srts: &[f32], out: &mut [f32]) -> u8
    ensures { filled result out.new ≡ uvs_of layers.now srts.now out.old }
{
    uv::uvs(layers, srts, out)
}

pub fn menu_corners(
    center: Vector2,
    size: Vector2,
    horizontal: u8,
    vertical: u8,
    rotation: Vector3,
) -> Placed
    ensures { result ≡ placed_of center size horizontal vertical rotation }
{
    corner::corners(center, size, horizontal, vertical, rotation)
}

pub fn menu_translate(corners: Corners, delta: Vector2) -> Placed
    ensures { result ≡ moved_of corners delta }
{
    corner::translate(corners, delta)
}

pub fn menu_rotate_point(point: Vector2, center: Vector2, rotation: Vector3) -> Turned
    ensures { result ≡ turned_of point center rotation }
{
    corner::rotate_point(point, center, rotation)
}
