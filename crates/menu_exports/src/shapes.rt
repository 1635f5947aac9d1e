// UVs and corners.
// Stays as C has it: a refusal is a number.
ghost use Rattle.std.specs.Prelude.{◌≡◌};
ghost use Rattle.uv.specs.Calls.{filled, uvs_of};
ghost use Rattle.corner.specs.Calls.{placed_of, moved_of, turned_of};

use corner::points::Corners;
use corner::{Placed, Turned};
use float::{Vector2, Vector3};

#[unsafe(no_mangle)]
pub extern "C" fn menu_uvs(layers: &[f32], srts: &[f32], out: &mut [f32]) -> u8
    ensures { filled result out.new ≡ uvs_of layers.now srts.now out.old }
{
    menu_c::shapes::menu_uvs(layers, srts, out)
}

#[unsafe(no_mangle)]
pub extern "C" fn menu_corners(
    center: Vector2,
    size: Vector2,
    horizontal: u8,
    vertical: u8,
    rotation: Vector3,
) -> Placed
    ensures { result ≡ placed_of center size horizontal vertical rotation }
{
    menu_c::shapes::menu_corners(center, size, horizontal, vertical, rotation)
}

#[unsafe(no_mangle)]
pub extern "C" fn menu_translate(corners: Corners, delta: Vector2) -> Placed
    ensures { result ≡ moved_of corners delta }
{
    menu_c::shapes::menu_translate(corners, delta)
}

#[unsafe(no_mangle)]
pub extern "C" fn menu_rotate_point(point: Vector2, center: Vector2, rotation: Vector3) -> Turned
    ensures { result ≡ turned_of point center rotation }
{
    menu_c::shapes::menu_rotate_point(point, center, rotation)
}
