// What a call of this crate declines, and by which number. Nothing here changes anything.
ghost use Rattle.std.specs.Prelude.{◌≡◌};
ghost use Rattle.laws.specs.Refusal.{declined};
ghost use Rattle.laws.specs.Rows.{declines};
ghost use Rattle.corner.specs.Declined.{finite4, rotation_rows, corners_table, translate_table, rotate_table};

use crate::points::Corners;
use float::{Vector2, Vector3, angle_passes};
use laws::{Refusal, ask};

fn is_finite4(c: Corners) -> bool
    ensures { result ≡ finite4 c }
{
    c.topleft.is_finite()
        & c.topright.is_finite()
        & c.bottomleft.is_finite()
        & c.bottomright.is_finite()
}

#[tactic(auto, unfolding(crate::specs::Declined::rotation_rows, laws::specs::Rows::declines, laws::specs::Rows::unless))]
fn check_rotation(rotation: Vector3) -> Result<(), Refusal>
    ensures { declined result ≡ declines (rotation_rows rotation) }
{
    ask(rotation.is_finite(), Refusal::BadArgument)?;
    ask(angle_passes(rotation.x), Refusal::AngleTooLarge)?;
    ask(angle_passes(rotation.y), Refusal::AngleTooLarge)?;
    ask(angle_passes(rotation.z), Refusal::AngleTooLarge)
}

#[tactic(auto, unfolding(crate::specs::Declined::corners_table, laws::specs::Rows::declines, laws::specs::Rows::unless))]
pub fn check_corners(
    center: Vector2,
    size: Vector2,
    origin_x: u8,
    origin_y: u8,
    rotation: Vector3,
) -> Result<(), Refusal>
    ensures { declined result ≡ declines (corners_table center size origin_x origin_y rotation) }
{
    ask(origin_x <= 2, Refusal::NoSuchRow)?;
    ask(origin_y <= 2, Refusal::NoSuchRow)?;
    ask(center.is_finite(), Refusal::BadArgument)?;
    ask(size.is_finite(), Refusal::BadArgument)?;
    check_rotation(rotation)
}

#[tactic(auto, unfolding(crate::specs::Declined::translate_table, laws::specs::Rows::declines, laws::specs::Rows::unless))]
pub fn check_translate(corners: Corners, delta: Vector2) -> Result<(), Refusal>
    ensures { declined result ≡ declines (translate_table corners delta) }
{
    ask(is_finite4(corners), Refusal::BadArgument)?;
    ask(delta.is_finite(), Refusal::BadArgument)
}

#[tactic(auto, unfolding(crate::specs::Declined::rotate_table, laws::specs::Rows::declines, laws::specs::Rows::unless))]
pub fn check_rotate(point: Vector2, center: Vector2, rotation: Vector3) -> Result<(), Refusal>
    ensures { declined result ≡ declines (rotate_table point center rotation) }
{
    ask(point.is_finite(), Refusal::BadArgument)?;
    ask(center.is_finite(), Refusal::BadArgument)?;
    check_rotation(rotation)
}
