// Loading, play, pose and tick.
// Stays as C has it: slices are lent apart, each exported name is one call, and a refusal is a number.
ghost use Rattle.std.specs.Prelude.{◌≡◌};
ghost use Rattle.edit.specs.Keys.{keys};
ghost use Rattle.menu.specs.Calls.{gave, loaded_of, play_of, pose_of, tick_of};
ghost use Rattle.menu_c.specs.Answers.{ticked_of};

use crate::answers::Ticked;
use menu::Played;
use player::Player;

pub fn menu_load(sheet: &[u8], frames: &mut [f32], values: &mut [f32], slopes: &mut [f32]) -> Played
    ensures { gave result (keys frames.new values.new slopes.new) ≡ loaded_of sheet.now (keys frames.old values.old slopes.old) }
{
    menu::load(sheet, frames, values, slopes)
}

pub fn menu_play(player: Player, sheet: &[u8], animation: u16) -> Played
    ensures { result ≡ play_of sheet.now player animation }
{
    menu::play(player, sheet, animation)
}

pub fn menu_pose(player: Player, sheet: &[u8], animation: u16, frame: f32) -> Played
    ensures { result ≡ pose_of sheet.now player animation frame }
{
    menu::pose(player, sheet, animation, frame)
}

pub fn menu_tick(player: Player, sheet: &[u8], dt: f32, fps: f32) -> Ticked
    ensures { result ≡ ticked_of (tick_of sheet.now player dt fps) }
{
    Ticked::from(menu::tick(player, sheet, dt, fps))
}
