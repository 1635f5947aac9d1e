// Play, pose and tick. Each looks at the player where it is, so that it is copied once, into the answer.
// Stays as C has it: a refusal is a number, and so is a selection, NONE for none.
ghost use Rattle.std.specs.Prelude.{◌≡◌, IfOk, OnOk};
ghost use Rattle.laws.specs.Refusal.{declined};
ghost use Rattle.laws.specs.Rows.{declines};
ghost use Rattle.player.specs.Ticked.{Selected};
ghost use Rattle.menu.specs.Rows.{play_table, pose_table, tick_table};
ghost use Rattle.menu.specs.Calls.{play_of, pose_of, tick_of};

use edit::NONE;
use float::is_finite;
use laws::refusal::ACCEPTED;
use laws::{Refusal, ask};
use menu_checks::check_player;
use player::{Player, Tick};
use sheet::Sheet;

// A refusal, 0 for none, and the player after the call.
#[repr(C)]
#[derive(Clone, Copy)]
pub struct Played {
    pub refusal: u8,
    pub player: Player,
}

impl Played {
    ghost use Rattle.std.specs.Prelude.{◌≡◌};
    ghost use Rattle.laws.specs.Refusal.{number};

    // The player as it was.
    pub(crate) fn declined(player: Player, refusal: Refusal) -> Played
        ensures refusal { result.refusal ≡ number refusal }
        ensures player { result.player ≡ player }
    {
        Played {
            refusal: refusal.number(),
            player,
        }
    }
}

#[derive(Clone, Copy)]
pub struct Ticked {
    pub refusal: u8,
    pub answer: Tick,
    pub player: Player,
}

#[tactic(auto, using(laws::specs::Refused::refused), unfolding(crate::specs::Rows::play_table, crate::specs::Rows::play_rows, laws::specs::Rows::declines, laws::specs::Rows::unless))]
fn check_play(p: &Player, s: &[u8], animation: u16) -> Result<(), Refusal>
    ensures { declined result ≡ declines (play_table s.now p.now animation) }
{
    let sheet = check_player(p, s)?;
    ask(
        (animation == NONE) | ((animation as usize) < sheet.animation_count()),
        Refusal::NoAnimation,
    )
}

// Plays an animation from its start; play of none does nothing. Refusals 1, 5, 6.
#[tactic(auto, using(laws::specs::Refused::refused), unfolding(crate::specs::Calls::play_of))]
pub fn play(p: Player, s: &[u8], animation: u16) -> Played
    ensures { result ≡ play_of s.now p animation }
{
    match check_play(&p, s, animation) {
        Ok(()) => Played {
            refusal: ACCEPTED,
            player: p.play(animation),
        },
        Err(e) => Played::declined(p, e),
    }
}

#[tactic(auto, using(laws::specs::Refused::refused), unfolding(crate::specs::Rows::pose_table, crate::specs::Rows::pose_rows, laws::specs::Rows::declines, laws::specs::Rows::unless))]
fn check_pose<'a>(p: &Player, s: &'a [u8], frame: f32) -> Result<Sheet<'a>, Refusal>
    ensures declined { declined result ≡ declines (pose_table s.now p.now frame) }
    ensures sheet { IfOk result (λ x. x.bytes.now ≡ s.now) }
{
    let sheet = check_player(p, s)?;
    ask(is_finite(frame), Refusal::BadArgument)?;
    Ok(sheet)
}

// Holds an animation at a frame; none, and a number that the sheet doesn't have, clear the selection. Refusals 1, 5, 8.
#[tactic(auto, using(laws::specs::Refused::refused), unfolding(crate::specs::Calls::pose_of))]
pub fn pose(p: Player, s: &[u8], animation: u16, frame: f32) -> Played
    ensures { result ≡ pose_of s.now p animation frame }
{
    match check_pose(&p, s, frame) {
        Ok(sheet) => Played {
            refusal: ACCEPTED,
            player: p.pose(&sheet, animation, frame),
        },
        Err(e) => Played::declined(p, e),
    }
}

#[tactic(auto, using(laws::specs::Refused::refused, crate::proofs::Sounds::selected), unfolding(crate::specs::Rows::tick_table, crate::specs::Rows::tick_rows, laws::specs::Rows::declines, laws::specs::Rows::unless))]
fn check_tick<'a>(p: &Player, s: &'a [u8], dt: f32, fps: f32) -> Result<Sheet<'a>, Refusal>
    ensures declined { declined result ≡ declines (tick_table s.now p.now dt fps) }
    ensures sheet { IfOk result (λ x. x.bytes.now ≡ s.now) }
    ensures selected { OnOk result (Selected s.now p.now) }
{
    let sheet = check_player(p, s)?;
    ask(is_finite(dt) & is_finite(fps), Refusal::BadArgument)?;
    ask(p.tick_moves(&sheet, dt, fps), Refusal::BadArgument)?;
    Ok(sheet)
}

// Lets dt seconds pass at fps frames a second. Refusals 1, 5, 8.
#[tactic(auto, using(laws::specs::Refused::refused), unfolding(crate::specs::Calls::tick_of))]
pub fn tick(p: Player, s: &[u8], dt: f32, fps: f32) -> Ticked
    ensures { result ≡ tick_of s.now p dt fps }
{
    match check_tick(&p, s, dt, fps) {
        Ok(sheet) => {
            let next = p.tick(&sheet, dt, fps);
            Ticked {
                refusal: ACCEPTED,
                answer: next.answer,
                player: next.player,
            }
        }
        Err(e) => Ticked {
            refusal: e.number(),
            answer: Tick::Idle,
            player: p,
        },
    }
}
