// Makes a call and writes its answer behind what stands for the call: `ok` or `unchanged`, or why it is declined.
#![tactic(auto)]

mod taken;

use cli_calls::{Action, Call};
use cli_facts::Files;
use cli_page::Out;
use cli_why::say_declined;
use edit::NONE;
use player::Player;
use taken::{Edit, take, take_edit, take_tick};

// Makes the call of a line; what stands for the call is written already. Stays over three slices: they need not be one length.
pub fn answer(
    out: &mut Out,
    player: &mut Player,
    action: Action,
    files: Files<'_>,
    frames: &mut [f32],
    values: &mut [f32],
    slopes: &mut [f32],
) {
    let p = *player;
    let sheet = files.sheet;
    let s = sheet.bytes;
    let made = match action {
        Action::Play { animation } => {
            let made = menu::play(p, s, animation.unwrap_or(NONE));
            take(out, player, made)
        }
        Action::Pose { animation, frame } => {
            let made = menu::pose(p, s, animation.unwrap_or(NONE), frame);
            take(out, player, made)
        }
        Action::Tick { seconds, fps } => {
            take_tick(out, player, menu::tick(p, s, seconds, fps), sheet)
        }
        Action::Undo => take(out, player, menu::undo(p, s, frames, values, slopes)),
        Action::Redo => take(out, player, menu::redo(p, s, frames, values, slopes)),
        Action::Open { track, key } => {
            let made = menu::open_drag(p, s, frames, values, slopes, track, key);
            take(out, player, made)
        }
        Action::Abandon => {
            let made = menu::abandon_drag(p, s, frames, values, slopes);
            take(out, player, made)
        }
        Action::Key {
            track,
            key,
            frame,
            value,
        } => {
            let made = menu::key_edit(p, s, frames, values, slopes, track, key, frame, value);
            let edit = Edit::of(track, key).asking(frame, value);
            take_edit(out, player, made, edit, sheet, frames, values, slopes)
        }
        Action::Slope { track, key, slope } => {
            let made = menu::slope_edit(p, s, frames, values, slopes, track, key, slope);
            take_edit(
                out,
                player,
                made,
                Edit::of(track, key),
                sheet,
                frames,
                values,
                slopes,
            )
        }
        Action::Drag { frame, value } => {
            let made = menu::drag(p, s, frames, values, slopes, frame, value);
            let edit = Edit::of(p.drag.track, p.drag.key).asking(frame, value);
            take_edit(out, player, made, edit, sheet, frames, values, slopes)
        }
        Action::Drop => {
            let made = menu::drop_drag(p, s, frames, values, slopes);
            let edit = Edit::of(p.drag.track, p.drag.key);
            take_edit(out, player, made, edit, sheet, frames, values, slopes)
        }
    };
    if let Err(refusal) = made {
        say_declined(out, refusal, p.selection, Call::Make(action), files);
    }
    out.end();
}
