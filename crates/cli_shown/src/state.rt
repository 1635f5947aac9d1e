// The player's state, its journal apart, on one line.
use cli_numbers::number;
use cli_page::Out;
use edit::NONE;
use player::Player;
use player::drag::Drag;

// No animation is a word in text and null in JSON. Stays a number, NONE for none: C reads the player.
fn say_selection(out: &mut Out, selection: u16) {
    match selection {
        NONE => {
            out.key(" selection ", "selection");
            out.say(if out.json { "null" } else { "none" });
        }
        animation => out.count(" selection ", "selection", animation as u64),
    }
}

// The key that is held, and how it was at opening.
fn say_open(out: &mut Out, drag: Drag) {
    out.count(" drag ", "drag_track", drag.track as u64);
    out.count(" ", "drag_key", drag.key as u64);
    number(out, " from ", "start_frame", drag.start_frame);
    number(out, " ", "start_value", drag.start_value);
    number(out, " ", "start_slope", drag.start_slope);
    if out.json {
        out.flag("", "moved", drag.moved);
    } else {
        out.say(if drag.moved { ", moved" } else { ", not moved" });
    }
}

fn say_drag(out: &mut Out, drag: Drag) {
    if drag.open {
        say_open(out, drag);
    } else {
        out.word(" drag ", "drag", "none");
    }
}

fn say_counts(out: &mut Out, p: &Player) {
    out.count(" reach ", "reach", p.reach);
    out.count(" redo ", "redo", p.redo);
    out.count(" accepted ", "accepted", p.accepted);
    out.count(" undone ", "undone", p.undone);
    out.count(" redone ", "redone", p.redone);
    out.count(" standing ", "standing", p.standing);
}

pub fn say_player(out: &mut Out, p: &Player) {
    say_selection(out, p.selection);
    number(out, " frame ", "frame", p.frame);
    out.flag(" playing ", "playing", p.playing);
    out.flag(" preview ", "preview", p.preview);
    say_counts(out, p);
    say_drag(out, p.drag);
}
