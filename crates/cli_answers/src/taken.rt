// What a call made of the player is taken over, and said: for an edit, a drag or a drop, the key as it is stored too, and whether it is another than
// the one that was asked for.
use cli_page::Out;
use cli_printed::accepted;
use curve::Key;
use float::same_bits;
use laws::Refusal;
use menu::{Edited, Played, Ticked};
use player::{Player, Tick};
use sheet::Sheet;

// A call that says no more than that it was accepted.
pub fn take(out: &mut Out, player: &mut Player, made: Played) -> Result<(), Refusal> {
    *player = made.player;
    accepted(made.refusal)?;
    out.word(" ", "answer", "ok");
    Ok(())
}

pub fn take_tick(
    out: &mut Out,
    player: &mut Player,
    made: Ticked,
    sheet: Sheet<'_>,
) -> Result<(), Refusal> {
    *player = made.player;
    accepted(made.refusal)?;
    let answer = match made.answer {
        Tick::Idle => "idle",
        Tick::Running => "running",
        Tick::Ended | Tick::Next => "ended",
    };
    out.word(" ", "answer", answer);
    if let Tick::Next = made.answer {
        let name = menu::next_name(sheet.bytes, player.selection);
        cli_printed::name(out, " next ", "next", name);
    }
    Ok(())
}

// The key of a track, and the frame and the value that an edit asks it to have.
#[derive(Clone, Copy)]
pub struct Edit {
    track: u16,
    key: u16,
    asked: Option<(f32, f32)>,
}

impl Edit {
    pub fn of(track: u16, key: u16) -> Edit {
        Edit {
            track,
            key,
            asked: None,
        }
    }

    pub fn asking(self, frame: f32, value: f32) -> Edit {
        Edit {
            asked: Some((frame, value)),
            ..self
        }
    }

    // The key as it is stored. Stays over three slices: they need not be one length.
    #[tactic(auto, using(sheet::specs::Checked::target_keys))]
    fn stored(
        self,
        sheet: Sheet<'_>,
        frames: &[f32],
        values: &[f32],
        slopes: &[f32],
    ) -> Option<Key> {
        let track = self.track as usize;
        let key = self.key as usize;
        if track >= sheet.target_count() {
            return None;
        }
        let row = sheet.target(track);
        if key >= row.count {
            return None;
        }
        let at = row.first + key;
        Some(Key {
            frame: *frames.get(at)?,
            value: *values.get(at)?,
            slope: *slopes.get(at)?,
        })
    }
}

// The key as it is stored: a frame may have been clamped, a value rounded.
fn say_stored(out: &mut Out, key: Key, asked: Option<(f32, f32)>) {
    cli_shown::say_key(out, key);
    if let Some((frame, value)) = asked {
        out.mark(" clamped", "clamped", !same_bits(key.frame, frame));
        out.mark(" rounded", "rounded", !same_bits(key.value, value));
    }
}

// Stays over three slices: they need not be one length.
pub fn take_edit(
    out: &mut Out,
    player: &mut Player,
    made: Edited,
    edit: Edit,
    sheet: Sheet<'_>,
    frames: &[f32],
    values: &[f32],
    slopes: &[f32],
) -> Result<(), Refusal> {
    *player = made.player;
    accepted(made.refusal)?;
    let answer = if made.unchanged { "unchanged" } else { "ok" };
    out.word(" ", "answer", answer);
    if let Some(key) = edit.stored(sheet, frames, values, slopes) {
        say_stored(out, key, edit.asked);
    }
    Ok(())
}
