// The calls that show something: a single reading, all channels, a resolved pane or layer, names, the cascade, the keys, the player.
use crate::resolved::{say_pane, say_srt};
use crate::state::say_player;
use crate::tracks::say_keys;
use cli_calls::{Call, Query};
use cli_facts::{Files, Lead, Screen, slot_of};
use cli_page::Out;
use cli_printed::Owner;
use cli_why::say_declined;
use laws::Refusal;
use menu_checks::Lent;
use player::Player;
use reading::Reading;
use sheet::Sheet;

// What one channel reads; the name of a texture's row is that of the material's slot.
fn say_one(
    out: &mut Out,
    screen: Screen<'_>,
    owner: Owner,
    row: u16,
    c: u16,
) -> Result<(), Refusal> {
    let reading = screen.read(owner, row, c)?;
    let slot = match reading {
        Reading::Row(_) => slot_of(c as usize),
        _ => None,
    };
    let name = slot.map(|slot| screen.texture_name(row, slot)).transpose()?;
    cli_facts::say_reading(out, reading, name);
    Ok(())
}

// The name of a material's texture slot.
fn say_texture(out: &mut Out, screen: Screen<'_>, material: u16, slot: u16) -> Result<(), Refusal> {
    let name = screen.texture_name(material, slot)?;
    cli_printed::name(out, " name ", "texture", name);
    Ok(())
}

// The name of the animation that follows one. The sheet's row says whether there is one: a name that is there may be empty.
fn say_next(out: &mut Out, animation: u16, sheet: Sheet<'_>) -> Result<(), Refusal> {
    let i = animation as usize;
    laws::ask(i < sheet.animation_count(), Refusal::NoAnimation)?;
    if sheet.animation(i).next {
        cli_printed::name(out, " next ", "next", sheet.next_name(i));
    } else {
        out.word(" ", "answer", "none");
    }
    Ok(())
}

// The answer, with the line's end. One of several lines stands behind one that has the call alone.
// Stays over three slices: they need not be one length.
pub fn show(
    out: &mut Out,
    line: u64,
    query: Query,
    player: &Player,
    files: Files<'_>,
    frames: &[f32],
    values: &[f32],
    slopes: &[f32],
) {
    let Files { sheet, book } = files;
    let lent = Lent::new(sheet.bytes, frames, values, slopes);
    let screen = Screen { player, book, lent };
    let shown = match query {
        Query::Read {
            owner,
            row,
            channel,
        } => say_one(out, screen, owner, row, channel),
        Query::ResolvePane { pane } => screen.resolve_pane(pane).map(|r| say_pane(out, r)),
        Query::ResolveSrt { material, layer } => {
            screen.resolve_srt(material, layer).map(|t| say_srt(out, t))
        }
        Query::Name { material, slot } => say_texture(out, screen, material, slot),
        Query::Next { animation } => say_next(out, animation, sheet),
        Query::Player => {
            say_player(out, player);
            Ok(())
        }
        Query::ReadAll => {
            out.end();
            cli_facts::say_readings(out, Lead::Line(line), screen);
            return;
        }
        Query::Cascade => {
            out.end();
            cli_facts::say_cascade(out, Lead::Line(line), screen);
            return;
        }
        Query::Keys => {
            out.end();
            say_keys(out, line, sheet, frames, values, slopes);
            return;
        }
    };
    if let Err(refusal) = shown {
        say_declined(out, refusal, player.selection, Call::Show(query), files);
    }
    out.end();
}
