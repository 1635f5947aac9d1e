// The tracks of a sheet: what each moves, by name.
ghost use Rattle.std.specs.Prelude.{◌<◌};
ghost use Rattle.sheet.specs.Sizes.{target_count};

use crate::contents::{ContentType, say_named};
use cli_page::Out;
use cli_printed::Owner;
use curve::Kind;
use sheet::{Sheet, Target};

fn curve_name(kind: Kind) -> &'static str {
    match kind {
        Kind::Constant => "Constant",
        Kind::Step => "Step",
        Kind::Hermite => "Hermite",
    }
}

// The channel that a track addresses, and whose it is, its content being of a type.
pub fn channel_of(kind: ContentType, row: Target) -> Option<(Owner, usize)> {
    let owner = kind.owner()?;
    let c = match owner {
        Owner::Pane => channel::pane_row_channel(row)?,
        Owner::Material => channel::material_row_channel(row)?,
    };
    Some((owner, c))
}

// The code, layer and raw number of track i, as they stand in the sheet: the code is no family's, or doesn't fit its content.
pub fn say_code(out: &mut Out, sheet: Sheet<'_>, i: usize)
    requires { i < target_count sheet.bytes.now }
{
    let row = sheet.target(i);
    out.bytes(" ", "code", &row.code.to_le_bytes());
    out.count(" layer ", "layer", row.layer as u64);
    out.count(" raw ", "raw", row.raw as u64);
    out.note("channel", "none");
}

// Track i: its animation, its content with type and name, its channel by name, its curve.
#[tactic(auto, using(sheet::specs::Checked::target_content_lem))]
fn say_track(out: &mut Out, sheet: Sheet<'_>, i: usize)
    requires { i < target_count sheet.bytes.now }
{
    let row = sheet.target(i);
    let content = sheet.content(row.content);
    out.begin();
    out.count("track ", "track", i as u64);
    out.count(" animation ", "animation", content.animation as u64);
    out.count(" content ", "content", row.content as u64);
    say_named(out, sheet, row.content);
    match channel_of(ContentType::of(content.kind), row) {
        Some((owner, c)) => cli_printed::name_channel(out, owner, c),
        None => {
            say_code(out, sheet, i);
            out.lead(" addresses nothing");
        }
    }
    out.word(" ", "curve", curve_name(Kind::of(row.curve)));
    out.count(" keys ", "keys", row.count as u64);
    out.end();
}

pub fn say_tracks(out: &mut Out, sheet: Sheet<'_>) {
    for i in 0..sheet.target_count() {
        say_track(out, sheet, i);
    }
}
