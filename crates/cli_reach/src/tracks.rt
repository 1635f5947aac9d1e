// The edited tracks of an animation: what each changes, or why it changes nothing.
ghost use Rattle.std.specs.Prelude.{◌<◌, ◌≤◌, length};
ghost use Rattle.sheet.specs.Sizes.{target_count, animation_count};
ghost use Rattle.channel.specs.Channel.{channel_count};

use crate::changes::say_changes;
use crate::compared::Compared;
use cli_facts::{place_of, say_place};
use cli_info::ContentType;
use cli_page::Out;
use reading::{MOST_TARGETS, numbered_channel};
use sheet::Sheet;

// Progress is told each time this many tracks are done.
const EVERY: u64 = 64;

// The last track with the channel of track t, which is t or a later one. Stays over the plan's numbers: equal channels have equal numbers.
fn decider(channels: &[u16], t: usize) -> usize
    requires { t < length channels.now }
{
    let c = channels[t];
    channels.iter().rposition(|d| *d == c).unwrap_or(t)
}

fn say_nothing(out: &mut Out) {
    out.word(": changes ", "changes", "nothing");
}

// A track that addresses no channel of the book: its content, and its channel or its code.
#[tactic(auto, using(sheet::specs::Checked::target_content_lem))]
fn say_unaddressed(out: &mut Out, sheet: Sheet<'_>, t: usize)
    requires { t < target_count sheet.bytes.now }
{
    let row = sheet.target(t);
    let kind = ContentType::of(sheet.content(row.content).kind);
    cli_info::say_named(out, sheet, row.content);
    let why = match cli_info::channel_of(kind, row) {
        Some((owner, c)) => {
            cli_printed::name_channel(out, owner, c);
            "the book has nothing of that name"
        }
        None => {
            cli_info::say_code(out, sheet, t);
            "addresses nothing"
        }
    };
    say_nothing(out);
    out.word(": ", "why", why);
}

// One past the last frame of an animation: a tick stops on its frame count itself.
pub fn frames_end(sheet: Sheet<'_>, a: usize) -> u32
    requires { a < animation_count sheet.bytes.now }
    ensures { result ≤ 65536 }
{
    sheet.animation(a).frames as u32 + 1
}

// An edited track with channel c of the book; `by` is the track that decides it.
fn say_edited(out: &mut Out, compared: Compared<'_>, a: usize, t: usize, c: usize, by: usize)
    requires in_sheet { (a < animation_count compared.sets.old.sheet.bytes.now) × (t < target_count compared.sets.old.sheet.bytes.now) }
    requires in_book { c < channel_count compared.book.bytes.now }
{
    out.lead(" ");
    say_place(out, compared.book, place_of(compared.book, c));
    if by == t {
        say_changes(out, compared, t, frames_end(compared.sets.old.sheet, a));
        return;
    }
    say_nothing(out);
    out.count(": track ", "decided_by", by as u64);
    out.lead(" decides the channel");
}

// Track t, where a key of it differs; `channels` has the channel of each track of the animation, by the track's number.
fn say_track(out: &mut Out, compared: Compared<'_>, a: usize, t: usize, channels: &[u16])
    requires in_sheet { (a < animation_count compared.sets.old.sheet.bytes.now) × (t < target_count compared.sets.old.sheet.bytes.now) }
    requires in_run { t < length channels.now }
{
    if compared.sets.same_track(t) {
        return;
    }
    out.begin();
    out.count("animation ", "animation", a as u64);
    out.count(" track ", "track", t as u64);
    match numbered_channel(channels[t]) {
        Some(c) if c < channel::channel_count(&compared.book) => {
            say_edited(out, compared, a, t, c, decider(channels, t));
        }
        _ => say_unaddressed(out, compared.sets.old.sheet, t),
    }
    out.end();
}

// The edited tracks of animation a.
pub fn say_tracks(out: &mut Out, compared: Compared<'_>, a: usize)
    requires { a < animation_count compared.sets.old.sheet.bytes.now }
{
    let Compared { sets, book } = compared;
    // Stays an array of the most targets: nothing allocates.
    let mut channels = [0u16; MOST_TARGETS];
    let plan = reading::plan_of(&sets.old.sheet, book, a, &mut channels);
    let total = plan.to.saturating_sub(plan.from) as u64;
    let mut done = 0u64;
    for t in plan.from..plan.to {
        say_track(out, compared, a, t, &channels[..plan.to]);
        done = done.wrapping_add(1);
        cli_command::progress(out, done, Some(total), EVERY, " tracks");
    }
    cli_command::progress_end(out, done, EVERY);
}
