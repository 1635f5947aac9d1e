// The plan of a whole reading: what doesn't change from frame to frame. It is made once, then each frame's row needs the curves alone.
ghost use Rattle.std.specs.Prelude.{◌≡◌, ◌<◌, ◌≤◌, length};
ghost use Rattle.laws.specs.Parted.{Parted};
ghost use Rattle.sheet.specs.Sizes.{target_count};
ghost use Rattle.channel.specs.Animation.{target_animation};
ghost use Rattle.reading.specs.Plan.{no_channel, channel_number, numbered_channel, Run, Numbered, Planned};

use book::Book;
use channel::{Names, labels, material_names, row_channel};
use sheet::Sheet;

// How many targets a sheet has at most: a plan's channels are lent as so many numbers.
pub const MOST_TARGETS: usize = 256;

// The number that stands for no channel. Stays a number: an option takes twice the 16 bits that a row of a plan reads of each target.
const NO_CHANNEL: u16 = 65535;

// From so many contents on an index of names pays, by measurement.
const MANY: usize = 12;

// The targets of an animation are those from `from` up to `to`. The channel of each is in a lent array, at the target's number.
// Stays two numbers: a Range is no Copy, and a plan is handed on by value for each frame.
#[derive(Clone, Copy, Debug)]
pub struct Plan {
    pub animation: usize,
    pub from: usize,
    pub to: usize,
}

#[tactic(auto, using(sheet::specs::Checked::target_content_lem), unfolding(channel::specs::Animation::target_animation))]
fn target_animation(sheet: &Sheet<'_>, t: usize) -> usize
    requires { t < target_count sheet.now.bytes.now }
    ensures { result ≡ target_animation sheet.now.bytes.now t }
{
    sheet.content(sheet.target(t).content).animation
}

// How many targets belong to animations below a: the animations of targets never fall.
// Stays by halves, written out: the library's `partition_point` goes over a slice of rows, and a sheet's targets are bytes, 14 to a row.
#[tactic(auto, using(crate::proofs::Planning::animations_climb, laws::specs::Parted::parted_none, laws::specs::Parted::parted_low, laws::specs::Parted::parted_high, laws::specs::Parted::parted_met))]
fn targets_below(sheet: &Sheet<'_>, a: usize) -> usize
    ensures { Parted (target_animation sheet.now.bytes.now) (target_count sheet.now.bytes.now) a result result }
{
    let mut lo = 0;
    let mut hi = sheet.target_count();
    while lo < hi {
        let mid = lo + (hi - lo) / 2;
        if target_animation(sheet, mid) < a {
            lo = mid + 1;
        } else {
            hi = mid;
        }
    }
    lo
}

// The run of targets of animation a; of none where there is no such animation.
#[tactic(auto, using(crate::proofs::Planning::run_none, crate::proofs::Planning::run_between))]
fn run_of(sheet: &Sheet<'_>, a: usize) -> Plan
    ensures animation { result.animation ≡ a }
    ensures run { Run sheet.now.bytes.now result }
{
    if a >= sheet.animation_count() {
        return Plan {
            animation: a,
            from: 0,
            to: 0,
        };
    }
    Plan {
        animation: a,
        from: targets_below(sheet, a),
        to: targets_below(sheet, a + 1),
    }
}

fn channel_number(channel: Option<usize>) -> u16
    requires { channel_number channel ≤ no_channel }
    ensures { result ≡ channel_number channel }
{
    match channel {
        Some(c) => c as u16,
        None => NO_CHANNEL,
    }
}

// The channel with a number of a plan. Stays a comparison: a plan has 16 bits for each, one number of which stands for none.
pub fn numbered_channel(number: u16) -> Option<usize>
    ensures { result ≡ numbered_channel number }
{
    if number == NO_CHANNEL {
        None
    } else {
        Some(number as usize)
    }
}

// Whether the run has so many contents that an index of the book's names pays.
#[tactic(auto, using(sheet::specs::Checked::target_content_lem))]
fn many_contents(sheet: &Sheet<'_>, p: Plan) -> bool
    requires { Run sheet.now.bytes.now p }
{
    p.from < p.to && sheet.target(p.from).content + MANY <= sheet.target(p.to - 1).content
}

// The channel of each target of the run. The rows' place is summed once.
fn number_channels(sheet: &Sheet<'_>, names: &Names<'_, '_>, p: Plan, channels: &mut [u16])
    requires run { Run sheet.now.bytes.now p }
    requires room { target_count sheet.now.bytes.now ≤ length channels.old }
    ensures { Numbered sheet.now.bytes.now names.now.book.bytes.now p channels.new p.to }
{
    let s = sheet.bytes;
    let base = sheet::targets_at(s);
    let mut held = None;
    for t in p.from..p.to {
        let row = sheet::target_at(s, base + t * sheet::TARGET_BYTES);
        let now = names.held_for(sheet, p.animation, row.content, held);
        channels[t] = channel_number(row_channel(&names.book, now.reached, row));
        held = Some(now);
    }
}

// The plan of animation a.
pub fn plan_of(sheet: &Sheet<'_>, book: Book<'_>, a: usize, channels: &mut [u16]) -> Plan
    requires { target_count sheet.now.bytes.now ≤ length channels.old }
    ensures animation { result.animation ≡ a }
    ensures planned { Planned sheet.now.bytes.now book.entry.bytes.now result channels.new }
{
    let p = run_of(sheet, a);
    if many_contents(sheet, p) {
        let panes = labels(&book).index();
        let materials = material_names(&book).index();
        let indexed = Names {
            book,
            panes: Some(&panes),
            materials: Some(&materials),
        };
        number_channels(sheet, &indexed, p, channels);
    } else {
        let plain = Names {
            book,
            panes: None,
            materials: None,
        };
        number_channels(sheet, &plain, p, channels);
    }
    p
}
