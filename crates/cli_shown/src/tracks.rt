// The lent keys, one of them or track by track.
ghost use Rattle.std.specs.Prelude.{◌<◌};
ghost use Rattle.sheet.specs.Sizes.{target_count};

use cli_numbers::number;
use cli_page::Out;
use curve::Key;
use sheet::Sheet;

// A number that isn't there is left out.
fn say_number(out: &mut Out, words: &str, name: &str, x: Option<f32>) {
    if let Some(x) = x {
        number(out, words, name, x);
    }
}

fn say_numbers(out: &mut Out, frame: Option<f32>, value: Option<f32>, slope: Option<f32>) {
    say_number(out, " frame ", "frame", frame);
    say_number(out, " value ", "value", value);
    say_number(out, " slope ", "slope", slope);
}

// A key's numbers, as they are stored.
pub fn say_key(out: &mut Out, key: Key) {
    say_numbers(out, Some(key.frame), Some(key.value), Some(key.slope));
}

// The keys of a track, each on a line. Stays over three slices, as what calls it.
#[tactic(auto, using(sheet::specs::Checked::target_keys))]
fn say_track(
    out: &mut Out,
    line: u64,
    track: usize,
    sheet: Sheet<'_>,
    frames: &[f32],
    values: &[f32],
    slopes: &[f32],
)
    requires { track < target_count sheet.bytes.now }
{
    let row = sheet.target(track);
    for key in 0..row.count {
        let at = row.first + key;
        out.begin();
        cli_facts::say_line(out, line);
        out.count("track ", "track", track as u64);
        out.count(" key ", "key", key as u64);
        say_numbers(
            out,
            frames.get(at).copied(),
            values.get(at).copied(),
            slopes.get(at).copied(),
        );
        out.end();
    }
}

// Stays over three slices: they are listed as they are, unlike lengths and broken rules too.
pub fn say_keys(
    out: &mut Out,
    line: u64,
    sheet: Sheet<'_>,
    frames: &[f32],
    values: &[f32],
    slopes: &[f32],
) {
    for track in 0..sheet.target_count() {
        say_track(out, line, track, sheet, frames, values, slopes);
    }
}
