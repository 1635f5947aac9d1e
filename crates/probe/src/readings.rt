// A whole reading, without a player. Stays with the slices apart: so C lends them.
ghost use Rattle.std.specs.Prelude.{◌≡◌, length, IsOk, IfOk};
ghost use Rattle.channel.specs.Channel.{channel_count};
ghost use Rattle.reading.specs.Plan.{Planned};
ghost use Rattle.probe.specs.Readable.{CanReadAll};

use book::Book;
use keys::Ready;
use laws::{Refusal, ask};
use reading::{At, MOST_TARGETS, Menu, Plan, plan_of};
use sheet::Sheet;

// What can be read into so many marks and numbers: rows 1 to 4 and 13 of the table of refusals decline nothing.
fn menu_of<'a>(
    s: &'a [u8],
    b: &'a [u8],
    frames: &'a [f32],
    values: &'a [f32],
    slopes: &'a [f32],
    marks: usize,
    numbers: usize,
) -> Result<Menu<'a>, Refusal>
    ensures sheet { IfOk result (λ m. m.ready.sheet.bytes.now ≡ s.now) }
    ensures book { IfOk result (λ m. m.book.bytes.now ≡ b.now) }
    ensures frames { IfOk result (λ m. m.ready.keys.frames.now ≡ frames.now) }
    ensures values { IfOk result (λ m. m.ready.keys.values.now ≡ values.now) }
    ensures slopes { IfOk result (λ m. m.ready.keys.slopes.now ≡ slopes.now) }
    ensures can_read { IsOk result → CanReadAll s.now b.now frames.now values.now slopes.now marks numbers }
    ensures marks { IfOk result (λ m. marks ≡ channel_count m.book.bytes.now) }
    ensures numbers { IfOk result (λ m. numbers ≡ channel_count m.book.bytes.now) }
{
    let sheet = Sheet::new(s)?;
    let book = Book::new(b)?;
    let ready = Ready::lent(sheet, frames, values, slopes)?;
    let count = channel::channel_count(&book);
    ask(marks == count, Refusal::OutputLength)?;
    ask(numbers == count, Refusal::OutputLength)?;
    Ok(Menu { ready, book })
}

// `times` rows of a plan, at frames that lie a step apart.
fn read_rows(
    menu: &Menu<'_>,
    p: Plan,
    channels: &[u16],
    frame: f32,
    step: f32,
    times: usize,
    marks: &mut [u8],
    numbers: &mut [f32],
)
    requires planned { Planned menu.now.ready.sheet.bytes.now menu.now.book.bytes.now p channels.now }
    requires marks_len { length marks.old ≡ channel_count menu.now.book.bytes.now }
    requires numbers_len { length numbers.old ≡ channel_count menu.now.book.bytes.now }
{
    let mut x = frame;
    for _ in 0..times {
        menu.read_row(p, channels, x, marks, numbers);
        x += step;
    }
}

// The checks and the plan once and then `times` rows, as for a table of frames.
pub fn probe_read_frames(
    s: &[u8],
    b: &[u8],
    frames: &[f32],
    values: &[f32],
    slopes: &[f32],
    animation: usize,
    frame: f32,
    step: f32,
    times: usize,
    marks: &mut [u8],
    numbers: &mut [f32],
) -> bool {
    let Ok(menu) = menu_of(s, b, frames, values, slopes, marks.len(), numbers.len()) else {
        return false;
    };
    // Stays an array of the most: nothing allocates.
    let mut channels = [0u16; MOST_TARGETS];
    let p = plan_of(&menu.ready.sheet, menu.book, animation, &mut channels);
    read_rows(&menu, p, &channels, frame, step, times, marks, numbers);
    true
}

// The checks once and then `times` whole readings, each with a plan of its own.
pub fn probe_read_times(
    s: &[u8],
    b: &[u8],
    frames: &[f32],
    values: &[f32],
    slopes: &[f32],
    animation: usize,
    frame: f32,
    step: f32,
    times: usize,
    marks: &mut [u8],
    numbers: &mut [f32],
) -> bool {
    let Ok(menu) = menu_of(s, b, frames, values, slopes, marks.len(), numbers.len()) else {
        return false;
    };
    let mut x = frame;
    for _ in 0..times {
        let at = At {
            animation,
            frame: x,
        };
        menu.read_all(Some(at), marks, numbers);
        x += step;
    }
    true
}

// Whether it could be read.
pub fn probe_read_all(
    s: &[u8],
    b: &[u8],
    frames: &[f32],
    values: &[f32],
    slopes: &[f32],
    selected: bool,
    animation: usize,
    frame: f32,
    marks: &mut [u8],
    numbers: &mut [f32],
) -> bool {
    let Ok(menu) = menu_of(s, b, frames, values, slopes, marks.len(), numbers.len()) else {
        return false;
    };
    let active = if selected {
        Some(At { animation, frame })
    } else {
        None
    };
    menu.read_all(active, marks, numbers);
    true
}
