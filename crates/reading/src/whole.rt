// The whole reading: a mark and a number for each channel of the book, by a plan and one pass over its targets.
// Stays a fact beside the plan: a value that holds it would have to hold the sheet and the book too.
ghost use Rattle.std.specs.Prelude.{◌≡◌, ◌<◌, length, set, replicate};
ghost use Rattle.std.specs.Float.Ieee.{to_unsigned};
ghost use Rattle.float.specs.Numbers.{zero'};
ghost use Rattle.reading.specs.Reading.{read_as, mark_of, number_of};

use crate::plan::{MOST_TARGETS, Plan, numbered_channel, plan_of};
use crate::value::{mark_as, number_as, row_value};
use crate::{At, Menu};
use channel::Family;

// Tables in which nothing is overridden.
fn clear(marks: &mut [u8], numbers: &mut [f32])
    ensures marks_after { marks.new ≡ replicate (length marks.old) 0 }
    ensures numbers_after { numbers.new ≡ replicate (length numbers.old) zero' }
{
    marks.fill(0);
    numbers.fill(0.0);
}

// Both tables are stored, so that a later target that reads nothing takes an earlier override away.
fn put(marks: &mut [u8], numbers: &mut [f32], c: usize, f: Family, v: f32, textures: usize)
    requires { (c < length marks.old) × (c < length numbers.old) }
    ensures marks_after { marks.new ≡ set marks.old c (mark_of (read_as f v (to_unsigned 16 v) textures)) }
    ensures numbers_after { numbers.new ≡ set numbers.old c (number_of (read_as f v (to_unsigned 16 v) textures)) }
{
    marks[c] = mark_as(f, v, textures);
    numbers[c] = number_as(f, v, textures);
}

impl<'a> Menu<'a> {
    ghost use Rattle.std.specs.Prelude.{◌≡◌, length, replicate};
    ghost use Rattle.float.specs.Numbers.{zero'};
    ghost use Rattle.channel.specs.Channel.{channel_count};
    ghost use Rattle.reading.specs.Reading.{marks_of, numbers_of};
    ghost use Rattle.reading.specs.Active.{active_at};
    ghost use Rattle.reading.specs.Plan.{Planned};

    // The pass over the planned targets, over cleared tables, at frame x. Only the contract speaks of the book. The rows' place is summed once.
    fn sweep(&self, p: Plan, channels: &[u16], x: f32, marks: &mut [u8], numbers: &mut [f32])
        requires planned { Planned self.now.ready.sheet.bytes.now self.now.book.bytes.now p channels.now }
        requires marks_value { marks.old ≡ replicate (channel_count self.now.book.bytes.now) 0 }
        requires numbers_value { numbers.old ≡ replicate (channel_count self.now.book.bytes.now) zero' }
        ensures marks_after { marks.new ≡ marks_of self.now.ready.sheet.bytes.now self.now.book.bytes.now self.now.ready.keys.frames.now self.now.ready.keys.values.now self.now.ready.keys.slopes.now (active_at p.animation x) }
        ensures numbers_after { numbers.new ≡ numbers_of self.now.ready.sheet.bytes.now self.now.book.bytes.now self.now.ready.keys.frames.now self.now.ready.keys.values.now self.now.ready.keys.slopes.now (active_at p.animation x) }
    {
        let s = self.ready.sheet.bytes;
        let keys = self.ready.keys;
        let base = sheet::targets_at(s);
        let textures = sheet::texture_count(s);
        for t in p.from..p.to {
            let Some(c) = numbered_channel(channels[t]) else {
                continue;
            };
            let row = sheet::target_at(s, base + t * sheet::TARGET_BYTES);
            let v = row_value(keys.frames, keys.values, keys.slopes, x, row);
            put(marks, numbers, c, Family::from(row.code), v, textures);
        }
    }

    // The row of one frame: every channel of the book at frame x, by a plan.
    pub fn read_row(&self, p: Plan, channels: &[u16], x: f32, marks: &mut [u8], numbers: &mut [f32])
        requires planned { Planned self.now.ready.sheet.bytes.now self.now.book.bytes.now p channels.now }
        requires marks_len { length marks.old ≡ channel_count self.now.book.bytes.now }
        requires numbers_len { length numbers.old ≡ channel_count self.now.book.bytes.now }
        ensures marks_after { marks.new ≡ marks_of self.now.ready.sheet.bytes.now self.now.book.bytes.now self.now.ready.keys.frames.now self.now.ready.keys.values.now self.now.ready.keys.slopes.now (active_at p.animation x) }
        ensures numbers_after { numbers.new ≡ numbers_of self.now.ready.sheet.bytes.now self.now.book.bytes.now self.now.ready.keys.frames.now self.now.ready.keys.values.now self.now.ready.keys.slopes.now (active_at p.animation x) }
    {
        clear(marks, numbers);
        self.sweep(p, channels, x, marks, numbers);
    }

    // The Rust's AnimationState::evaluate, over every channel of the book: with something active, a plan and its one row.
    #[tactic(auto, using(crate::proofs::Pass::nothing_marked, crate::proofs::Pass::nothing_numbered))]
    pub fn read_all(&self, active: Option<At>, marks: &mut [u8], numbers: &mut [f32])
        requires marks_len { length marks.old ≡ channel_count self.now.book.bytes.now }
        requires numbers_len { length numbers.old ≡ channel_count self.now.book.bytes.now }
        ensures marks_after { marks.new ≡ marks_of self.now.ready.sheet.bytes.now self.now.book.bytes.now self.now.ready.keys.frames.now self.now.ready.keys.values.now self.now.ready.keys.slopes.now active }
        ensures numbers_after { numbers.new ≡ numbers_of self.now.ready.sheet.bytes.now self.now.book.bytes.now self.now.ready.keys.frames.now self.now.ready.keys.values.now self.now.ready.keys.slopes.now active }
    {
        match active {
            Some(at) => {
                // Stays an array of the most: nothing allocates.
                let mut channels = [0u16; MOST_TARGETS];
                let p = plan_of(&self.ready.sheet, self.book, at.animation, &mut channels);
                self.read_row(p, &channels, at.frame, marks, numbers);
            }
            None => clear(marks, numbers),
        }
    }
}
