// The channels that differing keys reach: by a plan of the animation and one pass over its targets, as a whole reading.
// Stays a fact beside the plan: a value that holds it would have to hold the sheet and the book too.
use crate::TwoSets;
use book::Book;
use reading::{MOST_TARGETS, Plan, numbered_channel, plan_of};

impl<'a> TwoSets<'a> {
    ghost use Rattle.std.specs.Prelude.{◌≡◌, length, replicate};
    ghost use Rattle.channel.specs.Channel.{channel_count};
    ghost use Rattle.reading.specs.Plan.{Planned};
    ghost use Rattle.edit.specs.Keys.{keys};
    ghost use Rattle.reach.specs.Touched.{channel_marks};

    // The pass over the planned targets, over a cleared table: a later target's mark is stored over an earlier one's. Only the contract speaks of the book.
    fn sweep(&self, book: &Book<'_>, p: Plan, numbers: &[u16], channels: &mut [u8])
        requires planned { Planned self.now.old.sheet.bytes.now book.now.bytes.now p numbers.now }
        requires channels_value { channels.old ≡ replicate (channel_count book.now.bytes.now) 0 }
        ensures { channels.new ≡ channel_marks self.now.old.sheet.bytes.now book.now.bytes.now (keys self.now.old.keys.frames.now self.now.old.keys.values.now self.now.old.keys.slopes.now) (keys self.now.new.frames.now self.now.new.values.now self.now.new.slopes.now) p.animation }
    {
        for t in p.from..p.to {
            let Some(c) = numbered_channel(numbers[t]) else {
                continue;
            };
            channels[c] = u8::from(!self.same_track(t));
        }
    }

    // A mark for each channel of the book: 1 where the track that decides it, while animation a is active, has a key that differs.
    pub fn touched_channels(&self, book: &Book<'_>, a: usize, channels: &mut [u8])
        requires { length channels.old ≡ channel_count book.now.bytes.now }
        ensures { channels.new ≡ channel_marks self.now.old.sheet.bytes.now book.now.bytes.now (keys self.now.old.keys.frames.now self.now.old.keys.values.now self.now.old.keys.slopes.now) (keys self.now.new.frames.now self.now.new.values.now self.now.new.slopes.now) a }
    {
        // Stays an array of the most: nothing allocates.
        let mut numbers = [0u16; MOST_TARGETS];
        let p = plan_of(&self.old.sheet, *book, a, &mut numbers);
        channels.fill(0);
        self.sweep(book, p, &numbers, channels);
    }
}
