// A sheet and its keys, looked at once: whoever holds them needs no proof of its own that a track's keys are there and keep their rules.
// Stays over three slices where they are looked at: C lends them apart.
ghost use Rattle.std.specs.Prelude.{◌≡◌};
ghost use Rattle.laws.specs.Refusal.{declined};
ghost use Rattle.laws.specs.Rows.{declines};
ghost use Rattle.keys.specs.Load.{lent_rows};
ghost use Rattle.keys.specs.Checked.{KeysChecked};

use crate::load::arrays_ok;
use crate::rules::keys_ok;
use curve::Keys;
use laws::{Refusal, ask};
use sheet::Sheet;

// Rows 3 and 4 of the table of refusals.
#[tactic(auto, unfolding(crate::specs::Load::lengths_ok, laws::specs::Rows::declines, laws::specs::Rows::unless))]
fn check_lent(
    sheet: &Sheet<'_>,
    frames: &[f32],
    values: &[f32],
    slopes: &[f32],
) -> Result<(), Refusal>
    ensures { declined result ≡ declines (lent_rows sheet.now.bytes.now frames.now values.now slopes.now) }
{
    ask(
        arrays_ok(sheet, frames.len(), values.len(), slopes.len()),
        Refusal::KeyArrayLength,
    )?;
    ask(
        keys_ok(sheet.bytes, frames, values, slopes),
        Refusal::KeyRules,
    )
}

#[derive(Clone, Copy)]
pub struct Ready<'a> {
    pub sheet: Sheet<'a>,
    pub keys: Keys<'a>,
    pub ghost ready: { KeysChecked sheet.bytes.now keys.frames.now keys.values.now keys.slopes.now },
}

impl<'a> Ready<'a> {
    ghost use Rattle.std.specs.Prelude.{◌≡◌, ◌<◌, IfOk};
    ghost use Rattle.laws.specs.Refusal.{declined};
    ghost use Rattle.laws.specs.Rows.{declines};
    ghost use Rattle.sheet.specs.Sizes.{target_count};
    ghost use Rattle.sheet.specs.Rows.{target_row};
    ghost use Rattle.curve.specs.Keys.{part_of};
    ghost use Rattle.keys.specs.Load.{lent_rows};

    // Rows 3 and 4 of the table of refusals, of lent slices.
    pub fn lent(
        sheet: Sheet<'a>,
        frames: &'a [f32],
        values: &'a [f32],
        slopes: &'a [f32],
    ) -> Result<Ready<'a>, Refusal>
        ensures declined { declined result ≡ declines (lent_rows sheet.entry.bytes.now frames.now values.now slopes.now) }
        ensures sheet { IfOk result (λ r. r.sheet.bytes.now ≡ sheet.entry.bytes.now) }
        ensures frames { IfOk result (λ r. r.keys.frames.now ≡ frames.now) }
        ensures values { IfOk result (λ r. r.keys.values.now ≡ values.now) }
        ensures slopes { IfOk result (λ r. r.keys.slopes.now ≡ slopes.now) }
    {
        check_lent(&sheet, frames, values, slopes)?;
        let keys = Keys {
            frames,
            values,
            slopes,
        };
        Ok(Ready { sheet, keys })
    }

    // The same of keys that are one length already.
    pub fn new(sheet: Sheet<'a>, keys: Keys<'a>) -> Result<Ready<'a>, Refusal>
        ensures declined { declined result ≡ declines (lent_rows sheet.entry.bytes.now keys.entry.frames.now keys.entry.values.now keys.entry.slopes.now) }
        ensures sheet { IfOk result (λ r. r.sheet.bytes.now ≡ sheet.entry.bytes.now) }
        ensures frames { IfOk result (λ r. r.keys.frames.now ≡ keys.entry.frames.now) }
        ensures values { IfOk result (λ r. r.keys.values.now ≡ keys.entry.values.now) }
        ensures slopes { IfOk result (λ r. r.keys.slopes.now ≡ keys.entry.slopes.now) }
    {
        Ready::lent(sheet, keys.frames, keys.values, keys.slopes)
    }

    // The keys of track t.
    #[tactic(auto, using(sheet::specs::Checked::target_keys))]
    pub fn part(&self, t: usize) -> Keys<'a>
        requires { t < target_count self.now.sheet.bytes.now }
        ensures frames { result.frames.now ≡ part_of (target_row self.now.sheet.bytes.now t).first (target_row self.now.sheet.bytes.now t).count self.now.keys.frames.now }
        ensures values { result.values.now ≡ part_of (target_row self.now.sheet.bytes.now t).first (target_row self.now.sheet.bytes.now t).count self.now.keys.values.now }
        ensures slopes { result.slopes.now ≡ part_of (target_row self.now.sheet.bytes.now t).first (target_row self.now.sheet.bytes.now t).count self.now.keys.slopes.now }
    {
        let target = self.sheet.target(t);
        self.keys.part(target.first, target.count)
    }
}
