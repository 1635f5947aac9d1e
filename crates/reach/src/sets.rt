// Two sets of keys of one sheet, each checked once.
ghost use Rattle.keys.specs.Checked.{KeysChecked};

use curve::Keys;
use keys::{Ready, keys_ok};
use laws::{Refusal, ask};
use sheet::Sheet;

// Three key arrays as they are lent: of any lengths, nothing checked.
// Stays apart from `Ready::lent`: the lengths of both sets are asked before the rules of either.
#[derive(Clone, Copy)]
pub struct KeyArrays<'a> {
    pub frames: &'a [f32],
    pub values: &'a [f32],
    pub slopes: &'a [f32],
}

// The keys before some edits, with their sheet, and the keys after them.
#[derive(Clone, Copy)]
pub struct TwoSets<'a> {
    pub old: Ready<'a>,
    pub new: Keys<'a>,
    pub ghost kept: { KeysChecked old.sheet.bytes.now new.frames.now new.values.now new.slopes.now },
}

impl<'a> KeyArrays<'a> {
    ghost use Rattle.std.specs.Prelude.{◌≡◌};
    ghost use Rattle.keys.specs.Load.{lengths_ok};
    ghost use Rattle.keys.specs.Keys.{keys_ok};

    // Whether each has a key for each that the sheet has.
    #[tactic(auto, unfolding(keys::specs::Load::lengths_ok, keys::specs::Load::arrays_ok))]
    fn are_long(self, sheet: &Sheet<'_>) -> bool
        ensures { result ≡ lengths_ok sheet.now.bytes.now self.entry.frames.now self.entry.values.now self.entry.slopes.now }
    {
        let n = sheet.key_count();
        (self.frames.len() == n) & (self.values.len() == n) & (self.slopes.len() == n)
    }

    // Whether they keep the key rules.
    fn keep_rules(self, sheet: &Sheet<'_>) -> bool
        ensures { result ≡ keys_ok sheet.now.bytes.now self.entry.frames.now self.entry.values.now self.entry.slopes.now }
    {
        keys_ok(sheet.bytes, self.frames, self.values, self.slopes)
    }
}

impl<'a> TwoSets<'a> {
    ghost use Rattle.std.specs.Prelude.{◌≡◌, IfOk};
    ghost use Rattle.laws.specs.Refusal.{declined};
    ghost use Rattle.laws.specs.Rows.{declines};
    ghost use Rattle.edit.specs.Keys.{keys};
    ghost use Rattle.reach.specs.Ready.{keys_rows};

    // Rows 3 and 4 of the table of refusals, each of both sets.
    #[tactic(auto, using(keys::specs::Checked::keys_checked), unfolding(keys::specs::Load::lengths_ok, keys::specs::Load::arrays_ok, laws::specs::Rows::declines, laws::specs::Rows::unless))]
    pub fn new(
        sheet: Sheet<'a>,
        old: KeyArrays<'a>,
        new: KeyArrays<'a>,
    ) -> Result<TwoSets<'a>, Refusal>
        ensures declined { declined result ≡ declines (keys_rows sheet.entry.bytes.now (keys old.entry.frames.now old.entry.values.now old.entry.slopes.now) (keys new.entry.frames.now new.entry.values.now new.entry.slopes.now)) }
        ensures sheet { IfOk result (λ t. t.old.sheet.bytes.now ≡ sheet.entry.bytes.now) }
        ensures old { IfOk result (λ t. keys t.old.keys.frames.now t.old.keys.values.now t.old.keys.slopes.now ≡ keys old.entry.frames.now old.entry.values.now old.entry.slopes.now) }
        ensures new { IfOk result (λ t. keys t.new.frames.now t.new.values.now t.new.slopes.now ≡ keys new.entry.frames.now new.entry.values.now new.entry.slopes.now) }
    {
        ask(old.are_long(&sheet), Refusal::KeyArrayLength)?;
        ask(new.are_long(&sheet), Refusal::KeyArrayLength)?;
        ask(old.keep_rules(&sheet), Refusal::KeyRules)?;
        ask(new.keep_rules(&sheet), Refusal::KeyRules)?;
        Ok(TwoSets {
            old: Ready {
                sheet,
                keys: Keys {
                    frames: old.frames,
                    values: old.values,
                    slopes: old.slopes,
                },
            },
            new: Keys {
                frames: new.frames,
                values: new.values,
                slopes: new.slopes,
            },
        })
    }
}
