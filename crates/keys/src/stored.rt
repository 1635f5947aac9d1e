// The keys that a sheet holds, checked straight from its bytes, so that nothing lent changes before the check has passed.
ghost use Rattle.std.specs.Prelude.{◌≡◌};
ghost use Rattle.laws.specs.Below.{all_below};
ghost use Rattle.sheet.specs.Sizes.{key_count};
ghost use Rattle.keys.specs.Rules.{finite_key};
ghost use Rattle.keys.specs.Keys.{keys_ok};
ghost use Rattle.keys.specs.Stored.{stored_frames, stored_values, stored_slopes, Stored};

use crate::rules::key_rule;
use curve::{Key, Kind};
use field::{f32_at, finite_at};
use sheet::Sheet;

#[tactic(auto, using(laws::specs::Below::all_none, laws::specs::Below::all_step, crate::specs::Stored::finite_stored))]
fn finite_stored(sheet: &Sheet<'_>) -> bool
    ensures { result ≡ all_below (key_count sheet.now.bytes.now) (finite_key (stored_frames sheet.now.bytes.now) (stored_values sheet.now.bytes.now) (stored_slopes sheet.now.bytes.now)) }
{
    let s = sheet.bytes;
    let frames = sheet.frames_at();
    let points = sheet.points_at();
    let mut ok = true;
    for i in 0..sheet.key_count() {
        ok &= finite_at(s, frames + i * 4)
            & finite_at(s, points + i * 8)
            & finite_at(s, points + 4 + i * 8);
    }
    ok
}

// A sheet whose keys are finite, so that they can be read.
#[derive(Clone, Copy)]
pub struct StoredKeys<'a> {
    pub sheet: Sheet<'a>,
    pub ghost stored: { Stored sheet.bytes.now },
}

impl<'a> StoredKeys<'a> {
    ghost use Rattle.std.specs.Prelude.{◌≡◌, ◌+◌, ◌-◌, ◌*◌, ◌<◌, ◌≤◌, IfSome, is_some};
    ghost use Rattle.laws.specs.Below.{all_below};
    ghost use Rattle.field.specs.Read.{float_at};
    ghost use Rattle.sheet.specs.Sizes.{key_count, target_count, frames_at, points_at};
    ghost use Rattle.curve.specs.Kind.{number};
    ghost use Rattle.keys.specs.Rules.{finite_key, key_ok, track_ok};
    ghost use Rattle.keys.specs.Stored.{stored_frames, stored_values, stored_slopes};

    fn new(sheet: Sheet<'a>) -> Option<StoredKeys<'a>>
        ensures finite { is_some result ≡ all_below (key_count sheet.entry.bytes.now) (finite_key (stored_frames sheet.entry.bytes.now) (stored_values sheet.entry.bytes.now) (stored_slopes sheet.entry.bytes.now)) }
        ensures same { IfSome result (λ k. k.sheet.bytes.now ≡ sheet.entry.bytes.now) }
    {
        if finite_stored(&sheet) {
            Some(StoredKeys { sheet })
        } else {
            None
        }
    }

    // Key i's numbers. Stays three functions: each has its own start, stride and law that what it reads is finite.
    #[tactic(auto, using(crate::specs::Stored::stored_frame))]
    pub fn frame(&self, i: usize) -> f32
        requires { i < key_count self.now.sheet.bytes.now }
        ensures { result ≡ float_at self.now.sheet.bytes.now (frames_at self.now.sheet.bytes.now + i * 4) }
    {
        f32_at(self.sheet.bytes, self.sheet.frames_at() + i * 4)
    }

    #[tactic(auto, using(crate::specs::Stored::stored_value))]
    pub fn value(&self, i: usize) -> f32
        requires { i < key_count self.now.sheet.bytes.now }
        ensures { result ≡ float_at self.now.sheet.bytes.now (points_at self.now.sheet.bytes.now + i * 8) }
    {
        f32_at(self.sheet.bytes, self.sheet.points_at() + i * 8)
    }

    #[tactic(auto, using(crate::specs::Stored::stored_slope))]
    pub fn slope(&self, i: usize) -> f32
        requires { i < key_count self.now.sheet.bytes.now }
        ensures { result ≡ float_at self.now.sheet.bytes.now (points_at self.now.sheet.bytes.now + 4 + i * 8) }
    {
        f32_at(self.sheet.bytes, self.sheet.points_at() + 4 + i * 8)
    }

    // Key i of a curve whose keys start at `first`. `last` is the key before it, which for the first is the first: carried, since finding it anew for each
    // key costs more than the rest of its reading.
    #[tactic(auto, using(crate::specs::Stored::key_stored))]
    fn key_ok(&self, kind: Kind, first: usize, i: usize, last: usize) -> bool
        requires key { first + i < key_count self.now.sheet.bytes.now }
        requires before { last ≡ first + (i - 1) }
        ensures { result ≡ key_ok (number kind) (stored_frames self.now.sheet.bytes.now) (stored_values self.now.sheet.bytes.now) (stored_slopes self.now.sheet.bytes.now) first i }
    {
        let at = first + i;
        let key = Key {
            frame: self.frame(at),
            value: self.value(at),
            slope: self.slope(at),
        };
        key_rule(kind, self.frame(last), key)
    }

    // The `count` keys from `first` on are a curve's.
    #[tactic(auto, using(laws::specs::Below::passed_none, laws::specs::Below::passed_more, laws::specs::Below::passed_not, laws::specs::Below::passed_all))]
    fn keys_ok(&self, kind: Kind, first: usize, count: usize) -> bool
        requires { first + count ≤ key_count self.now.sheet.bytes.now }
        ensures { result ≡ all_below count (key_ok (number kind) (stored_frames self.now.sheet.bytes.now) (stored_values self.now.sheet.bytes.now) (stored_slopes self.now.sheet.bytes.now) first) }
    {
        let mut last = first;
        for i in 0..count {
            if !self.key_ok(kind, first, i, last) {
                return false;
            }
            last = first + i;
        }
        true
    }

    #[tactic(auto, using(sheet::specs::Checked::target_keys, crate::specs::Kinds::track_by_key))]
    fn track_ok(&self, t: usize) -> bool
        requires { t < target_count self.now.sheet.bytes.now }
        ensures { result ≡ track_ok self.now.sheet.bytes.now (stored_frames self.now.sheet.bytes.now) (stored_values self.now.sheet.bytes.now) (stored_slopes self.now.sheet.bytes.now) t }
    {
        let target = self.sheet.target(t);
        self.keys_ok(Kind::of(target.curve), target.first, target.count)
    }

    #[tactic(auto, unfolding(laws::specs::Below::all_below))]
    fn tracks_ok(&self) -> bool
        ensures { result ≡ all_below (target_count self.now.sheet.bytes.now) (track_ok self.now.sheet.bytes.now (stored_frames self.now.sheet.bytes.now) (stored_values self.now.sheet.bytes.now) (stored_slopes self.now.sheet.bytes.now)) }
    {
        (0..self.sheet.target_count()).all(|t| self.track_ok(t))
    }
}

// Whether the sheet's own keys keep the key rules. Finite first: the others read them as floats.
#[tactic(auto, using(crate::specs::Loading::stored_rules), unfolding(crate::specs::Rules::key_rules))]
pub fn stored_ok(sheet: Sheet<'_>) -> bool
    ensures { result ≡ keys_ok sheet.entry.bytes.now (stored_frames sheet.entry.bytes.now) (stored_values sheet.entry.bytes.now) (stored_slopes sheet.entry.bytes.now) }
{
    match StoredKeys::new(sheet) {
        Some(keys) => keys.tracks_ok(),
        None => false,
    }
}
