// Whether a track has the same keys in two sets of keys of one sheet. Stays by hand: a key is the same bit for bit, and `==` on floats isn't that.
use crate::TwoSets;
use edit::put::same_key;

impl<'a> TwoSets<'a> {
    ghost use Rattle.std.specs.Prelude.{◌≡◌, ◌+◌, ◌<◌, ◌≤◌};
    ghost use Rattle.laws.specs.Below.{all_below};
    ghost use Rattle.sheet.specs.Sizes.{key_count, target_count};
    ghost use Rattle.edit.specs.Keys.{keys, key_at, same_key};
    ghost use Rattle.reach.specs.Touched.{same_track};

    // Whether the key at a place of the lists is.
    #[tactic(auto, unfolding(edit::specs::Keys::key_at))]
    fn same_at(&self, at: usize) -> bool
        requires { at < key_count self.now.old.sheet.bytes.now }
        ensures { result ≡ same_key (key_at (keys self.now.old.keys.frames.now self.now.old.keys.values.now self.now.old.keys.slopes.now) at) (key_at (keys self.now.new.frames.now self.now.new.values.now self.now.new.slopes.now) at) }
    {
        same_key(self.old.keys.key(at), self.new.key(at))
    }

    // Whether each of the `count` keys from `first` on is.
    #[tactic(auto, unfolding(laws::specs::Below::all_below))]
    fn same_part(&self, first: usize, count: usize) -> bool
        requires { first + count ≤ key_count self.now.old.sheet.bytes.now }
        ensures { result ≡ all_below count (λ i. same_key (key_at (keys self.now.old.keys.frames.now self.now.old.keys.values.now self.now.old.keys.slopes.now) (first + i)) (key_at (keys self.now.new.frames.now self.now.new.values.now self.now.new.slopes.now) (first + i))) }
    {
        (0..count).all(|i| self.same_at(first + i))
    }

    // Whether each key of track t is.
    #[tactic(auto, using(sheet::specs::Checked::target_keys), unfolding(crate::specs::Touched::same_track, edit::specs::Edit::place))]
    pub fn same_track(&self, t: usize) -> bool
        requires { t < target_count self.now.old.sheet.bytes.now }
        ensures { result ≡ same_track self.now.old.sheet.bytes.now (keys self.now.old.keys.frames.now self.now.old.keys.values.now self.now.old.keys.slopes.now) (keys self.now.new.frames.now self.now.new.values.now self.now.new.slopes.now) t }
    {
        let row = self.old.sheet.target(t);
        self.same_part(row.first, row.count)
    }
}
