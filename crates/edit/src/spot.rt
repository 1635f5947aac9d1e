// Where a track's key is.
ghost use Rattle.std.specs.Prelude.{◌≡◌, ◌<◌, eqb};
ghost use Rattle.sheet.specs.Sizes.{target_count};
ghost use Rattle.curve.specs.Kind.{number, kind_of};
ghost use Rattle.edit.specs.Edit.{has_key, spot_of, key_in};

use curve::Kind;
use sheet::Sheet;

// Where a track's key is: its curve, its place among all keys, its number in the track, and whether a key of the track comes next.
// Stays a number in `curve`: the sheet's row has it, and the definitions go by it.
#[derive(Clone, Copy)]
pub struct Spot {
    pub curve: usize,
    pub at: usize,
    pub key: usize,
    pub more: bool,
}

impl Spot {
    // Any number past the last is read as Hermite, which no checked sheet has.
    pub fn kind(self) -> Kind
        ensures { result ≡ kind_of self.curve }
    {
        Kind::of(self.curve)
    }

    // Whether the track's curve is of this kind.
    pub fn is(self, kind: Kind) -> bool
        ensures { result ≡ eqb self.curve (number kind) }
    {
        self.curve == kind as usize
    }
}

#[tactic(auto, using(sheet::specs::Checked::target_keys), unfolding(crate::specs::Edit::spot_of, crate::specs::Edit::place))]
pub fn spot_of(sheet: &Sheet, track: usize, key: u16) -> Spot
    requires { track < target_count sheet.now.bytes.now }
    ensures { result ≡ spot_of sheet.now.bytes.now track key }
{
    let row = sheet.target(track);
    let k = key as usize;
    Spot {
        curve: row.curve,
        at: row.first + k,
        key: k,
        more: k + 1 < row.count,
    }
}

// Whether the sheet has the track, and the track the key.
#[tactic(auto, unfolding(crate::specs::Edit::has_key))]
pub fn has_key(sheet: &Sheet, track: u16, key: u16) -> bool
    ensures { result ≡ has_key sheet.now.bytes.now track key }
{
    let t = track as usize;
    t < sheet.target_count() && (key as usize) < sheet.target(t).count
}

// Whether the track is the animation's, and has the key.
#[tactic(auto, using(crate::specs::Put::has_key_lem, sheet::specs::Checked::target_content_lem), unfolding(crate::specs::Edit::key_in))]
pub fn key_in(sheet: &Sheet, animation: u16, track: u16, key: u16) -> bool
    ensures { result ≡ key_in sheet.now.bytes.now animation track key }
{
    if !has_key(sheet, track, key) {
        return false;
    }
    let row = sheet.target(track as usize);
    sheet.content(row.content).animation == animation as usize
}
