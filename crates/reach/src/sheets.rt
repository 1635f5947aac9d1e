// Whether two sheets differ in their keys alone. Stays by index: of `t[..n] == s[..n]` the proof didn't close.
ghost use Rattle.std.specs.Prelude.{◌≡◌, ◌≤◌, length};
ghost use Rattle.laws.specs.Below.{all_below};
ghost use Rattle.reach.specs.Sheets.{same_byte, same_sheet};

use sheet::Sheet;

// Whether the first n bytes of both are the same.
#[tactic(auto, unfolding(laws::specs::Below::all_below))]
fn same_front(s: &[u8], t: &[u8], n: usize) -> bool
    requires first { n ≤ length s.now }
    requires second { n ≤ length t.now }
    ensures { result ≡ all_below n (same_byte s.now t.now) }
{
    (0..n).all(|i| t[i] == s[i])
}

// Whether t agrees with a sheet in length and in every byte before the key arrays.
#[tactic(auto, unfolding(crate::specs::Sheets::same_sheet))]
pub fn same_sheet(sheet: &Sheet<'_>, t: &[u8]) -> bool
    ensures { result ≡ same_sheet sheet.now.bytes.now t.now }
{
    t.len() == sheet.bytes.len() && same_front(sheet.bytes, t, sheet.frames_at())
}
