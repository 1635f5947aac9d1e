// Whether a slice of bytes is a sheet, its key rules apart: row 1 of the table of refusals.
// A row's check has no early way out, so that its fields are read side by side; the walks over rows have one.
ghost use Rattle.std.specs.Prelude.{◌≡◌, true, ◌+◌, ◌*◌, ◌<◌, ◌≤◌, length};
ghost use Rattle.laws.specs.Below.{all_below};
ghost use Rattle.sheet.specs.Sizes.{head_bytes, animation_bytes, content_bytes, target_bytes, animations_at};
ghost use Rattle.sheet.specs.Tested.{rows_ok, prior, animation_of, content_of};
ghost use Rattle.sheet.specs.Sheet.{sizes_ok, length_ok, animation_ok, content_ok, target_from, targets_ok, sheet_ok};

use crate::rows::{ANIMATION_BYTES, CONTENT_BYTES, HEAD, ROW_NAME, TARGET_BYTES, sheet_bytes};
use field::{byte_at, u16_at};

#[tactic(auto, unfolding(crate::specs::Sheet::sizes_ok))]
fn sizes_ok(s: &[u8]) -> bool
    requires { head_bytes ≤ length s.now }
    ensures { result ≡ sizes_ok s.now }
{
    let a = u16_at(s, 0);
    (1 <= a)
        & (a <= 8)
        & (u16_at(s, 2) <= 64)
        & (u16_at(s, 4) <= 256)
        & (u16_at(s, 6) <= 2048)
        & (u16_at(s, 8) <= 64)
        & (u16_at(s, 10) == 0)
}

#[tactic(auto, unfolding(crate::specs::Sheet::length_ok))]
pub fn length_ok(s: &[u8]) -> bool
    requires { head_bytes ≤ length s.now }
    ensures { result ≡ length_ok s.now }
{
    s.len() == sheet_bytes(s)
}

#[tactic(auto, unfolding(crate::specs::Sheet::animation_ok))]
fn animation_ok(s: &[u8], i: usize) -> bool
    requires { animations_at + i * animation_bytes + animation_bytes ≤ length s.now }
    ensures { result ≡ animation_ok s.now i }
{
    let at = HEAD + i * ANIMATION_BYTES;
    let next = byte_at(s, at + 3);
    (byte_at(s, at + 2) <= 1) & (next <= 1) & ((next == 1) | field::empty_name(s, at + ROW_NAME))
}

#[tactic(auto, unfolding(laws::specs::Below::all_below))]
fn animations_ok(s: &[u8], n: usize) -> bool
    requires { animations_at + n * animation_bytes ≤ length s.now }
    ensures { result ≡ all_below n (animation_ok s.now) }
{
    (0..n).all(|i| animation_ok(s, i))
}

// `last` is the animation of the row before, and 0 at first.
#[tactic(auto, using(crate::specs::Tested::content_climbs), unfolding(crate::specs::Sheet::content_ok))]
fn content_ok(s: &[u8], base: usize, a: usize, i: usize, last: usize) -> bool
    requires row { base + i * content_bytes + content_bytes ≤ length s.now }
    requires before { last ≡ prior (animation_of s.now base) i }
    ensures { result ≡ content_ok s.now base a i }
{
    let at = base + i * CONTENT_BYTES;
    let animation = byte_at(s, at);
    (byte_at(s, at + 1) <= 4) & (u16_at(s, at + 2) == 0) & (animation < a) & (last <= animation)
}

#[tactic(auto, using(laws::specs::Below::passed_none, laws::specs::Below::passed_more, laws::specs::Below::passed_not, laws::specs::Below::passed_all, crate::specs::Tested::prior_none, crate::specs::Tested::prior_more), unfolding(crate::specs::Tested::animation_of))]
fn contents_ok(s: &[u8], base: usize, a: usize, n: usize) -> bool
    requires { base + n * content_bytes ≤ length s.now }
    ensures { result ≡ all_below n (content_ok s.now base a) }
{
    let mut last = 0;
    for i in 0..n {
        if !content_ok(s, base, a, i, last) {
            return false;
        }
        last = byte_at(s, base + i * CONTENT_BYTES);
    }
    true
}

// `last` is the content of the row before, and 0 at first. Curve and padding are one number, at most 2.
#[tactic(auto, using(crate::specs::Tested::curve_padded, crate::specs::Tested::target_climbs), unfolding(crate::specs::Sheet::target_from))]
fn target_from(s: &[u8], base: usize, c: usize, i: usize, f: usize, last: usize) -> bool
    requires row { base + i * target_bytes + target_bytes ≤ length s.now }
    requires before { last ≡ prior (content_of s.now base) i }
    ensures { result ≡ target_from s.now base c i f }
{
    let at = base + i * TARGET_BYTES;
    let content = u16_at(s, at);
    (u16_at(s, at + 8) <= 2) & (content < c) & (last <= content) & (u16_at(s, at + 10) == f)
}

// `sum` is the sum of the earlier counts.
#[tactic(auto, using(laws::specs::Below::passed_none, laws::specs::Below::passed_more, laws::specs::Below::passed_not, laws::specs::Below::passed_all, laws::specs::Sum::sum_none, laws::specs::Sum::sum_more, crate::specs::Tested::prior_none, crate::specs::Tested::prior_more), unfolding(crate::specs::Sheet::targets_ok, crate::specs::Sheet::target_ok, crate::specs::Sheet::keys_of, crate::specs::Tested::content_of))]
fn targets_ok(s: &[u8], base: usize, c: usize, n: usize, k: usize) -> bool
    requires within { base + n * target_bytes ≤ length s.now }
    requires counted { n < 65536 }
    ensures { result ≡ targets_ok s.now base c n k }
{
    let mut sum = 0;
    let mut last = 0;
    for i in 0..n {
        if !target_from(s, base, c, i, sum, last) {
            return false;
        }
        let at = base + i * TARGET_BYTES;
        sum += u16_at(s, at + 12);
        last = u16_at(s, at);
    }
    sum == k
}

// The rows, where the sizes say where they stand.
#[tactic(auto, using(crate::specs::Checked::length_known), unfolding(crate::specs::Tested::rows_ok))]
fn rows_ok(s: &[u8]) -> bool
    requires { (head_bytes ≤ length s.now) × (length_ok s.now ≡ true) }
    ensures { result ≡ rows_ok s.now }
{
    let a = u16_at(s, 0);
    let c = u16_at(s, 2);
    let contents = HEAD + a * ANIMATION_BYTES;
    let targets = contents + c * CONTENT_BYTES;
    animations_ok(s, a)
        & contents_ok(s, contents, a, c)
        & targets_ok(s, targets, c, u16_at(s, 4), u16_at(s, 6))
}

// Whether s is a sheet, its key rules apart.
#[tactic(auto, unfolding(crate::specs::Sheet::sheet_ok, crate::specs::Tested::rows_ok))]
pub fn sheet_ok(s: &[u8]) -> bool
    ensures { result ≡ sheet_ok s.now }
{
    s.len() >= HEAD && sizes_ok(s) && length_ok(s) && rows_ok(s)
}
