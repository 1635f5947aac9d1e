// The first broken rule of a sheet's layout. Each function answers for one part of `sheet_tests`.
ghost use Rattle.std.specs.Prelude.{◌≡◌, ◌+◌, ◌*◌, ◌<◌, ◌≤◌, length};
ghost use Rattle.field.specs.Name.{name_bytes};
ghost use Rattle.sheet.specs.Sizes.{head_bytes, animation_bytes, content_bytes, target_bytes, animations_at, sheet_bytes};
ghost use Rattle.sheet.specs.Sheet.{sheet_ok};
ghost use Rattle.faults.specs.Tests.{verdict, each_below, Tells};
ghost use Rattle.faults.specs.Sheet.{size_tests, next_test, animation_tests, content_tests, target_after, targets_tests, row_tests, sheet_tests};

use crate::fault::{Fault, Part, ask};
use crate::rules::Rule;
use crate::walk::each;
use field::{NAME_BYTES, byte_at, u16_at};
use sheet::{
    ANIMATION_BYTES, CONTENT_BYTES, HEAD, ROW_NAME, TARGET_BYTES, animation_count, content_count,
    contents_at, key_count, sheet_bytes, target_count, targets_at, texture_count,
};

#[tactic(auto, unfolding(crate::specs::Tests::verdict, crate::specs::Sheet::size_tests))]
fn sizes_fault(s: &[u8]) -> Result<(), Fault>
    requires { head_bytes ≤ length s.now }
    ensures { result ≡ verdict (size_tests s.now) }
{
    let a = animation_count(s);
    let c = content_count(s);
    let t = target_count(s);
    let k = key_count(s);
    let x = texture_count(s);
    let zero = u16_at(s, 10);
    ask(
        (1 <= a) & (a <= 8),
        Fault::of(Rule::AnimationsRange, Part::Whole, 0, a, None),
    )?;
    ask(
        c <= 64,
        Fault::of(Rule::ContentsRange, Part::Whole, 2, c, None),
    )?;
    ask(
        t <= 256,
        Fault::of(Rule::TargetsRange, Part::Whole, 4, t, None),
    )?;
    ask(
        k <= 2048,
        Fault::of(Rule::KeysRange, Part::Whole, 6, k, None),
    )?;
    ask(
        x <= 64,
        Fault::of(Rule::TexturesRange, Part::Whole, 8, x, None),
    )?;
    ask(
        zero == 0,
        Fault::of(Rule::HeadZero, Part::Whole, 10, zero, None),
    )
}

// Byte k of the next name at `at`, of animation i.
#[tactic(auto, unfolding(crate::specs::Tests::verdict, crate::specs::Sheet::next_test, field::specs::Name::zero_byte))]
fn next_byte_fault(s: &[u8], i: usize, next: usize, at: usize, k: usize) -> Result<(), Fault>
    requires { at + k < length s.now }
    ensures { result ≡ verdict (next_test s.now i next at k) }
{
    let b = byte_at(s, at + k);
    ask(
        (next == 1) | (b == 0),
        Fault::of(Rule::NextAbsent, Part::Row(i), at + k, b, None),
    )
}

fn next_fault(s: &[u8], i: usize, next: usize, at: usize) -> Result<(), Fault>
    requires { at + name_bytes ≤ length s.now }
    ensures { result ≡ verdict (each_below name_bytes (next_test s.now i next at)) }
{
    each(NAME_BYTES, |k| next_byte_fault(s, i, next, at, k))
}

#[tactic(auto, unfolding(crate::specs::Tests::verdict, crate::specs::Sheet::animation_tests))]
fn animation_fault(s: &[u8], i: usize) -> Result<(), Fault>
    requires { animations_at + i * animation_bytes + animation_bytes ≤ length s.now }
    ensures { result ≡ verdict (animation_tests s.now i) }
{
    let at = HEAD + i * ANIMATION_BYTES;
    let looping = byte_at(s, at + 2);
    let next = byte_at(s, at + 3);
    ask(
        looping <= 1,
        Fault::of(Rule::Looping, Part::Row(i), at + 2, looping, None),
    )?;
    ask(
        next <= 1,
        Fault::of(Rule::NextPresent, Part::Row(i), at + 3, next, None),
    )?;
    next_fault(s, i, next, at + ROW_NAME)
}

fn animations_fault(s: &[u8], n: usize) -> Result<(), Fault>
    requires { animations_at + n * animation_bytes ≤ length s.now }
    ensures { result ≡ verdict (each_below n (animation_tests s.now)) }
{
    each(n, |i| animation_fault(s, i))
}

// Row 0 is held against itself.
#[tactic(auto, unfolding(crate::specs::Tests::verdict, crate::specs::Sheet::content_tests))]
fn content_fault(s: &[u8], base: usize, a: usize, i: usize) -> Result<(), Fault>
    requires { base + i * content_bytes + content_bytes ≤ length s.now }
    ensures { result ≡ verdict (content_tests s.now base a i) }
{
    let at = base + i * CONTENT_BYTES;
    let animation = byte_at(s, at);
    let kind = byte_at(s, at + 1);
    let zero = u16_at(s, at + 2);
    let last = byte_at(s, base + i.saturating_sub(1) * CONTENT_BYTES);
    ask(
        kind <= 4,
        Fault::of(Rule::ContentType, Part::Row(i), at + 1, kind, None),
    )?;
    ask(
        zero == 0,
        Fault::of(Rule::ContentZero, Part::Row(i), at + 2, zero, None),
    )?;
    ask(
        animation < a,
        Fault::of(Rule::ContentAnimation, Part::Row(i), at, animation, Some(a)),
    )?;
    ask(
        last <= animation,
        Fault::of(Rule::ContentOrder, Part::Row(i), at, animation, Some(last)),
    )
}

fn contents_fault(s: &[u8], base: usize, a: usize, n: usize) -> Result<(), Fault>
    requires { base + n * content_bytes ≤ length s.now }
    ensures { result ≡ verdict (each_below n (content_tests s.now base a)) }
{
    each(n, |i| content_fault(s, base, a, i))
}

// `sum` is the sum of the earlier counts. Row 0 is held against itself.
#[tactic(auto, unfolding(crate::specs::Tests::verdict, crate::specs::Sheet::target_after))]
fn target_fault(s: &[u8], base: usize, c: usize, i: usize, sum: usize) -> Result<(), Fault>
    requires { base + i * target_bytes + target_bytes ≤ length s.now }
    ensures { result ≡ verdict (target_after s.now base c i sum) }
{
    let at = base + i * TARGET_BYTES;
    let content = u16_at(s, at);
    let curve = byte_at(s, at + 8);
    let zero = byte_at(s, at + 9);
    let key = u16_at(s, at + 10);
    let last = u16_at(s, base + i.saturating_sub(1) * TARGET_BYTES);
    ask(
        curve <= 2,
        Fault::of(Rule::TargetCurve, Part::Row(i), at + 8, curve, None),
    )?;
    ask(
        zero == 0,
        Fault::of(Rule::TargetZero, Part::Row(i), at + 9, zero, None),
    )?;
    ask(
        content < c,
        Fault::of(Rule::TargetContent, Part::Row(i), at, content, Some(c)),
    )?;
    ask(
        last <= content,
        Fault::of(Rule::TargetOrder, Part::Row(i), at, content, Some(last)),
    )?;
    ask(
        key == sum,
        Fault::of(Rule::FirstKey, Part::Row(i), at + 10, key, Some(sum)),
    )
}

#[tactic(auto, using(crate::specs::Verdict::each_more, crate::specs::Sheet::target_told, laws::specs::Sum::sum_more), unfolding(crate::specs::Sheet::target_tests, sheet::specs::Sheet::keys_of))]
fn targets_fault(s: &[u8], base: usize, c: usize, n: usize, k: usize) -> Result<(), Fault>
    requires within { base + n * target_bytes ≤ length s.now }
    requires counted { n < 65536 }
    ensures { result ≡ verdict (targets_tests s.now base c n k) }
{
    let mut sum = 0;
    for i in 0..n {
        target_fault(s, base, c, i, sum)?;
        sum += u16_at(s, base + i * TARGET_BYTES + 12);
    }
    ask(
        sum == k,
        Fault::of(Rule::CountSum, Part::Whole, 6, k, Some(sum)),
    )
}

#[tactic(auto, using(crate::specs::Verdict::first_accepts, crate::specs::Verdict::first_tells), unfolding(crate::specs::Sheet::row_tests))]
fn rows_fault(s: &[u8]) -> Result<(), Fault>
    requires there { head_bytes ≤ length s.now }
    requires long { length s.now ≡ sheet_bytes s.now }
    ensures { result ≡ verdict (row_tests s.now) }
{
    let a = animation_count(s);
    let c = content_count(s);
    animations_fault(s, a)?;
    contents_fault(s, contents_at(s), a, c)?;
    targets_fault(s, targets_at(s), c, u16_at(s, 4), key_count(s))
}

#[tactic(auto, using(crate::specs::Verdict::first_accepts, crate::specs::Verdict::first_tells), unfolding(crate::specs::Tests::verdict, crate::specs::Sheet::sheet_tests, crate::specs::Sheet::length_tests))]
pub(crate) fn layout_fault(s: &[u8]) -> Result<(), Fault>
    ensures { result ≡ verdict (sheet_tests s.now) }
{
    let n = s.len();
    ask(
        n >= HEAD,
        Fault::of(Rule::SheetShort, Part::Whole, n, n, Some(HEAD)),
    )?;
    sizes_fault(s)?;
    let long = sheet_bytes(s);
    ask(
        n == long,
        Fault::of(Rule::SheetLength, Part::Whole, n, n, Some(long)),
    )?;
    rows_fault(s)
}

// The first rule of the layout that s breaks: none exactly where it is a sheet, its key rules apart.
pub fn sheet_fault(s: &[u8]) -> Result<(), Fault>
    ensures { Tells (sheet_ok s.now) (sheet_tests s.now) result }
{
    layout_fault(s)
}
