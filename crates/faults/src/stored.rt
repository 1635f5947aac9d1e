// The first broken key rule of a sheet's own keys, read from its bytes. Finite first: the other rules read the keys as floats.
ghost use Rattle.std.specs.Prelude.{◌≡◌, ◌+◌, ◌<◌, length};
ghost use Rattle.sheet.specs.Sizes.{target_count, key_count};
ghost use Rattle.sheet.specs.Rows.{target_row};
ghost use Rattle.curve.specs.Kind.{number};
ghost use Rattle.keys.specs.Rules.{key_rules};
ghost use Rattle.keys.specs.Stored.{stored_frames, stored_values, stored_slopes};
ghost use Rattle.faults.specs.Tests.{each_below, Tells};
ghost use Rattle.faults.specs.Tests.{verdict};
ghost use Rattle.faults.specs.Keys.{frame_at, value_at, slope_at, finite_asks, finite_tests, constant_asks, order_asks, step_asks, curve_asks, curve_tests, finite_track, curve_track, keys_tests};
ghost use Rattle.faults.specs.Load.{load_tests, load_ok};

use crate::fault::{Fault, Part, ask};
use crate::rules::Rule;
use crate::sheets::layout_fault;
use crate::walk::each;
use curve::Kind;
use field::finite_at;
use float::{is_whole16, same_bits};
use keys::StoredKeys;
use sheet::Sheet;

// ---- where the sheet's key k has its numbers. The bound is part of the contract, so that reading them closes at the caller.
// Stays a number, the key: its places are read of a sheet whose keys may not be finite, its floats of `StoredKeys`, so a key as a value would be two types.

fn frame_place(sheet: &Sheet<'_>, k: usize) -> usize
    requires { k < key_count sheet.now.bytes.now }
    ensures place { result ≡ frame_at sheet.now.bytes.now k }
    ensures within { result + 3 < length sheet.now.bytes.now }
{
    sheet.frames_at() + k * 4
}

fn value_place(sheet: &Sheet<'_>, k: usize) -> usize
    requires { k < key_count sheet.now.bytes.now }
    ensures place { result ≡ value_at sheet.now.bytes.now k }
    ensures within { result + 3 < length sheet.now.bytes.now }
{
    sheet.points_at() + k * 8
}

fn slope_place(sheet: &Sheet<'_>, k: usize) -> usize
    requires { k < key_count sheet.now.bytes.now }
    ensures place { result ≡ slope_at sheet.now.bytes.now k }
    ensures within { result + 3 < length sheet.now.bytes.now }
{
    sheet.points_at() + 4 + k * 8
}

// ---- finite

// The sheet's key k, which is the key `part` of a track.
#[tactic(auto, unfolding(crate::specs::Tests::verdict, crate::specs::Keys::finite_asks))]
fn finite_fault(sheet: &Sheet<'_>, part: Part, k: usize) -> Result<(), Fault>
    requires { k < key_count sheet.now.bytes.now }
    ensures { result ≡ verdict (finite_asks sheet.now.bytes.now part k) }
{
    let s = sheet.bytes;
    let frame = frame_place(sheet, k);
    let value = value_place(sheet, k);
    let slope = slope_place(sheet, k);
    ask(
        finite_at(s, frame),
        Fault::of_float(s, Rule::FrameFinite, part, frame, None),
    )?;
    ask(
        finite_at(s, value),
        Fault::of_float(s, Rule::ValueFinite, part, value, None),
    )?;
    ask(
        finite_at(s, slope),
        Fault::of_float(s, Rule::SlopeFinite, part, slope, None),
    )
}

// Key i of track t.
#[tactic(auto, using(sheet::specs::Checked::target_keys), unfolding(crate::specs::Keys::finite_tests))]
fn finite_key(sheet: &Sheet<'_>, t: usize, i: usize) -> Result<(), Fault>
    requires track { t < target_count sheet.now.bytes.now }
    requires key { i < (target_row sheet.now.bytes.now t).count }
    ensures { result ≡ verdict (finite_tests sheet.now.bytes.now t i) }
{
    finite_fault(
        sheet,
        Part::Key { track: t, key: i },
        sheet.target(t).first + i,
    )
}

#[tactic(auto, unfolding(crate::specs::Keys::finite_track))]
fn finite_track(sheet: &Sheet<'_>, t: usize) -> Result<(), Fault>
    requires { t < target_count sheet.now.bytes.now }
    ensures { result ≡ verdict (finite_track sheet.now.bytes.now t) }
{
    each(sheet.target(t).count, |i| finite_key(sheet, t, i))
}

fn finite_tracks(sheet: &Sheet<'_>) -> Result<(), Fault>
    ensures { result ≡ verdict (each_below (target_count sheet.now.bytes.now) (finite_track sheet.now.bytes.now)) }
{
    each(sheet.target_count(), |t| finite_track(sheet, t))
}

// ---- the curves' rules

#[tactic(auto, unfolding(crate::specs::Tests::verdict, crate::specs::Keys::constant_asks))]
fn constant_fault(keys: &StoredKeys<'_>, part: Part, k: usize) -> Result<(), Fault>
    requires { k < key_count keys.now.sheet.bytes.now }
    ensures { result ≡ verdict (constant_asks keys.now.sheet.bytes.now part k) }
{
    let s = keys.sheet.bytes;
    let frame = frame_place(&keys.sheet, k);
    let slope = slope_place(&keys.sheet, k);
    ask(
        same_bits(keys.frame(k), 0.0),
        Fault::of_float(s, Rule::ConstantFrame, part, frame, None),
    )?;
    ask(
        same_bits(keys.slope(k), 0.0),
        Fault::of_float(s, Rule::ConstantSlope, part, slope, None),
    )
}

// `last` is the key before k, which for its curve's first is k.
#[tactic(auto, unfolding(crate::specs::Tests::verdict, crate::specs::Keys::order_asks))]
fn order_fault(keys: &StoredKeys<'_>, part: Part, k: usize, last: usize) -> Result<(), Fault>
    requires key { k < key_count keys.now.sheet.bytes.now }
    requires before { last < key_count keys.now.sheet.bytes.now }
    ensures { result ≡ verdict (order_asks keys.now.sheet.bytes.now part k last) }
{
    let s = keys.sheet.bytes;
    let frame = frame_place(&keys.sheet, k);
    let wants = field::u32_at(s, frame_place(&keys.sheet, last));
    let rises = keys.frame(last) <= keys.frame(k);
    ask(
        rises,
        Fault::of_float(s, Rule::FrameOrder, part, frame, Some(wants)),
    )
}

#[tactic(auto, unfolding(crate::specs::Tests::verdict, crate::specs::Keys::step_asks))]
fn step_fault(keys: &StoredKeys<'_>, part: Part, k: usize, last: usize) -> Result<(), Fault>
    requires key { k < key_count keys.now.sheet.bytes.now }
    requires before { last < key_count keys.now.sheet.bytes.now }
    ensures { result ≡ verdict (step_asks keys.now.sheet.bytes.now part k last) }
{
    let s = keys.sheet.bytes;
    let value = value_place(&keys.sheet, k);
    let slope = slope_place(&keys.sheet, k);
    ask(
        same_bits(keys.slope(k), 0.0),
        Fault::of_float(s, Rule::StepSlope, part, slope, None),
    )?;
    ask(
        is_whole16(keys.value(k)),
        Fault::of_float(s, Rule::StepValue, part, value, None),
    )?;
    order_fault(keys, part, k, last)
}

#[tactic(auto, unfolding(crate::specs::Keys::curve_asks))]
fn curve_fault(
    keys: &StoredKeys<'_>,
    kind: Kind,
    part: Part,
    k: usize,
    last: usize,
) -> Result<(), Fault>
    requires key { k < key_count keys.now.sheet.bytes.now }
    requires before { last < key_count keys.now.sheet.bytes.now }
    ensures { result ≡ verdict (curve_asks keys.now.sheet.bytes.now (number kind) part k last) }
{
    match kind {
        Kind::Constant => constant_fault(keys, part, k),
        Kind::Step => step_fault(keys, part, k, last),
        Kind::Hermite => order_fault(keys, part, k, last),
    }
}

// Key i of track t; the first is held against itself.
#[tactic(auto, using(sheet::specs::Checked::target_keys, crate::specs::Keys::curve_asks_kind), unfolding(crate::specs::Keys::curve_tests))]
fn curve_key(keys: &StoredKeys<'_>, t: usize, i: usize) -> Result<(), Fault>
    requires track { t < target_count keys.now.sheet.bytes.now }
    requires key { i < (target_row keys.now.sheet.bytes.now t).count }
    ensures { result ≡ verdict (curve_tests keys.now.sheet.bytes.now t i) }
{
    let target = keys.sheet.target(t);
    let last = target.first + i.saturating_sub(1);
    curve_fault(
        keys,
        Kind::of(target.curve),
        Part::Key { track: t, key: i },
        target.first + i,
        last,
    )
}

#[tactic(auto, unfolding(crate::specs::Keys::curve_track))]
fn curve_track(keys: &StoredKeys<'_>, t: usize) -> Result<(), Fault>
    requires { t < target_count keys.now.sheet.bytes.now }
    ensures { result ≡ verdict (curve_track keys.now.sheet.bytes.now t) }
{
    each(keys.sheet.target(t).count, |i| curve_key(keys, t, i))
}

fn curve_tracks(keys: &StoredKeys<'_>) -> Result<(), Fault>
    ensures { result ≡ verdict (each_below (target_count keys.now.sheet.bytes.now) (curve_track keys.now.sheet.bytes.now)) }
{
    each(keys.sheet.target_count(), |t| curve_track(keys, t))
}

#[tactic(auto, using(crate::specs::Verdict::first_accepts, crate::specs::Verdict::first_tells), unfolding(crate::specs::Keys::keys_tests))]
fn own_fault(sheet: Sheet<'_>) -> Result<(), Fault>
    ensures { result ≡ verdict (keys_tests sheet.entry.bytes.now) }
{
    finite_tracks(&sheet)?;
    curve_tracks(&StoredKeys { sheet })
}

#[tactic(auto, using(crate::specs::Verdict::first_accepts, crate::specs::Verdict::first_tells), unfolding(crate::specs::Load::load_tests))]
fn loading_fault(s: &[u8]) -> Result<(), Fault>
    ensures { result ≡ verdict (load_tests s.now) }
{
    layout_fault(s)?;
    own_fault(Sheet { bytes: s })
}

// The first key rule that a sheet's own keys break: none exactly where loading accepts them.
pub fn keys_fault(sheet: Sheet<'_>) -> Result<(), Fault>
    ensures { Tells (key_rules sheet.entry.bytes.now (stored_frames sheet.entry.bytes.now) (stored_values sheet.entry.bytes.now) (stored_slopes sheet.entry.bytes.now)) (keys_tests sheet.entry.bytes.now) result }
{
    own_fault(sheet)
}

// The first rule that a sheet breaks as loading takes it: of its layout, and then of its keys.
pub fn load_fault(s: &[u8]) -> Result<(), Fault>
    ensures { Tells (load_ok s.now) (load_tests s.now) result }
{
    loading_fault(s)
}
