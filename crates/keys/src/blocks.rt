// The rules on keys, in blocks of four, which compiled code tests at once. The last block ends at the last key and may overlap the
// one before it, so that no key is left over: an average track has eight keys, and keys tested one by one would cost more than its blocks.
// A key goes by its place in the lists, not by its number in the curve: so the compiler sees that the four of a block lie side by side.
ghost use Rattle.std.specs.Prelude.{◌≡◌, ◌+◌, ◌-◌, ◌*◌, ◌^◌, ◌≤◌, ◌<◌, ℕ, Bool, length};
ghost use Rattle.laws.specs.Below.{all_below};
ghost use Rattle.laws.specs.Blocks.{block_at};
ghost use Rattle.float.specs.Cancel.{left};
ghost use Rattle.float.specs.Rising.{rising_in};
ghost use Rattle.keys.specs.Rules.{finite_key, constant_key, step_key};
ghost use Rattle.keys.specs.ByPlace.{constant_at, step_at, not_above};

use curve::Keys;
use float::{all_finite, is_whole16, left_over, same_bits};

// The keys of a block.
const BLOCK: usize = 4;

// A rule on the key at a place of the lists.
trait Rule {
    ghost places: { Self → ℕ };

    ghost holds: { Self → ℕ → Bool };

    fn test(&self, i: usize) -> bool
        requires { i < places self.now }
        ensures { result ≡ holds self.now i };
}

// All three numbers are finite.
#[derive(Clone, Copy)]
struct Finite<'a> {
    keys: Keys<'a>,
}

// Constant: frame and slope are +0. Of keys up to `end`, since the lists may be of unlike lengths.
#[derive(Clone, Copy)]
struct Constant<'a> {
    frames: &'a [f32],
    slopes: &'a [f32],
    end: usize,
    ghost frames_long: { end ≤ length frames.now },
    ghost slopes_long: { end ≤ length slopes.now },
}

// Step: slope +0, value whole in 0..65,535, not -0. Up to `end` likewise.
#[derive(Clone, Copy)]
struct Step<'a> {
    values: &'a [f32],
    slopes: &'a [f32],
    end: usize,
    ghost values_long: { end ≤ length values.now },
    ghost slopes_long: { end ≤ length slopes.now },
}

// Step and Hermite: a frame is not above the next, so of n frames there are n - 1 tests.
#[derive(Clone, Copy)]
struct Rising<'a> {
    frames: &'a [f32],
}

impl<'a> Rule for Finite<'a> {
    ghost places = { λ r. length r.keys.frames.now };

    ghost holds = { λ r. finite_key r.keys.frames.now r.keys.values.now r.keys.slopes.now };

    #[tactic(auto, unfolding(crate::specs::Rules::finite_key))]
    fn test(&self, i: usize) -> bool {
        all_finite(
            self.keys.frames[i],
            self.keys.values[i],
            self.keys.slopes[i],
        )
    }
}

impl<'a> Rule for Constant<'a> {
    ghost places = { λ r. r.end };

    ghost holds = { λ r. constant_at r.frames.now r.slopes.now };

    fn test(&self, i: usize) -> bool {
        same_bits(self.frames[i], 0.0) & same_bits(self.slopes[i], 0.0)
    }
}

impl<'a> Rule for Step<'a> {
    ghost places = { λ r. r.end };

    ghost holds = { λ r. step_at r.values.now r.slopes.now };

    fn test(&self, i: usize) -> bool {
        same_bits(self.slopes[i], 0.0) & is_whole16(self.values[i])
    }
}

impl<'a> Rule for Rising<'a> {
    ghost places = { λ r. length r.frames.now - 1 };

    ghost holds = { λ r. not_above r.frames.now };

    fn test(&self, i: usize) -> bool {
        self.frames[i] <= self.frames[i + 1]
    }
}

// Stays over a rule, a place and a length, here and below: a struct of them would be made for each block and taken apart at once.
#[tactic(auto, using(laws::specs::Blocks::four_is))]
fn four_pass<R: Rule>(rule: &R, i: usize) -> bool
    requires within { i + 4 ≤ R.places rule.now }
    requires counted { i + 4 < 2 ^ 64 }
    ensures { result ≡ block_at 4 (R.holds rule.now) i }
{
    rule.test(i) & rule.test(i + 1) & rule.test(i + 2) & rule.test(i + 3)
}

// Fewer than a block.
#[tactic(auto, using(laws::specs::Below::all_none, laws::specs::Below::all_step), unfolding(laws::specs::Blocks::block_at))]
fn few_pass<R: Rule>(rule: &R, first: usize, count: usize) -> bool
    requires within { first + count ≤ R.places rule.now }
    requires counted { first + count < 2 ^ 64 }
    ensures { result ≡ block_at count (R.holds rule.now) first }
{
    let mut ok = true;
    for i in 0..count {
        ok &= rule.test(first + i);
    }
    ok
}

#[tactic(auto, using(laws::specs::Blocks::blocks_none, laws::specs::Blocks::blocks_more, laws::specs::Blocks::blocks_all))]
fn all_pass<R: Rule>(rule: &R, first: usize, count: usize) -> bool
    requires within { first + count ≤ R.places rule.now }
    requires counted { first + count < 2 ^ 64 }
    ensures { result ≡ block_at count (R.holds rule.now) first }
{
    if count < BLOCK {
        return few_pass(rule, first, count);
    }
    let last = first + count - BLOCK;
    let mut ok = four_pass(rule, last);
    for block in 0..(count - 1) / BLOCK {
        ok &= four_pass(rule, first + block * BLOCK);
    }
    ok
}

// +0 where the numbers of key i are finite, else a NaN.
#[tactic(auto, unfolding(crate::specs::Rules::finite_key))]
fn left_of(keys: &Keys<'_>, i: usize) -> f32
    requires { i < length keys.now.frames.now }
    ensures { result ≡ left (finite_key keys.now.frames.now keys.now.values.now keys.now.slopes.now i) }
{
    left_over(keys.frames[i], keys.values[i], keys.slopes[i])
}

// Four sums side by side, which compiled code adds at once; a NaN stays one in a sum, so one comparison tells of all.
#[tactic(auto, using(crate::specs::Lanes::lanes_none, crate::specs::Lanes::lanes_all))]
fn finite_blocks(keys: &Keys<'_>, blocks: usize) -> bool
    requires { blocks * 4 ≤ length keys.now.frames.now }
    ensures { result ≡ all_below (blocks * 4) (finite_key keys.now.frames.now keys.now.values.now keys.now.slopes.now) }
{
    let mut a = 0.0;
    let mut b = 0.0;
    let mut c = 0.0;
    let mut d = 0.0;
    for block in 0..blocks {
        let i = block * BLOCK;
        a += left_of(keys, i);
        b += left_of(keys, i + 1);
        c += left_of(keys, i + 2);
        d += left_of(keys, i + 3);
    }
    (a + b) + (c + d) == 0.0
}

#[tactic(auto, using(laws::specs::Blocks::all_block))]
pub fn finite_keys(keys: Keys<'_>) -> bool
    ensures { result ≡ all_below (length keys.entry.frames.now) (finite_key keys.entry.frames.now keys.entry.values.now keys.entry.slopes.now) }
{
    let blocks = keys.len() / BLOCK;
    finite_blocks(&keys, blocks) & few_pass(&Finite { keys }, blocks * BLOCK, keys.len() % BLOCK)
}

#[tactic(auto, using(crate::specs::ByPlace::constant_block))]
pub fn constant_keys(frames: &[f32], slopes: &[f32], first: usize, count: usize) -> bool
    requires { (first + count ≤ length frames.now) × (first + count ≤ length slopes.now) }
    ensures { result ≡ all_below count (constant_key frames.now slopes.now first) }
{
    let end = first + count;
    let rule = Constant {
        frames,
        slopes,
        end,
    };
    all_pass(&rule, first, count)
}

// Stays beside `constant_keys`: each names its rule, and what they share is `all_pass`.
#[tactic(auto, using(crate::specs::ByPlace::step_block))]
pub fn step_keys(values: &[f32], slopes: &[f32], first: usize, count: usize) -> bool
    requires { (first + count ≤ length values.now) × (first + count ≤ length slopes.now) }
    ensures { result ≡ all_below count (step_key values.now slopes.now first) }
{
    let end = first + count;
    let rule = Step {
        values,
        slopes,
        end,
    };
    all_pass(&rule, first, count)
}

// The first frame is held against itself, so that a NaN alone falls too; where there is a next, their test says that as well.
#[tactic(auto, using(crate::specs::ByPlace::rising_block, crate::specs::ByPlace::rising_none, crate::specs::ByPlace::rising_one))]
pub fn rising_keys(frames: &[f32], first: usize, count: usize) -> bool
    requires { first + count ≤ length frames.now }
    ensures { result ≡ rising_in frames.now first count }
{
    match count {
        0 => true,
        1 => frames[first] <= frames[first],
        _ => all_pass(&Rising { frames }, first, count - 1),
    }
}
