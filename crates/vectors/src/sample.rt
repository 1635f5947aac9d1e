// What the families share: how a record's numbers are read, the count of cases, and how an answer is held against a stored one.
ghost use Rattle.std.specs.Prelude.{◌≡◌, ◌<◌, ◌≤◌, ◌+◌, length, IfSome};

use std::fmt;
use std::num::f32_from_bits_with_nan;

// The cases replayed so far, and how many of them differ.
#[derive(Clone, Copy, Default)]
pub struct Tally {
    pub cases: u32,
    pub differ: u32,
}

impl Tally {
    // One case more. A sample has fewer cases than bytes, so that no count wraps.
    pub fn count(&mut self, same: bool) {
        self.cases = self.cases.wrapping_add(1);
        if !same {
            self.differ = self.differ.wrapping_add(1);
        }
    }
}

impl fmt::Display for Tally {
    fn fmt<W: fmt::Write>(&self, f: &mut fmt::Formatter<W>) -> fmt::Result {
        let cases = self.cases;
        let differ = self.differ;
        write!(f, "{cases} cases {differ} differ")
    }
}

// The bytes of a sample that are not read yet. Each method reads on, and answers nothing where too few are left.
#[derive(Clone, Copy)]
pub struct Rest<'a> {
    pub bytes: &'a [u8],
}

impl<'a> Rest<'a> {
    pub fn take(&mut self, n: usize) -> Option<&'a [u8]>
        ensures { length self.new.bytes.now ≤ length self.old.bytes.now }
    {
        let (taken, left) = self.bytes.split_at_checked(n)?;
        self.bytes = left;
        Some(taken)
    }

    pub fn next<const N: usize>(&mut self) -> Option<[u8; N]>
        ensures less { length self.new.bytes.now ≤ length self.old.bytes.now }
        ensures read { IfSome result (λ _. length self.new.bytes.now + N ≡ length self.old.bytes.now) }
    {
        let (taken, left) = self.bytes.split_first_chunk::<N>()?;
        self.bytes = left;
        Some(*taken)
    }

    pub fn count(&mut self) -> Option<usize>
        ensures less { length self.new.bytes.now ≤ length self.old.bytes.now }
        ensures read { IfSome result (λ _. length self.new.bytes.now < length self.old.bytes.now) }
    {
        Some(u16::from_le_bytes(self.next()?) as usize)
    }

    pub fn bits(&mut self) -> Option<u32>
        ensures { length self.new.bytes.now ≤ length self.old.bytes.now }
    {
        Some(u32::from_le_bytes(self.next()?))
    }

    // An f32, also a NaN.
    pub fn number(&mut self) -> Option<f32>
        ensures { length self.new.bytes.now ≤ length self.old.bytes.now }
    {
        Some(f32_from_bits_with_nan(self.bits()?))
    }

    // As many numbers as there is room for.
    pub fn numbers(&mut self, room: &mut [f32]) -> Option<()>
        ensures { length self.new.bytes.now ≤ length self.old.bytes.now }
    {
        for x in room.iter_mut() {
            *x = self.number()?;
        }
        Some(())
    }

    // Whether the answer x is the one stored next, all NaNs being one.
    pub fn has(&mut self, x: f32) -> Option<bool>
        ensures { length self.new.bytes.now ≤ length self.old.bytes.now }
    {
        Some(bits_of(x) == self.bits()?)
    }
}

// How an answer is stored.
fn bits_of(x: f32) -> u32 {
    if x.is_nan() {
        return 0x7fc0_0000;
    }
    f32::to_bits(x)
}
