// A broken rule, and how one is asked.
ghost use Rattle.std.specs.Prelude.{◌≡◌};
ghost use Rattle.faults.specs.Tests.{asked};

use crate::rules::Rule;

// What a rule is on: the file as a whole with the sizes at its start, a row of one of its tables, or a key of a track.
#[derive(Clone, Copy, Debug, PartialEq, Eq)]
pub enum Part {
    Whole,
    Row(usize),
    Key { track: usize, key: usize },
}

// A number in a file: a whole one, or an f32 by its bits.
#[derive(Clone, Copy, Debug, PartialEq, Eq)]
pub enum Number {
    Whole(usize),
    Float(u32),
}

// `at` is the byte offset of the field, `there` what it holds. `wants` is the number that the rule holds it against, where it holds it against one.
#[derive(Clone, Copy, Debug, PartialEq, Eq)]
pub struct Fault {
    pub rule: Rule,
    pub part: Part,
    pub at: usize,
    pub there: Number,
    pub wants: Option<Number>,
}

// What is asked of a field.
pub(crate) fn ask(holds: bool, fault: Fault) -> Result<(), Fault>
    ensures { result ≡ asked holds fault }
{
    if holds { Ok(()) } else { Err(fault) }
}

impl Fault {
    ghost use Rattle.std.specs.Prelude.{◌≡◌, ◌+◌, ◌<◌, length};
    ghost use Rattle.field.specs.Read.{u32_at};
    ghost use Rattle.faults.specs.Tests.{fault, float_fault};

    // A rule that a whole number breaks.
    pub fn of(rule: Rule, part: Part, at: usize, there: usize, wants: Option<usize>) -> Fault
        ensures { result ≡ fault rule part at there wants }
    {
        Fault {
            rule,
            part,
            at,
            there: Number::Whole(there),
            wants: wants.map(Number::Whole),
        }
    }

    // A rule that the f32 at `at` breaks.
    pub fn of_float(s: &[u8], rule: Rule, part: Part, at: usize, wants: Option<u32>) -> Fault
        requires { at + 3 < length s.now }
        ensures { result ≡ float_fault rule part at (u32_at s.now at) wants }
    {
        Fault {
            rule,
            part,
            at,
            there: Number::Float(field::u32_at(s, at)),
            wants: wants.map(Number::Float),
        }
    }
}
