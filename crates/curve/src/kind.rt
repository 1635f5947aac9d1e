// A curve's kind.
#[derive(Clone, Copy, Debug, PartialEq, Eq)]
pub enum Kind {
    Constant,
    Step,
    Hermite,
}

impl Kind {
    ghost use Rattle.std.specs.Prelude.{◌≡◌};
    ghost use Rattle.curve.specs.Kind.{kind_of};

    // The kind that a target's row of the sheet names by a number. Any number past the last is read as Hermite.
    pub fn of(number: usize) -> Kind
        ensures { result ≡ kind_of number }
    {
        match number {
            0 => Kind::Constant,
            1 => Kind::Step,
            _ => Kind::Hermite,
        }
    }
}
