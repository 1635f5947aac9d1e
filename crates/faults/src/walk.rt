// The walk over the rows of a table.
ghost use Rattle.std.specs.Prelude.{◌≡◌, ℕ, ◌<◌, List};
ghost use Rattle.faults.specs.Tests.{Test, verdict, each_below};
ghost use Rattle.faults.specs.Verdict.{Answers};

use crate::fault::Fault;

// The first fault that one of n rows tells, each asked by `row`: the verdict on the tests that it answers for.
pub(crate) fn each<F: Fn(usize) -> Result<(), Fault>>(n: usize, row: F) -> Result<(), Fault>
    requires { (i : ℕ) → i < n → F.pre row i }
    ensures { (g : ℕ → List Test) → Answers n (F.post row) g → result ≡ verdict (each_below n g) }
{
    for i in 0..n {
        row(i)?;
    }
    Ok(())
}
