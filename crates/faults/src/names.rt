// The first broken rule of floats in a row, and of the names of a table's rows: for panes and for materials, with the numbers of the rules as parameters.
ghost use Rattle.std.specs.Prelude.{◌≡◌, ◌+◌, ◌*◌, ◌<◌, ◌≤◌, length};
ghost use Rattle.faults.specs.Tests.{verdict, each_below};
ghost use Rattle.faults.specs.Names.{float_test, twice_test, name_tests};

use crate::fault::{Fault, Part, ask};
use crate::rules::Rule;
use crate::walk::each;
use field::{Names, byte_at};

// The k-th f32 of those from `at` on.
#[tactic(auto, unfolding(crate::specs::Tests::verdict, crate::specs::Names::float_test, field::specs::Read::finite_in))]
fn float_fault(b: &[u8], rule: Rule, i: usize, at: usize, k: usize) -> Result<(), Fault>
    requires { at + k * 4 + 3 < length b.now }
    ensures { result ≡ verdict (float_test b.now rule i at k) }
{
    let place = at + k * 4;
    ask(
        field::finite_at(b, place),
        Fault::of_float(b, rule, Part::Row(i), place, None),
    )
}

// The n f32s from `at` on.
pub(crate) fn floats_fault(b: &[u8], rule: Rule, i: usize, at: usize, n: usize) -> Result<(), Fault>
    requires { at + n * 4 ≤ length b.now }
    ensures { result ≡ verdict (each_below n (float_test b.now rule i at)) }
{
    each(n, |k| float_fault(b, rule, i, at, k))
}

// Row i has another name than row j.
#[tactic(auto, unfolding(crate::specs::Tests::verdict, crate::specs::Names::twice_test, field::specs::Name::other_name))]
fn pair_fault(names: &Names<'_>, rule: Rule, i: usize, j: usize) -> Result<(), Fault>
    requires first { i < names.now.rows }
    requires second { j < names.now.rows }
    ensures { result ≡ verdict (twice_test names.now.table.now rule names.now.base names.now.stride i j) }
{
    let at = names.place(i);
    let same = field::same_name(names.table, names.place(j), names.table, at);
    ask(
        !same,
        Fault::of(rule, Part::Row(i), at, byte_at(names.table, at), Some(j)),
    )
}

// Row i has another name than each earlier row.
fn twice_fault(names: &Names<'_>, rule: Rule, i: usize) -> Result<(), Fault>
    requires { i < names.now.rows }
    ensures { result ≡ verdict (each_below i (twice_test names.now.table.now rule names.now.base names.now.stride i)) }
{
    each(i, |j| pair_fault(names, rule, i, j))
}

#[tactic(auto, unfolding(crate::specs::Tests::verdict, crate::specs::Names::name_tests))]
fn name_fault(names: &Names<'_>, empty: Rule, twice: Rule, i: usize) -> Result<(), Fault>
    requires { i < names.now.rows }
    ensures { result ≡ verdict (name_tests names.now.table.now empty twice names.now.base names.now.stride i) }
{
    let at = names.place(i);
    let there = byte_at(names.table, at);
    ask(
        !field::empty_name(names.table, at),
        Fault::of(empty, Part::Row(i), at, there, None),
    )?;
    twice_fault(names, twice, i)
}

pub(crate) fn names_fault(names: Names<'_>, empty: Rule, twice: Rule) -> Result<(), Fault>
    ensures { result ≡ verdict (each_below names.entry.rows (name_tests names.entry.table.now empty twice names.entry.base names.entry.stride)) }
{
    each(names.rows, |i| name_fault(&names, empty, twice, i))
}
