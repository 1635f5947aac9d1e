// The first broken rule of a book's layout. Each function answers for one part of `book_tests`.
ghost use Rattle.std.specs.Prelude.{◌≡◌, ◌+◌, ◌*◌, ◌≤◌, length};
ghost use Rattle.book.specs.Sizes.{head_bytes, pane_bytes, material_bytes, panes_at};
ghost use Rattle.book.specs.Book.{book_ok};
ghost use Rattle.book.specs.Checked.{Sized};
ghost use Rattle.faults.specs.Tests.{verdict, each_below, Tells};
ghost use Rattle.faults.specs.Book.{head_tests, pane_tests, material_tests, part_tests, book_tests};

use crate::fault::{Fault, Part, ask};
use crate::names::{floats_fault, names_fault};
use crate::rules::Rule;
use crate::walk::each;
use book::{HEAD, MATERIAL_BYTES, NO_PARENT, PANE_BYTES, material_count, materials_at, pane_count};
use field::{NAME_BYTES, Names, byte_at, u16_at};

#[tactic(auto, unfolding(crate::specs::Tests::verdict, crate::specs::Book::head_tests))]
fn head_fault(b: &[u8]) -> Result<(), Fault>
    requires { head_bytes ≤ length b.now }
    ensures { result ≡ verdict (head_tests b.now) }
{
    let p = u16_at(b, 0);
    let m = u16_at(b, 2);
    let n = b.len();
    let long = HEAD + p * PANE_BYTES + m * MATERIAL_BYTES;
    ask(
        (1 <= p) & (p <= 64),
        Fault::of(Rule::PanesRange, Part::Whole, 0, p, None),
    )?;
    ask(
        m <= 32,
        Fault::of(Rule::MaterialsRange, Part::Whole, 2, m, None),
    )?;
    ask(
        n == long,
        Fault::of(Rule::BookLength, Part::Whole, n, n, Some(long)),
    )
}

#[tactic(auto, unfolding(crate::specs::Tests::verdict, crate::specs::Book::pane_tests))]
fn pane_fault(b: &[u8], i: usize) -> Result<(), Fault>
    requires { panes_at + i * pane_bytes + pane_bytes ≤ length b.now }
    ensures { result ≡ verdict (pane_tests b.now i) }
{
    let at = HEAD + i * PANE_BYTES;
    let parent = u16_at(b, at + NAME_BYTES);
    let flags = byte_at(b, at + 26);
    let horizontal = byte_at(b, at + 28);
    let vertical = byte_at(b, at + 29);
    let zero = u16_at(b, at + 30);
    // Stays a comparison: a book's bytes hold 65,535 for no parent.
    let above = (parent == NO_PARENT) | (parent < i);
    ask(
        above,
        Fault::of(
            Rule::PaneParent,
            Part::Row(i),
            at + NAME_BYTES,
            parent,
            Some(i),
        ),
    )?;
    ask(
        flags <= 3,
        Fault::of(Rule::PaneFlags, Part::Row(i), at + 26, flags, None),
    )?;
    ask(
        horizontal <= 2,
        Fault::of(
            Rule::HorizontalOrigin,
            Part::Row(i),
            at + 28,
            horizontal,
            None,
        ),
    )?;
    ask(
        vertical <= 2,
        Fault::of(Rule::VerticalOrigin, Part::Row(i), at + 29, vertical, None),
    )?;
    ask(
        zero == 0,
        Fault::of(Rule::PaneZero, Part::Row(i), at + 30, zero, None),
    )?;
    floats_fault(b, Rule::PaneFinite, i, at + 32, 10)
}

fn panes_fault(b: &[u8], n: usize) -> Result<(), Fault>
    requires { panes_at + n * pane_bytes ≤ length b.now }
    ensures { result ≡ verdict (each_below n (pane_tests b.now)) }
{
    each(n, |i| pane_fault(b, i))
}

#[tactic(auto, unfolding(crate::specs::Book::material_tests))]
fn material_fault(b: &[u8], base: usize, i: usize) -> Result<(), Fault>
    requires { base + i * material_bytes + material_bytes ≤ length b.now }
    ensures { result ≡ verdict (material_tests b.now base i) }
{
    floats_fault(
        b,
        Rule::MaterialFinite,
        i,
        base + i * MATERIAL_BYTES + 96,
        15,
    )
}

fn materials_fault(b: &[u8], base: usize, n: usize) -> Result<(), Fault>
    requires { base + n * material_bytes ≤ length b.now }
    ensures { result ≡ verdict (each_below n (material_tests b.now base)) }
{
    each(n, |i| material_fault(b, base, i))
}

#[tactic(auto, using(crate::specs::Verdict::first_accepts, crate::specs::Verdict::first_tells, book::specs::Checked::label_place, book::specs::Checked::name_place), unfolding(crate::specs::Book::part_tests, crate::specs::Book::label_tests, crate::specs::Book::material_name_tests))]
fn parts_fault(b: &[u8]) -> Result<(), Fault>
    requires there { head_bytes ≤ length b.now }
    requires sized { Sized b.now }
    ensures { result ≡ verdict (part_tests b.now) }
{
    let p = pane_count(b);
    let m = material_count(b);
    let base = materials_at(b);
    let labels = Names {
        table: b,
        base: HEAD,
        stride: PANE_BYTES,
        rows: p,
    };
    let names = Names {
        table: b,
        base,
        stride: MATERIAL_BYTES,
        rows: m,
    };
    panes_fault(b, p)?;
    materials_fault(b, base, m)?;
    names_fault(labels, Rule::LabelEmpty, Rule::LabelTwice)?;
    names_fault(names, Rule::NameEmpty, Rule::NameTwice)
}

#[tactic(auto, using(crate::specs::Verdict::first_accepts, crate::specs::Verdict::first_tells), unfolding(crate::specs::Tests::verdict, crate::specs::Book::book_tests))]
fn layout_fault(b: &[u8]) -> Result<(), Fault>
    ensures { result ≡ verdict (book_tests b.now) }
{
    let n = b.len();
    ask(
        n >= HEAD,
        Fault::of(Rule::BookShort, Part::Whole, n, n, Some(HEAD)),
    )?;
    head_fault(b)?;
    parts_fault(b)
}

// The first rule of the layout that b breaks: none exactly where it is a book.
pub fn book_fault(b: &[u8]) -> Result<(), Fault>
    ensures { Tells (book_ok b.now) (book_tests b.now) result }
{
    layout_fault(b)
}
