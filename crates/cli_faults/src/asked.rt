// What a rule asks of a field.
use cli_page::Out;
use faults::{Fault, Number, Rule};

pub fn say_number(out: &mut Out, before: &str, name: &str, n: Number) {
    match n {
        Number::Whole(n) => out.count(before, name, n as u64),
        Number::Float(bits) => cli_numbers::number(out, before, name, cli_words::pattern(bits)),
    }
}

// What a field may be.
#[derive(Clone, Copy, Debug)]
enum May {
    // The same in every file.
    Words(&'static str),
    // The number that the rule holds it against, with words behind it.
    Number(&'static str),
    Below,
    // Not below the row before it.
    FromRow,
    // Not below the frame of the key before it.
    FromKey,
}

fn may_of(rule: Rule) -> May {
    match rule {
        Rule::SheetShort => May::Words("12 or more"),
        Rule::AnimationsRange => May::Words("1 to 8"),
        Rule::ContentsRange | Rule::TexturesRange => May::Words("0 to 64"),
        Rule::TargetsRange => May::Words("0 to 256"),
        Rule::KeysRange => May::Words("0 to 2,048"),
        Rule::HeadZero | Rule::ContentZero | Rule::TargetZero | Rule::PaneZero => May::Words("0"),
        Rule::SheetLength | Rule::BookLength => May::Number(", as its sizes say"),
        Rule::Looping | Rule::NextPresent => May::Words("0 or 1"),
        Rule::NextAbsent => May::Words("0, since there is no next"),
        Rule::ContentType => May::Words("0 to 4"),
        Rule::ContentAnimation | Rule::TargetContent => May::Below,
        Rule::ContentOrder | Rule::TargetOrder => May::FromRow,
        Rule::TargetCurve | Rule::HorizontalOrigin | Rule::VerticalOrigin => May::Words("0 to 2"),
        Rule::FirstKey => May::Number(", the sum of the key counts before it"),
        Rule::CountSum => May::Number(", the sum of all key counts"),
        Rule::BookShort => May::Words("4 or more"),
        Rule::PanesRange => May::Words("1 to 64"),
        Rule::MaterialsRange => May::Words("0 to 32"),
        Rule::PaneParent => May::Words("65,535, which is none, or a smaller row"),
        Rule::PaneFlags => May::Words("0 to 3"),
        Rule::PaneFinite
        | Rule::MaterialFinite
        | Rule::FrameFinite
        | Rule::ValueFinite
        | Rule::SlopeFinite => May::Words("any finite number"),
        Rule::LabelEmpty | Rule::NameEmpty => May::Words("any other name"),
        Rule::LabelTwice | Rule::NameTwice => May::Words("a name that no other row has"),
        Rule::ConstantFrame | Rule::ConstantSlope | Rule::StepSlope => May::Words("+0"),
        Rule::StepValue => May::Words("a whole number 0 to 65,535, not -0"),
        Rule::FrameOrder => May::FromKey,
    }
}

// What may be is a number, with words behind it.
fn may_number(out: &mut Out, name: &str, n: Number, behind: &str) {
    say_number(out, ", may be ", name, n);
    out.lead(behind);
}

fn below(out: &mut Out, n: Number) {
    out.note("may_be", "below");
    say_number(out, ", may be below ", "below", n);
}

// Rows never fall.
fn from_row(out: &mut Out, n: Number) {
    out.note("may_be", "not below that of the row before it");
    may_number(out, "from", n, " or more, as the row before it has");
}

fn from_key(out: &mut Out, n: Number) {
    may_number(out, "from", n, " or more, as the key before it has");
}

// `, may be ` and what.
pub fn say_asked(out: &mut Out, fault: Fault) {
    match (may_of(fault.rule), fault.wants) {
        (May::Words(words), _) => out.word(", may be ", "may_be", words),
        (May::Number(behind), Some(n)) => may_number(out, "may_be", n, behind),
        (May::Below, Some(n)) => below(out, n),
        (May::FromRow, Some(n)) => from_row(out, n),
        (May::FromKey, Some(n)) => from_key(out, n),
        (_, None) => {}
    }
}
