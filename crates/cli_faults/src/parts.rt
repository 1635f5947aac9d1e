// The part of a file that a rule speaks of, and the field in it.
use cli_page::Out;
use faults::{Fault, Part, Rule};

// The file as a whole, the sizes at its start, or whose row or key it is.
fn part_of(rule: Rule) -> &'static str {
    match rule {
        Rule::SheetShort | Rule::SheetLength | Rule::BookShort | Rule::BookLength => "file",
        Rule::AnimationsRange
        | Rule::ContentsRange
        | Rule::TargetsRange
        | Rule::KeysRange
        | Rule::TexturesRange
        | Rule::HeadZero
        | Rule::CountSum
        | Rule::PanesRange
        | Rule::MaterialsRange => "sizes",
        Rule::Looping | Rule::NextPresent | Rule::NextAbsent => "animation",
        Rule::ContentType | Rule::ContentZero | Rule::ContentAnimation | Rule::ContentOrder => {
            "content"
        }
        Rule::TargetCurve
        | Rule::TargetZero
        | Rule::TargetContent
        | Rule::TargetOrder
        | Rule::FirstKey => "target",
        Rule::PaneParent
        | Rule::PaneFlags
        | Rule::HorizontalOrigin
        | Rule::VerticalOrigin
        | Rule::PaneZero
        | Rule::PaneFinite
        | Rule::LabelEmpty
        | Rule::LabelTwice => "pane",
        Rule::MaterialFinite | Rule::NameEmpty | Rule::NameTwice => "material",
        Rule::FrameFinite
        | Rule::ValueFinite
        | Rule::SlopeFinite
        | Rule::ConstantFrame
        | Rule::ConstantSlope
        | Rule::StepSlope
        | Rule::StepValue
        | Rule::FrameOrder => "track",
    }
}

pub fn say_part(out: &mut Out, fault: Fault) {
    out.word(": ", "part", part_of(fault.rule));
    match fault.part {
        Part::Whole => {}
        Part::Row(row) => out.count(" ", "row", row as u64),
        Part::Key { track, key } => {
            out.count(" ", "row", track as u64);
            out.count(" key ", "key", key as u64);
        }
    }
}

fn field_of(rule: Rule) -> &'static str {
    match rule {
        Rule::SheetShort | Rule::SheetLength | Rule::BookShort | Rule::BookLength => "length",
        Rule::AnimationsRange => "animations",
        Rule::ContentsRange => "contents",
        Rule::TargetsRange => "targets",
        Rule::KeysRange | Rule::CountSum => "keys",
        Rule::TexturesRange => "textures",
        Rule::HeadZero | Rule::ContentZero | Rule::TargetZero | Rule::PaneZero => "padding",
        Rule::Looping => "looping",
        Rule::NextPresent => "next present",
        Rule::NextAbsent => "next name",
        Rule::ContentType => "type",
        Rule::ContentAnimation | Rule::ContentOrder => "animation",
        Rule::TargetCurve => "curve",
        Rule::TargetContent | Rule::TargetOrder => "content",
        Rule::FirstKey => "first key",
        Rule::PanesRange => "panes",
        Rule::MaterialsRange => "materials",
        Rule::PaneParent => "parent",
        Rule::PaneFlags => "flags",
        Rule::HorizontalOrigin => "horizontal origin",
        Rule::VerticalOrigin => "vertical origin",
        Rule::PaneFinite => "transform",
        Rule::MaterialFinite => "SRT",
        Rule::LabelEmpty | Rule::LabelTwice => "label",
        Rule::NameEmpty | Rule::NameTwice => "name",
        Rule::FrameFinite | Rule::ConstantFrame | Rule::FrameOrder => "frame",
        Rule::ValueFinite | Rule::StepValue => "value",
        Rule::SlopeFinite | Rule::ConstantSlope | Rule::StepSlope => "slope",
    }
}

pub fn say_field(out: &mut Out, rule: Rule) {
    out.word(", ", "field", field_of(rule));
}
