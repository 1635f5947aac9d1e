// The rules, each with what it asks, in the order in which they are tested.
#[derive(Clone, Copy, Debug, PartialEq, Eq)]
pub enum Rule {
    // ---- the sheet's layout

    // A sheet has 12 bytes at least.
    SheetShort,
    // How many animations: 1 to 8.
    AnimationsRange,
    // How many contents: 0 to 64.
    ContentsRange,
    // How many targets: 0 to 256.
    TargetsRange,
    // How many keys: 0 to 2,048.
    KeysRange,
    // How many textures: 0 to 64.
    TexturesRange,
    // The u16 after the sizes: 0.
    HeadZero,
    // The sheet is as long as its sizes say: `wants`.
    SheetLength,
    // An animation's looping: 0 or 1.
    Looping,
    // Whether an animation has a next: 0 or 1.
    NextPresent,
    // A byte of the next name, where there is no next: 0.
    NextAbsent,
    // A content's type: 0 to 4.
    ContentType,
    // The u16 after a content's type: 0.
    ContentZero,
    // A content's animation: below `wants`, the number of animations.
    ContentAnimation,
    // A content's animation: not below `wants`, that of the content before it.
    ContentOrder,
    // A target's curve: 0 to 2.
    TargetCurve,
    // The byte after a target's curve: 0.
    TargetZero,
    // A target's content: below `wants`, the number of contents.
    TargetContent,
    // A target's content: not below `wants`, that of the target before it.
    TargetOrder,
    // A target's first key: `wants`, the sum of the earlier targets' key counts.
    FirstKey,
    // How many keys the sheet has: `wants`, the sum of all targets' key counts.
    CountSum,

    // ---- the book's layout

    // A book has 4 bytes at least.
    BookShort,
    // How many panes: 1 to 64.
    PanesRange,
    // How many materials: 0 to 32.
    MaterialsRange,
    // The book is as long as its sizes say: `wants`.
    BookLength,
    // A pane's parent: 65,535, which is none, or below `wants`, its own row.
    PaneParent,
    // A pane's flags: 0 to 3.
    PaneFlags,
    // A pane's horizontal origin: 0 to 2.
    HorizontalOrigin,
    // A pane's vertical origin: 0 to 2.
    VerticalOrigin,
    // The u16 after a pane's origins: 0.
    PaneZero,
    // A number of a pane's transform: finite.
    PaneFinite,
    // A number of a material's SRTs: finite.
    MaterialFinite,
    // A pane's label: not empty. As for all names, `there` is its first byte.
    LabelEmpty,
    // A pane's label: not that of an earlier pane, whose row is `wants`.
    LabelTwice,
    // A material's name: not empty.
    NameEmpty,
    // A material's name: not that of an earlier material, whose row is `wants`.
    NameTwice,

    // ---- the key rules

    // A key's frame: finite.
    FrameFinite,
    // A key's value: finite.
    ValueFinite,
    // A key's slope: finite.
    SlopeFinite,
    // A Constant key's frame: +0.
    ConstantFrame,
    // A Constant key's slope: +0.
    ConstantSlope,
    // A Step key's slope: +0.
    StepSlope,
    // A Step key's value: whole, 0 to 65,535, not -0.
    StepValue,
    // A Step or Hermite key's frame: not below that of the key before it, whose bits are `wants`.
    FrameOrder,
}
