// The sixteen corner colours of a pane by name: the variants of targets.rs's `VertexColorTarget`, in its order and spelling, without `PaneAlpha`, its last.
ghost use Rattle.std.specs.Prelude.{◌≡◌, ◌<◌};
ghost use Rattle.channel.specs.CornerColours.{pane_alpha, corner_colour, corner_channel};

// Each has the number of its channel: they follow alpha.
#[derive(Clone, Copy, Debug, PartialEq, Eq)]
pub enum CornerColour {
    LeftTopRed = 12,
    LeftTopGreen = 13,
    LeftTopBlue = 14,
    LeftTopAlpha = 15,
    RightTopRed = 16,
    RightTopGreen = 17,
    RightTopBlue = 18,
    RightTopAlpha = 19,
    LeftBottomRed = 20,
    LeftBottomGreen = 21,
    LeftBottomBlue = 22,
    LeftBottomAlpha = 23,
    RightBottomRed = 24,
    RightBottomGreen = 25,
    RightBottomBlue = 26,
    RightBottomAlpha = 27,
}

// The raw number of `PaneAlpha`, which is no corner's: the corner colours have those below it.
pub const PANE_ALPHA: usize = 16;

// Each corner colour at its raw number.
const CORNER_COLOURS: [CornerColour; PANE_ALPHA] = [
    CornerColour::LeftTopRed,
    CornerColour::LeftTopGreen,
    CornerColour::LeftTopBlue,
    CornerColour::LeftTopAlpha,
    CornerColour::RightTopRed,
    CornerColour::RightTopGreen,
    CornerColour::RightTopBlue,
    CornerColour::RightTopAlpha,
    CornerColour::LeftBottomRed,
    CornerColour::LeftBottomGreen,
    CornerColour::LeftBottomBlue,
    CornerColour::LeftBottomAlpha,
    CornerColour::RightBottomRed,
    CornerColour::RightBottomGreen,
    CornerColour::RightBottomBlue,
    CornerColour::RightBottomAlpha,
];

pub fn corner_colour(raw: usize) -> CornerColour
    requires { raw < pane_alpha }
    ensures { result ≡ corner_colour raw }
{
    CORNER_COLOURS[raw]
}

pub fn corner_channel(c: CornerColour) -> usize
    ensures { result ≡ corner_channel c }
{
    c as usize
}
