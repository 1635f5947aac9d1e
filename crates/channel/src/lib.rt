// Which channel of a book a target addresses.
#![tactic(auto)]

mod address;
mod corner_colours;
mod place;
mod reach;

pub use address::{
    ALPHA, MATERIAL_CHANNELS, MATERIAL_LAYERS, PANE_CHANNELS, VISIBLE, channel_count,
    material_row_channel, of_material, of_pane, pane_channel, pane_row_channel, row_channel,
    slot_channel,
};
pub use place::{Place, hits, place_of};
pub use reach::{Held, Names, labels, material_names};

// A target's family, by its four-letter code.
#[derive(Clone, Copy, Debug, PartialEq, Eq)]
pub enum Family {
    PaneSrt,
    Visibility,
    VertexColor,
    TextureSrt,
    TexturePattern,
    IndirectSrt,
    AlphaCompare,
    MaterialColor,
    Other,
}

// A row of the book that a content reaches.
#[derive(Clone, Copy, Debug, PartialEq, Eq)]
pub enum Reached {
    Pane(usize),
    Material(usize),
}
