// Which channel a target addresses, by its family, its raw number and its layer.
ghost use Rattle.std.specs.Prelude.{◌≡◌, ◌<◌, IfSome};
ghost use Rattle.book.specs.Sizes.{material_count};
ghost use Rattle.channel.specs.Channel.{family_of, listed, pane_channel, colour_place, material_channel, slot_channel, pane_channels, material_channels, channel_count, of_pane, of_material, row_channel};
ghost use Rattle.channel.specs.Within.{ReachedIn};

use crate::corner_colours::{PANE_ALPHA, corner_channel, corner_colour};
use crate::{Family, Reached};
use book::Book;
use sheet::Target;

// How many channels a pane has, and a material.
pub const PANE_CHANNELS: usize = 28;

pub const MATERIAL_CHANNELS: usize = 30;

// A pane's channels after its SRT's ten: whether it is visible, and its alpha; the corner colours follow.
pub const VISIBLE: usize = 10;

pub const ALPHA: usize = 11;

// How many layers a material has, each with a texture slot, and the first slot's channel.
pub const MATERIAL_LAYERS: usize = 3;

const FIRST_TEXTURE: usize = 15;

// How many variants the enum of material colours has.
const COLOUR_VARIANTS: usize = 28;

// The four letters of a code as one number, little-endian.
const FLPA: u32 = 0x4150_4c46;

const FLVI: u32 = 0x4956_4c46;

const FLVC: u32 = 0x4356_4c46;

const FLTS: u32 = 0x5354_4c46;

const FLTP: u32 = 0x5054_4c46;

const FLIM: u32 = 0x4d49_4c46;

const FLAC: u32 = 0x4341_4c46;

const FLMC: u32 = 0x434d_4c46;

impl From<u32> for Family {
    ghost use Rattle.std.specs.Prelude.{◌≡◌};
    ghost use Rattle.channel.specs.Channel.{family_of};

    ghost from_gives = { λ code f. f ≡ family_of code };

    #[tactic(auto, unfolding(crate::specs::Channel::family_of))]
    fn from(code: u32) -> Family {
        match code {
            FLPA => Family::PaneSrt,
            FLVI => Family::Visibility,
            FLVC => Family::VertexColor,
            FLTS => Family::TextureSrt,
            FLTP => Family::TexturePattern,
            FLIM => Family::IndirectSrt,
            FLAC => Family::AlphaCompare,
            FLMC => Family::MaterialColor,
            _ => Family::Other,
        }
    }
}

// A raw number that its enum of n variants doesn't list stands for the first variant.
#[tactic(auto, unfolding(crate::specs::Channel::listed))]
fn listed(n: usize, raw: usize) -> usize
    requires { 0 < n }
    ensures { (result ≡ listed n raw) × (result < n) }
{
    if raw < n { raw } else { 0 }
}

// A pane's channel. Stays a comparison with PANE_ALPHA: the raw number is the format's, and only this one is no corner's.
#[tactic(auto, using(crate::proofs::Corners::corner_by_number), unfolding(crate::specs::Channel::pane_channel))]
pub fn pane_channel(f: Family, raw: usize) -> Option<usize>
    ensures { result ≡ pane_channel f raw }
{
    match f {
        Family::PaneSrt => Some(listed(10, raw)),
        Family::Visibility => Some(VISIBLE),
        Family::VertexColor => {
            let i = listed(17, raw);
            if i == PANE_ALPHA {
                Some(ALPHA)
            } else {
                Some(corner_channel(corner_colour(i)))
            }
        }
        _ => None,
    }
}

// Black is below 4, every other index is white.
#[tactic(auto, unfolding(crate::specs::Channel::colour_place))]
fn colour_place(i: usize) -> usize
    ensures { (result ≡ colour_place i) × (result < 8) }
{
    if i < 4 { i } else { 4 + i % 4 }
}

// A material's channel. Where the family has layers, those from 3 up are skipped.
#[tactic(auto, unfolding(crate::specs::Channel::material_channel, crate::specs::Channel::slot_channel))]
pub fn material_channel(f: Family, raw: usize, layer: usize) -> Option<usize>
    ensures { result ≡ material_channel f raw layer }
{
    match f {
        Family::TextureSrt if layer < MATERIAL_LAYERS => Some(layer * 5 + listed(5, raw)),
        Family::TexturePattern if layer < MATERIAL_LAYERS => Some(FIRST_TEXTURE + layer),
        Family::IndirectSrt => Some(18 + listed(3, raw)),
        Family::AlphaCompare => Some(21),
        Family::MaterialColor => Some(22 + colour_place(listed(COLOUR_VARIANTS, raw))),
        _ => None,
    }
}

// The channel of a material's texture slot; one past the last where there is no such slot: C and the command line hand on the number, and a reading
// declines it.
#[tactic(auto, unfolding(crate::specs::Channel::slot_channel))]
pub fn slot_channel(slot: u16) -> u16
    ensures { result ≡ slot_channel slot }
{
    if (slot as usize) < MATERIAL_LAYERS {
        FIRST_TEXTURE as u16 + slot
    } else {
        MATERIAL_CHANNELS as u16
    }
}

// How many channels a book has.
#[tactic(auto, unfolding(crate::specs::Channel::channel_count))]
pub fn channel_count(book: &Book<'_>) -> usize
    ensures { result ≡ channel_count book.now.bytes.now }
{
    book.pane_count() * PANE_CHANNELS + book.material_count() * MATERIAL_CHANNELS
}

// Channel c of pane p.
#[tactic(auto, unfolding(crate::specs::Channel::of_pane))]
pub fn of_pane(p: usize, c: usize) -> usize
    requires pane { p < 65536 }
    requires channel { c < pane_channels }
    ensures { result ≡ of_pane p c }
{
    p * PANE_CHANNELS + c
}

// Channel c of material m.
#[tactic(auto, unfolding(crate::specs::Channel::of_material))]
pub fn of_material(book: &Book<'_>, m: usize, c: usize) -> usize
    requires material { m < material_count book.now.bytes.now }
    requires channel { c < material_channels }
    ensures { result ≡ of_material book.now.bytes.now m c }
{
    book.pane_count() * PANE_CHANNELS + m * MATERIAL_CHANNELS + c
}

// The channel of a pane that a target's row addresses.
pub fn pane_row_channel(row: Target) -> Option<usize>
    ensures { result ≡ pane_channel (family_of row.code) row.raw }
{
    pane_channel(Family::from(row.code), row.raw)
}

// The channel of a material likewise.
pub fn material_row_channel(row: Target) -> Option<usize>
    ensures { result ≡ material_channel (family_of row.code) row.raw row.layer }
{
    material_channel(Family::from(row.code), row.raw, row.layer)
}

// The channel that a target's row addresses in the row that is reached. The family is asked for last: many targets reach nothing.
#[tactic(auto, unfolding(crate::specs::Channel::row_channel, crate::specs::Channel::address))]
pub fn row_channel(book: &Book<'_>, reached: Option<Reached>, row: Target) -> Option<usize>
    requires { IfSome reached (ReachedIn book.now.bytes.now) }
    ensures { result ≡ row_channel book.now.bytes.now reached row }
{
    match reached? {
        Reached::Pane(p) => Some(of_pane(p, pane_row_channel(row)?)),
        Reached::Material(m) => Some(of_material(book, m, material_row_channel(row)?)),
    }
}
