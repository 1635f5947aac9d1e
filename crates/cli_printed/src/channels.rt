// Channels by name, in the order of their numbers. The names are the variants of targets.rs, and plain words where an enum has no word for it;
// the program channel_names prints them all, and what it must print is made from targets.rs.
ghost use Rattle.std.specs.Prelude.{◌<◌, ◌≤◌, length, IfSome};

pub use channel::{MATERIAL_CHANNELS, PANE_CHANNELS};
use cli_page::Out;

static PANE: [&str; PANE_CHANNELS] = [
    "translate_x",
    "translate_y",
    "translate_z",
    "rotate_x",
    "rotate_y",
    "rotate_z",
    "scale_x",
    "scale_y",
    "size_x",
    "size_y",
    "visible",
    "alpha",
    "left_top_red",
    "left_top_green",
    "left_top_blue",
    "left_top_alpha",
    "right_top_red",
    "right_top_green",
    "right_top_blue",
    "right_top_alpha",
    "left_bottom_red",
    "left_bottom_green",
    "left_bottom_blue",
    "left_bottom_alpha",
    "right_bottom_red",
    "right_bottom_green",
    "right_bottom_blue",
    "right_bottom_alpha",
];

static MATERIAL: [&str; MATERIAL_CHANNELS] = [
    "layer_0_translate_u",
    "layer_0_translate_v",
    "layer_0_rotate",
    "layer_0_scale_u",
    "layer_0_scale_v",
    "layer_1_translate_u",
    "layer_1_translate_v",
    "layer_1_rotate",
    "layer_1_scale_u",
    "layer_1_scale_v",
    "layer_2_translate_u",
    "layer_2_translate_v",
    "layer_2_rotate",
    "layer_2_scale_u",
    "layer_2_scale_v",
    "texture_0",
    "texture_1",
    "texture_2",
    "indirect_rotate",
    "indirect_scale_u",
    "indirect_scale_v",
    "alpha_reference",
    "black_red",
    "black_green",
    "black_blue",
    "black_alpha",
    "white_red",
    "white_green",
    "white_blue",
    "white_alpha",
];

// Whose a channel is. Stays apart from `channel::Reached`: it names the kind alone, with no row.
#[derive(Clone, Copy, Debug, PartialEq, Eq)]
pub enum Owner {
    Pane,
    Material,
}

fn names(owner: Owner) -> &'static [&'static str]
    ensures { length result.now ≤ 30 }
{
    match owner {
        Owner::Pane => &PANE,
        Owner::Material => &MATERIAL,
    }
}

// The channel that a word names.
pub fn channel(owner: Owner, w: &[u8]) -> Option<usize>
    ensures { IfSome result (λ c. c < 30) }
{
    names(owner).iter().position(|name| name.as_bytes() == w)
}

// A channel by its name.
pub fn name_channel(out: &mut Out, owner: Owner, c: usize) {
    let name = names(owner).get(c).copied().unwrap_or("");
    out.word(" ", "channel", name);
}
