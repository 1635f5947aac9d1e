// The readings of a player's menu: each looks at its rows of the table in their order, then reads. No call asks anything of its caller.
#![tactic(auto)]

mod cascaded;
mod checked;
mod resolved;
mod single;
mod whole;

ghost use Rattle.std.specs.Prelude.{◌≡◌};
ghost use Rattle.player.specs.Parts.{view_of};
ghost use Rattle.menu_readings.specs.Readings.{active_in};

pub use cascaded::cascade;
use edit::NONE;
use player::Player;
use reading::At;
pub use resolved::{
    ResolvedPane, ResolvedSrt, find_texture_name, resolve_pane, resolve_srt, texture_name,
};
pub use single::{ReadOne, read_material, read_pane};
pub use whole::read_all;

// What is active: nothing without a selection or a preview. Stays a comparison: C has the player's selection, with a number for none.
#[tactic(auto, unfolding(crate::specs::Readings::active_in))]
pub fn active_in(p: &Player) -> Option<At>
    ensures { result ≡ active_in (view_of p.now) }
{
    if p.preview && p.selection != NONE {
        Some(At {
            animation: p.selection as usize,
            frame: p.frame,
        })
    } else {
        None
    }
}
