// UVs (document 01, "UVs and corners"), as the Rust's anim_state.rs and pane_tree.rs have them.
// The call from outside asks nothing of its arguments. On a refusal the output is as it was.
// Stays a number in its answer: C reads a refusal's, and 0 for none. A refusal is told by a match at the call's end: a function over a `Result` would take what the call writes, too.
#![tactic(auto)]

mod block;
mod checks;

ghost use Rattle.std.specs.Prelude.{◌≡◌};
ghost use Rattle.uv.specs.Calls.{filled, uvs_of};

use laws::Refusal;
use laws::refusal::ACCEPTED;

// The UV block of the lent layers under the lent SRTs, into an output of 24 numbers.
#[tactic(auto, using(crate::specs::Declined::uvs_length), unfolding(crate::specs::Calls::uvs_of))]
pub fn uvs(layers: &[f32], srts: &[f32], out: &mut [f32]) -> u8
    ensures { filled result out.new ≡ uvs_of layers.now srts.now out.old }
{
    match checks::check_uvs(layers, srts, out.len()) {
        Ok(()) => {
            let base = block::compute_uvs(layers);
            let block = block::apply_srt_to_uvs(base, srts);
            block::store(block, out);
            ACCEPTED
        }
        Err(refusal) => refusal.number(),
    }
}
