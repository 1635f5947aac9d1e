// What `uvs` declines, and by which number (document 01, "What a call declines"). Nothing here changes anything.
ghost use Rattle.std.specs.Prelude.{◌≡◌, ◌+◌, ◌*◌, ◌<◌, length};
ghost use Rattle.laws.specs.Refusal.{declined};
ghost use Rattle.laws.specs.Rows.{declines};
ghost use Rattle.uv.specs.Uvs.{srt_numbers};
ghost use Rattle.uv.specs.Declined.{all_finite, angle_at, angles_pass, uvs_table};

use crate::block::{BLOCK, LAYER, SRT};
use laws::{Refusal, ask};

// Every number of the list is finite. No early way out: the loop then goes several at a time.
#[tactic(auto, using(laws::specs::Below::all_none, laws::specs::Below::all_step), unfolding(crate::specs::Declined::all_finite, crate::specs::Declined::finite_at))]
fn all_finite(s: &[f32]) -> bool
    ensures { result ≡ all_finite s.now }
{
    let mut ok = true;
    for x in s {
        ok &= float::is_finite(*x);
    }
    ok
}

// Whether the angle of SRT number i passes.
#[tactic(auto, unfolding(crate::specs::Declined::angle_at))]
fn angle_passes(srts: &[f32], i: usize) -> bool
    requires { i * srt_numbers + 2 < length srts.now }
    ensures { result ≡ angle_at srts.now i }
{
    float::angle_passes(srts[i * SRT + 2])
}

// The angle of every SRT of the list passes. Stays by index: of `srts.chunks_exact(SRT).all(..)` the proof did not close.
#[tactic(auto, unfolding(crate::specs::Declined::angles_pass, laws::specs::Below::all_below))]
fn angles_pass(srts: &[f32]) -> bool
    ensures { result ≡ angles_pass srts.now }
{
    (0..srts.len() / SRT).all(|i| angle_passes(srts, i))
}

// Both lists hold whole layers and SRTs of passing numbers. Stays a comparison with BLOCK: it is how many numbers the output has to hold, and no kind.
#[tactic(auto, unfolding(crate::specs::Declined::uvs_table, laws::specs::Rows::declines, laws::specs::Rows::unless))]
pub fn check_uvs(layers: &[f32], srts: &[f32], length: usize) -> Result<(), Refusal>
    ensures { declined result ≡ declines (uvs_table layers.now srts.now length) }
{
    ask(layers.len() % LAYER == 0, Refusal::BadArgument)?;
    ask(srts.len() % SRT == 0, Refusal::BadArgument)?;
    ask(all_finite(layers), Refusal::BadArgument)?;
    ask(all_finite(srts), Refusal::BadArgument)?;
    ask(angles_pass(srts), Refusal::AngleTooLarge)?;
    ask(length == BLOCK, Refusal::OutputLength)
}
