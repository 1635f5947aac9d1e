// The UV block: four corners of three layers of a pair (document 01, "UVs and corners"; anim_state.rs and pane_tree.rs).
// Layers are lent as eight numbers each, u and v of top left, top right, bottom left, bottom right; SRTs as five each.
// Stays an index below 3 where a layer is meant: an array asks for the bound wherever it is indexed.
ghost use Rattle.std.specs.Prelude.{◌≡◌, ◌+◌, ◌*◌, ◌<◌, ◌≤◌, length};
ghost use Rattle.uv.specs.Uvs.{srt_numbers, block_numbers, moved, srt_turn, base_uvs, srt_at, applied, numbers};
ghost use Rattle.uv.specs.Sets.{lent_set, set_of, set_transformed, with_set};

use float::{SinCos, Srt, Vector2};

// How many numbers a lent layer has, a lent SRT, and the block; and how many pairs the block has.
pub const LAYER: usize = 8;

pub const SRT: usize = 5;

pub const BLOCK: usize = 24;

const PAIRS: usize = BLOCK / 2;

// The Rust's transform_uv_srt: a pair scaled and turned about (0.5, 0.5), then moved. `turn` is the sine and cosine of the SRT's angle, made once for a layer.
fn transform_uv_srt(srt: Srt, turn: SinCos, uv: [f32; 2]) -> [f32; 2]
    ensures { result ≡ moved srt turn uv }
{
    let scaled_u = (uv[0] - 0.5) * srt.scale.x;
    let scaled_v = (uv[1] - 0.5) * srt.scale.y;
    let rotated_u = scaled_u * turn.cos - scaled_v * turn.sin;
    let rotated_v = scaled_u * turn.sin + scaled_v * turn.cos;
    [
        rotated_u + srt.translate.x + 0.5,
        rotated_v + srt.translate.y + 0.5,
    ]
}

fn srt_turn(srt: Srt) -> SinCos
    ensures { result ≡ srt_turn srt }
{
    float::sin_cos(float::radians(srt.rotate))
}

// A layer's UV set, its pair at each corner: what is lent, or the unit square where the layer is missing.
// Stays four pairs written out: one test serves all four, so that they are read together.
fn get_uv_set(layers: &[f32], layer: usize) -> [[f32; 2]; 4]
    requires { layer < 3 }
    ensures { result ≡ lent_set layers.now layer }
{
    let at = layer * LAYER;
    if at + LAYER <= layers.len() {
        let a = [layers[at], layers[at + 1]];
        let b = [layers[at + 2], layers[at + 3]];
        let c = [layers[at + 4], layers[at + 5]];
        let d = [layers[at + 6], layers[at + 7]];
        return [a, b, c, d];
    }
    [[0.0, 0.0], [1.0, 0.0], [0.0, 1.0], [1.0, 1.0]]
}

// The block before any SRT.
pub fn compute_uvs(layers: &[f32]) -> [[[f32; 2]; 3]; 4]
    ensures { result ≡ base_uvs layers.now }
{
    let a = get_uv_set(layers, 0);
    let b = get_uv_set(layers, 1);
    let c = get_uv_set(layers, 2);
    [
        [a[0], b[0], c[0]],
        [a[1], b[1], c[1]],
        [a[2], b[2], c[2]],
        [a[3], b[3], c[3]],
    ]
}

// The UV set of one layer of the block.
fn layer_set(uvs: [[[f32; 2]; 3]; 4], layer: usize) -> [[f32; 2]; 4]
    requires { layer < 3 }
    ensures { result ≡ set_of uvs layer }
{
    [uvs[0][layer], uvs[1][layer], uvs[2][layer], uvs[3][layer]]
}

// SRT number i, which is given.
fn srt_at(srts: &[f32], i: usize) -> Srt
    requires { (i < 3) × (i * srt_numbers + srt_numbers ≤ length srts.now) }
    ensures { result ≡ srt_at srts.now i }
{
    let at = i * SRT;
    let translate = Vector2 {
        x: srts[at],
        y: srts[at + 1],
    };
    let scale = Vector2 {
        x: srts[at + 3],
        y: srts[at + 4],
    };
    Srt {
        translate,
        rotate: srts[at + 2],
        scale,
    }
}

// A layer's UV set, transformed where the layer has an SRT. The sine and cosine are made once.
// Stays four pairs written out: of `set.map(..)` the proof did not close.
fn transform_set(srts: &[f32], layer: usize, set: [[f32; 2]; 4]) -> [[f32; 2]; 4]
    requires { layer < 3 }
    ensures { result ≡ set_transformed srts.now layer set }
{
    if layer * SRT + SRT <= srts.len() {
        let srt = srt_at(srts, layer);
        let turn = srt_turn(srt);
        let a = transform_uv_srt(srt, turn, set[0]);
        let b = transform_uv_srt(srt, turn, set[1]);
        let c = transform_uv_srt(srt, turn, set[2]);
        let d = transform_uv_srt(srt, turn, set[3]);
        return [a, b, c, d];
    }
    set
}

// The block with this UV set as one of its layers.
fn with_set(uvs: [[[f32; 2]; 3]; 4], layer: usize, set: [[f32; 2]; 4]) -> [[[f32; 2]; 3]; 4]
    requires { layer < 3 }
    ensures { result ≡ with_set uvs layer set }
{
    let mut a = uvs[0];
    a[layer] = set[0];
    let mut b = uvs[1];
    b[layer] = set[1];
    let mut c = uvs[2];
    c[layer] = set[2];
    let mut d = uvs[3];
    d[layer] = set[3];
    [a, b, c, d]
}

// Layer by layer; a fourth and later SRT are not looked at. The layers are written out, not counted, so that the compiler keeps the block in
// registers: stored at a counted layer, it would be read back by wider loads, which wait for the stores.
pub fn apply_srt_to_uvs(base: [[[f32; 2]; 3]; 4], srts: &[f32]) -> [[[f32; 2]; 3]; 4]
    ensures { result ≡ applied base srts.now }
{
    let a = transform_set(srts, 0, layer_set(base, 0));
    let first = with_set(base, 0, a);
    let b = transform_set(srts, 1, layer_set(first, 1));
    let second = with_set(first, 1, b);
    let c = transform_set(srts, 2, layer_set(second, 2));
    with_set(second, 2, c)
}

// The block's numbers in order, by pairs: so few turns are unrolled, and need no block in memory.
// Stays by index: of `out.chunks_exact_mut(2)` the proof did not close.
pub fn store(uvs: [[[f32; 2]; 3]; 4], out: &mut [f32])
    requires { length out.old ≡ block_numbers }
    ensures { out.new ≡ numbers uvs }
{
    for i in 0..PAIRS {
        let pair = uvs[i / 3][i % 3];
        out[i * 2] = pair[0];
        out[i * 2 + 1] = pair[1];
    }
}
