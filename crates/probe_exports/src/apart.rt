// Whether a track reads differently with other keys.
// Stays with slices and numbers apart, and one export a name: so C calls them.

// 2 where track t reads differently at frame x, 1 where it doesn't.
#[unsafe(no_mangle)]
pub extern "C" fn probe_apart(
    s: &[u8],
    b: &[u8],
    frames: &[f32],
    values: &[f32],
    slopes: &[f32],
    new_frames: &[f32],
    new_values: &[f32],
    new_slopes: &[f32],
    t: usize,
    x: f32,
) -> u8 {
    probe::apart::probe_apart(
        s, b, frames, values, slopes, new_frames, new_values, new_slopes, t, x,
    )
}
