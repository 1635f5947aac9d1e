// A whole reading, without a player.
// Stays with slices and numbers apart, and one export a name: so C calls them.

// The checks and the plan once and then `times` rows, as for a table of frames.
#[unsafe(no_mangle)]
pub extern "C" fn probe_read_frames(
    s: &[u8],
    b: &[u8],
    frames: &[f32],
    values: &[f32],
    slopes: &[f32],
    animation: usize,
    frame: f32,
    step: f32,
    times: usize,
    marks: &mut [u8],
    numbers: &mut [f32],
) -> bool {
    probe::readings::probe_read_frames(
        s, b, frames, values, slopes, animation, frame, step, times, marks, numbers,
    )
}

// The checks once and then `times` whole readings, each with a plan of its own.
#[unsafe(no_mangle)]
pub extern "C" fn probe_read_times(
    s: &[u8],
    b: &[u8],
    frames: &[f32],
    values: &[f32],
    slopes: &[f32],
    animation: usize,
    frame: f32,
    step: f32,
    times: usize,
    marks: &mut [u8],
    numbers: &mut [f32],
) -> bool {
    probe::readings::probe_read_times(
        s, b, frames, values, slopes, animation, frame, step, times, marks, numbers,
    )
}

// Whether it could be read.
#[unsafe(no_mangle)]
pub extern "C" fn probe_read_all(
    s: &[u8],
    b: &[u8],
    frames: &[f32],
    values: &[f32],
    slopes: &[f32],
    selected: bool,
    animation: usize,
    frame: f32,
    marks: &mut [u8],
    numbers: &mut [f32],
) -> bool {
    probe::readings::probe_read_all(
        s, b, frames, values, slopes, selected, animation, frame, marks, numbers,
    )
}
