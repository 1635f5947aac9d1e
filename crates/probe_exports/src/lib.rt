// The exports for C and Rust: each hands its arguments on to `probe` and gives the answer on. A slice goes as a pointer and a length.
// Stays with the slices apart: so C lends them.
#![tactic(auto)]

mod apart;
mod formats;
mod readings;

#[unsafe(no_mangle)]
pub extern "C" fn probe_eval_curve(
    kind: u8,
    frames: &[f32],
    values: &[f32],
    slopes: &[f32],
    frame: f32,
) -> f32 {
    probe::probe_eval_curve(kind, frames, values, slopes, frame)
}

#[unsafe(no_mangle)]
pub extern "C" fn probe_eval_curve_step_u16(
    kind: u8,
    frames: &[f32],
    values: &[f32],
    slopes: &[f32],
    frame: f32,
) -> u32 {
    probe::probe_eval_curve_step_u16(kind, frames, values, slopes, frame)
}
