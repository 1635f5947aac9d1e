// Whether bytes are a sheet, or a book, whether keys follow the key rules, and loading.
// Stays with slices and numbers apart, and one export a name: so C calls them.
#[unsafe(no_mangle)]
pub extern "C" fn probe_sheet_ok(s: &[u8]) -> bool {
    probe::formats::probe_sheet_ok(s)
}

#[unsafe(no_mangle)]
pub extern "C" fn probe_book_ok(b: &[u8]) -> bool {
    probe::formats::probe_book_ok(b)
}

#[unsafe(no_mangle)]
pub extern "C" fn probe_keys_ok(s: &[u8], frames: &[f32], values: &[f32], slopes: &[f32]) -> bool {
    probe::formats::probe_keys_ok(s, frames, values, slopes)
}

#[unsafe(no_mangle)]
pub extern "C" fn probe_load(
    s: &[u8],
    frames: &mut [f32],
    values: &mut [f32],
    slopes: &mut [f32],
) -> u8 {
    probe::formats::probe_load(s, frames, values, slopes)
}
