// Whether bytes are a sheet, or a book, whether keys follow the key rules, and loading. Stays with slices and a number: so C lends and reads them.
use laws::refusal::ACCEPTED;

pub fn probe_sheet_ok(s: &[u8]) -> bool {
    sheet::sheet_ok(s)
}

pub fn probe_book_ok(b: &[u8]) -> bool {
    book::book_ok(b)
}

pub fn probe_keys_ok(s: &[u8], frames: &[f32], values: &[f32], slopes: &[f32]) -> bool {
    keys::keys_ok(s, frames, values, slopes)
}

pub fn probe_load(s: &[u8], frames: &mut [f32], values: &mut [f32], slopes: &mut [f32]) -> u8 {
    match keys::load_keys(s, frames, values, slopes) {
        Ok(()) => ACCEPTED,
        Err(e) => e.number(),
    }
}
