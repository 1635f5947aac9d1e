// What is said where a command line is wrong or a file can't be used. Every such line begins with `error: `, and the command came to 2.
use cli_page::{Out, Status};

// An error begins: what was said before goes out first, since an error may go elsewhere.
pub fn begin_error(out: &mut Out) {
    out.flush();
    out.begin();
    out.lead("error: ");
}

// An error ends.
pub fn end_error(out: &mut Out) {
    out.end();
    out.flush_error();
    out.came_to(Status::Wrong);
}

// What is wrong with a text from outside, which is a `thing`.
fn error_of(out: &mut Out, thing: &str, text: &[u8], what: &str) {
    begin_error(out);
    out.bytes("", thing, text);
    out.word(": ", "error", what);
    end_error(out);
}

// What is wrong with a file.
pub fn file_error(out: &mut Out, path: &[u8], what: &str) {
    error_of(out, "file", path, what);
}

// What is wrong with a word.
pub fn word_error(out: &mut Out, text: &[u8], what: &str) {
    error_of(out, "word", text, what);
}

// An argument that a command needs and that isn't there.
pub fn missing(out: &mut Out, what: &str) {
    word_error(
        out,
        what.as_bytes(),
        "is missing; menu_cli help says what a command takes",
    );
}

// A word that stands after the last that a command takes.
pub fn too_many(out: &mut Out, text: &[u8]) {
    word_error(
        out,
        text,
        "is one word too many; menu_cli help says what a command takes",
    );
}
