// Sheets that differ in more than keys: the first part of the new one that is not as in the old one.
ghost use Rattle.std.specs.Prelude.{◌≤◌, length};

use cli_page::{Out, Status};
use sheet::{ANIMATION_BYTES, Sheet};

// Where two sheets differ: the first byte that does, or the end of the shorter.
fn difference_at(s: &[u8], t: &[u8]) -> usize
    ensures in_one { result ≤ length s.now }
    ensures in_other { result ≤ length t.now }
{
    let shorter = s.len().min(t.len());
    s.iter().zip(t).position(|(a, b)| a != b).unwrap_or(shorter)
}

// A size, by its byte in the head.
fn size_field(at: usize) -> &'static str {
    match at / 2 {
        0 => "animations",
        1 => "contents",
        2 => "targets",
        3 => "keys",
        _ => "textures",
    }
}

// A field of an animation, of a content and of a target, by its byte in the row. Stays a function for each: each row has fields of its own.
fn animation_field(at: usize) -> &'static str {
    match at {
        0 | 1 => "frame count",
        2 => "looping",
        3 => "next present",
        _ => "next name",
    }
}

fn content_field(at: usize) -> &'static str {
    match at {
        0 => "animation",
        1 => "type",
        _ => "name",
    }
}

fn target_field(at: usize) -> &'static str {
    match at {
        0 | 1 => "content",
        2 => "layer",
        3 => "raw",
        4..=7 => "code",
        8 => "curve",
        10 | 11 => "first key",
        _ => "key count",
    }
}

// A row of a part of the sheet, and the field.
fn say_row(out: &mut Out, part: &str, row: usize, field: &str) {
    out.word(": ", "part", part);
    out.count(" ", "row", row as u64);
    out.word(", ", "field", field);
}

// The part of the sheet that has a byte, and the field.
fn say_part(out: &mut Out, sheet: Sheet<'_>, i: usize) {
    let contents = sheet::contents_at(sheet.bytes);
    let targets = sheet::targets_at(sheet.bytes);
    let textures = sheet::textures_at(sheet.bytes);
    if i < sheet::HEAD {
        out.word(": ", "part", "sizes");
        out.word(", ", "field", size_field(i));
    } else if i < contents {
        let at = i - sheet::HEAD;
        let n = ANIMATION_BYTES;
        say_row(out, "animation", at / n, animation_field(at % n));
    } else if i < targets {
        let at = i - contents;
        let n = sheet::CONTENT_BYTES;
        say_row(out, "content", at / n, content_field(at % n));
    } else if i < textures {
        let at = i - targets;
        let n = sheet::TARGET_BYTES;
        say_row(out, "target", at / n, target_field(at % n));
    } else {
        let at = i - textures;
        say_row(out, "texture", at / field::NAME_BYTES, "name");
    }
}

// One line, by which the command comes to declined.
pub fn say_other(out: &mut Out, old: &[u8], new: &[u8], sheet: Sheet<'_>, edited: &[u8]) {
    let i = difference_at(sheet.bytes, edited);
    out.came_to(Status::Declined);
    out.begin();
    out.bytes("", "file", new);
    out.word(": ", "answer", "differs");
    out.bytes(" from ", "from", old);
    out.lead(" in more than keys");
    say_part(out, sheet, i);
    out.count(", byte ", "offset", i as u64);
    out.end();
}
