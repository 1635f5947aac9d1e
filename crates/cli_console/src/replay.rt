// The command `replay`: the calls on standard input, one a line, each made and answered behind its line's number and its words.
use crate::open::open;
use cli_calls::{Call, Unread, call_of};
use cli_command::{file_error, progress, progress_end};
use cli_facts::{Files, Loaded};
use cli_input::{Input, TooLong};
use cli_page::{Out, Status};
use cli_words::{Words, uncommented, word};
use curve::KeysMut;
use player::Player;
use std::io::Read;

// Progress is told each time this many lines are done.
const EVERY: u64 = 1000;

// An error of a line stands among the answers, since the list goes on.
fn begin_wrong(out: &mut Out, number: u64) {
    out.came_to(Status::Wrong);
    out.begin();
    out.count("error: line ", "line", number);
}

// A line that can't be read: its number, the word counted from 1, and what is wrong with it.
fn say_unread(out: &mut Out, line: &[u8], number: u64, unread: Unread) {
    begin_wrong(out, number);
    let place = (unread.word as u64).wrapping_add(1);
    out.count(", word ", "place", place);
    if let Some(text) = word(line, unread.word) {
        out.bytes(", ", "word", text);
    }
    out.word(": ", "error", unread.fault.words());
    out.end();
}

fn say_long(out: &mut Out, number: u64) {
    begin_wrong(out, number);
    out.word(": ", "error", "longer than 255 bytes");
    out.end();
}

// `LINE CALL:`, which each answer stands behind.
fn begin_answer(out: &mut Out, line: &[u8], number: u64) {
    out.begin();
    out.count("", "line", number);
    out.key(" ", "call");
    if out.json {
        out.say("\"");
    }
    for (k, word) in Words::new(line).enumerate() {
        if k > 0 {
            out.say(" ");
        }
        out.say_bare(word);
    }
    out.say(if out.json { "\"" } else { ":" });
}

// A line: its call is made and answered, or what is wrong with it told.
fn answer_line(
    out: &mut Out,
    player: &mut Player,
    files: Files<'_>,
    keys: KeysMut<'_>,
    line: &[u8],
    number: u64,
) {
    let call = match call_of(line, files.book) {
        Ok(Some(call)) => call,
        Ok(None) => return,
        Err(unread) => {
            say_unread(out, line, number, unread);
            return;
        }
    };
    begin_answer(out, line, number);
    let KeysMut {
        frames,
        values,
        slopes,
    } = keys;
    match call {
        Call::Make(action) => {
            cli_answers::answer(out, player, action, files, frames, values, slopes);
        }
        Call::Show(query) => {
            cli_shown::show(out, number, query, player, files, frames, values, slopes);
        }
        Call::Save(path) => {
            cli_saved::save(out, player, files.sheet, frames, values, slopes, path);
        }
    }
}

// The part of a line that is no comment and no byte order mark, which some editors write in front of the first.
fn text_of<'a>(line: &'a [u8], number: u64) -> &'a [u8] {
    let text = match line {
        [239, 187, 191, text @ ..] if number == 1 => text,
        _ => line,
    };
    &text[..uncommented(text)]
}

// Every line of standard input, or of what stands in its place. What was answered goes out before more is waited for.
fn each_line<R: Read>(from: &mut R, out: &mut Out, files: Files<'_>, loaded: Loaded) {
    let Loaded {
        mut player,
        mut frames,
        mut values,
        mut slopes,
        count,
    } = loaded;
    let mut input = Input::new();
    let mut lines = 0;
    // Stays counted: a loop has to end, and nothing says that an input does.
    for number in 1..u64::MAX {
        if input.may_come() && !input.has_line() {
            out.flush();
        }
        let Some(line) = input.next_line(from) else {
            break;
        };
        match line {
            Ok(line) => {
                let keys = KeysMut {
                    frames: &mut frames[..count],
                    values: &mut values[..count],
                    slopes: &mut slopes[..count],
                };
                answer_line(out, &mut player, files, keys, text_of(line, number), number);
            }
            Err(TooLong) => say_long(out, number),
        }
        lines = number;
        progress(out, lines, None, EVERY, " lines");
    }
    progress_end(out, lines, EVERY);
    if input.is_unread() {
        file_error(out, b"standard input", "cannot be read");
    }
}

// None where what is wrong with the line or a file was told.
pub fn replay<R: Read>(from: &mut R, out: &mut Out, line: &[u8]) -> Option<()> {
    open(out, line, 3, |out, files, loaded| {
        each_line(from, out, files, loaded);
    })
}
