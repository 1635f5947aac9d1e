// The commands of the command line. A command line is a text of words, each ended by a zero byte.
#![tactic(auto)]

mod check;
mod edits;
mod frames;
mod info;
mod open;
mod program;
mod replay;

use cli_command::{argument, has_option, word_error};
use cli_page::Out;
pub use program::start;
use std::io::Read;

// One command that has a name. `from` is standard input, or what stands in its place.
fn command<R: Read>(from: &mut R, out: &mut Out, line: &[u8], name: &[u8]) {
    let done = match name {
        b"check" => check::check(out, line),
        b"info" => info::info(out, line),
        b"frames" => frames::frames(out, line),
        b"reach" => edits::reach(out, line),
        b"replay" => replay::replay(from, out, line),
        _ => {
            word_error(out, name, "is no command; menu_cli help lists them");
            None
        }
    };
    // what is wrong was told where it was found
    let _ = done;
}

fn help(out: &mut Out, line: &[u8]) {
    match argument(line, 1) {
        Some(b"refusals") => cli_printed::say_refusals(out),
        _ => cli_command::usage(out),
    }
}

// What is asked for before any command: help, the version.
fn asked<R: Read>(from: &mut R, out: &mut Out, line: &[u8]) {
    let name = argument(line, 0);
    if name == Some(b"help") || has_option(line, "--help") || has_option(line, "-h") {
        help(out, line);
    } else if name == Some(b"version") || has_option(line, "--version") {
        cli_command::say_version(out);
    } else if let Some(name) = name {
        command(from, out, line, name);
    } else {
        cli_command::missing(out, "the command");
    }
}

// One command line. What it came to is the output's status. The calls of `replay` are read from `from`.
pub fn run<R: Read>(from: &mut R, out: &mut Out, line: &[u8]) {
    out.json = has_option(line, "--json");
    if cli_command::has_empty(line) {
        word_error(out, b"\"\"", "is an empty word");
    } else if let Some(unknown) = cli_command::unknown_option(line) {
        word_error(out, unknown, "is no option; menu_cli help lists them");
    } else {
        asked(from, out, line);
    }
}
