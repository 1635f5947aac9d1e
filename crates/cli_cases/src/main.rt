// First mistakes, files of every kind, why they are declined, what is in them, sheets that are saved, drags, names and JSON, and what edits reach, on the
// command line: each case with a heading, what it is answered, and what it came to. Errors stand in line here, since only standard output is compared.
#![tactic(auto)]

use cli_page::Out;
use cli_words::Pieces;
use std::fs::File;
use std::io;
use std::io::Read;

// The output of a case, which begins with its words.
fn begin(rt: HostRuntime, line: &str) -> Out {
    let mut out = Out::new(rt);
    out.say("== menu_cli");
    for word in Pieces::new(line.as_bytes()) {
        out.say(" ");
        out.say_bytes(word);
    }
    out
}

fn run<R: Read>(from: &mut R, mut out: Out, line: &str) {
    out.say("\n");
    cli_console::run(from, &mut out, line.as_bytes());
    let status = out.status as u64;
    out.json = false;
    out.count("status ", "status", status);
    out.end();
    out.flush();
}

fn case(rt: HostRuntime, line: &str) {
    run(&mut io::empty(), begin(rt, line), line);
}

fn cases(rt: HostRuntime, lines: &[&str]) {
    for line in lines {
        case(rt, line);
    }
}

// A case with a list of calls in the place of standard input, as a shell's `<` has it.
fn list(rt: HostRuntime, line: &str, calls: &str) -> io::Result<()> {
    let mut out = begin(rt, line);
    out.say(" < ");
    out.say(calls);
    let mut from = File::open(&rt, calls)?;
    run(&mut from, out, line);
    Ok(())
}

fn usage_cases(rt: HostRuntime) {
    let lines = [
        "",
        "help",
        "help\0refusals",
        "check\0--help\0--json",
        "--version",
        "version\0--json",
        "jump\0title.sheet",
        "check\0--loud\0title.sheet",
        "--quiet",
        "check\0\0title.book\0",
    ];
    cases(rt, &lines);
}

fn check_cases(rt: HostRuntime) {
    let lines = [
        "check",
        "check\0title.sheet",
        "check\0title.sheet\0title.book",
        "check\0title.book\0title.sheet\0close.sheet\0title.book",
        "check\0missing.sheet\0title.book",
        "check\0empty\0long\0.",
        "check\0cut.sheet\0damaged.sheet\0damaged.book",
        "check\0falling.sheet",
        "check\0--json\0falling.sheet\0damaged.book\0title.sheet\0missing.book\0title.book",
    ];
    cases(rt, &lines);
}

fn info_cases(rt: HostRuntime) {
    let lines = [
        "info",
        "info\0title.sheet\0title.book",
        "info\0title.sheet\0--json",
        "info\0falling.sheet",
        "info\0title.sheet\0damaged.book",
        "info\0title.sheet\0title.book\0more",
    ];
    cases(rt, &lines);
}

fn file_cases(rt: HostRuntime) {
    let lines = [
        "frames",
        "frames\0title.sheet",
        "frames\0title.book\0title.sheet\00",
        "frames\0title.sheet\0title.sheet\00",
        "frames\0title.sheet\0missing.book\00",
        "frames\0falling.sheet\0title.book\00",
        "frames\0title.sheet\0damaged.book\00",
    ];
    cases(rt, &lines);
}

fn number_cases(rt: HostRuntime) {
    let lines = [
        "frames\0title.sheet\0title.book",
        "frames\0title.sheet\0title.book\03",
        "frames\0title.sheet\0title.book\0x",
        "frames\0title.sheet\0title.book\0-1",
        "frames\0title.sheet\0title.book\00\05\03",
        "frames\0title.sheet\0title.book\00\05",
        "frames\0title.sheet\0title.book\00\0x\03",
        "frames\0title.sheet\0title.book\00\016777216\016777217",
        "frames\0title.sheet\0title.book\00\00\01\02",
    ];
    cases(rt, &lines);
}

fn frame_cases(rt: HostRuntime) {
    let lines = [
        "frames\0title.sheet\0title.book\02\04\04",
        "--quiet\0frames\0title.sheet\0--quiet\0title.book\01\040\040",
        "frames\0title.sheet\0title.book\01\040\040\0--json",
        "frames\0title.sheet\0title.book\01\070000\070000",
        "replay\0title.book\0title.sheet",
        "replay\0title.sheet\0title.book\00",
    ];
    cases(rt, &lines);
}

// An edited sheet is saved, checked, and loaded again. A program is run in a folder of its own, so that the file stays in no other.
fn save_cases(rt: HostRuntime) -> io::Result<()> {
    list(rt, "replay\0title.sheet\0title.book", "edit.calls")?;
    case(rt, "check\0edited.sheet");
    list(rt, "replay\0edited.sheet\0title.book", "again.calls")
}

// A key is dragged and the sheet saved meanwhile; loaded again, the key is dragged back and dropped. In the last sheet a key has no room.
fn drag_cases(rt: HostRuntime) -> io::Result<()> {
    list(rt, "replay\0title.sheet\0title.book", "drag.calls")?;
    case(rt, "check\0dragged.sheet");
    list(rt, "replay\0dragged.sheet\0title.book", "drop.calls")?;
    list(rt, "replay\0close.sheet\0title.book", "close.calls")
}

// Names in the place of numbers, quotes, comments, control bytes, and what a call declines.
fn name_cases(rt: HostRuntime) -> io::Result<()> {
    list(rt, "replay\0title.sheet\0title.book", "names.calls")?;
    list(rt, "replay\0title.sheet\0title.book\0--json", "names.calls")
}

// What edits reach: none; one channel; a parent's alpha, with its children; tracks that address nothing or that a later one overrides; a name that differs;
// files that are no two sheets and a book.
fn reach_cases(rt: HostRuntime) {
    let lines = [
        "reach\0title.sheet\0title.sheet\0title.book",
        "reach\0title.sheet\0one.sheet\0title.book",
        "reach\0title.sheet\0alpha.sheet\0title.book",
        "reach\0title.sheet\0alpha.sheet\0title.book\0--json",
        "reach\0title.sheet\0nothing.sheet\0title.book",
        "reach\0title.sheet\0named.sheet\0title.book",
        "reach\0title.sheet\0box.sheet\0title.book",
        "reach\0title.sheet\0falling.sheet\0title.book",
        "reach\0title.sheet\0title.sheet\0damaged.book",
        "reach\0title.sheet\0missing.sheet\0title.book",
        "reach\0title.sheet\0one.sheet",
        "reach\0title.sheet\0one.sheet\0title.book\0more",
    ];
    cases(rt, &lines);
}

// Readings of every kind, in text and as objects; and a curve that is no number between its keys.
fn reading_cases(rt: HostRuntime) -> io::Result<()> {
    list(rt, "replay\0title.sheet\0title.book", "many.calls")?;
    let lines = [
        "reach\0title.sheet\0many.sheet\0title.book",
        "reach\0many.sheet\0title.sheet\0title.book\0--json",
    ];
    cases(rt, &lines);
    list(rt, "replay\0title.sheet\0title.book", "huge.calls")?;
    case(rt, "reach\0title.sheet\0huge.sheet\0title.book");
    Ok(())
}

fn main(rt: HostRuntime) -> io::Result<()> {
    usage_cases(rt);
    check_cases(rt);
    info_cases(rt);
    file_cases(rt);
    number_cases(rt);
    frame_cases(rt);
    save_cases(rt)?;
    drag_cases(rt)?;
    name_cases(rt)?;
    reach_cases(rt);
    reading_cases(rt)?;
    Ok(())
}
