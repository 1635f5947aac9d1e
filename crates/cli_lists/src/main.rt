// The command line again, run on lists of calls that the published Rust and the plain machine answered: each has a sheet and a book of its own, and begins
// with a freshly loaded player. In oracle/, `cargo run --release -p cases --bin store -- ../crates` makes data/ and stdout again, from the Rust's answers alone.
#![tactic(auto)]

use arrayvec::ArrayString;
use cli_page::Out;
use std::fmt::Write;
use std::fs::File;
use std::io;

// How many lists there are.
const LISTS: usize = 13;

// A list takes the place of standard input, as a shell's `<` has it.
fn list(rt: HostRuntime, i: usize) -> io::Result<()> {
    let mut calls = ArrayString::<64>::new();
    let _ = write!(calls, "list_{i}.calls");
    let mut line = ArrayString::<64>::new();
    let _ = write!(line, "replay\0list_{i}.sheet\0list_{i}.book");
    let mut out = Out::new(rt);
    out.say(calls.as_str());
    out.say(":\n");
    let mut from = File::open(&rt, calls.as_str())?;
    cli_console::run(&mut from, &mut out, line.as_str().as_bytes());
    out.flush();
    Ok(())
}

fn main(rt: HostRuntime) -> io::Result<()> {
    for i in 0..LISTS {
        list(rt, i)?;
    }
    Ok(())
}
