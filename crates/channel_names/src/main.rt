// Tries all 256 raw numbers of FLVC through the outward calls, and names the channel that each reaches; then names every channel by its number. What it
// must write is made from targets.rs's own names: in oracle/, `cargo run --release -p cases --bin store -- ../crates` makes data/ and stdout again.
#![tactic(auto)]

mod reached;

use cli_page::Out;
use cli_printed::{MATERIAL_CHANNELS, Owner, PANE_CHANNELS, name_channel};
use reached::Tried;
use std::fs::File;
use std::io;
use std::io::Read;

// A file that is as long as buf.
fn read(rt: HostRuntime, path: &str, buf: &mut [u8]) -> io::Result<()> {
    let mut file = File::open(&rt, path)?;
    file.read_exact(buf)
}

// The raw numbers, one a line.
fn raw_numbers(out: &mut Out) -> io::Result<()> {
    let mut tried = Tried::new();
    read(out.rt, "one.sheet", &mut tried.sheet)?;
    read(out.rt, "one.book", &mut tried.book)?;
    for raw in 0..=u8::MAX {
        out.count("FLVC ", "raw", raw as u64);
        match tried.reached(raw) {
            Some(c) => name_channel(out, Owner::Pane, c),
            None => out.say(" no channel, or not the same for every content and curve"),
        }
        out.end();
    }
    Ok(())
}

// A row's channels by number and name, one a line.
fn names(out: &mut Out, row: &str, owner: Owner, channels: usize) {
    for c in 0..channels {
        out.count(row, "channel", c as u64);
        name_channel(out, owner, c);
        out.end();
    }
}

fn main(rt: HostRuntime) -> io::Result<()> {
    let mut out = Out::new(rt);
    raw_numbers(&mut out)?;
    names(&mut out, "pane ", Owner::Pane, PANE_CHANNELS);
    names(&mut out, "material ", Owner::Material, MATERIAL_CHANNELS);
    out.flush();
    Ok(())
}
