// Replays the samples of the Rust's answers that its arguments name, and prints a line for each: how many cases, and in how many this code answers otherwise.
// In oracle/, `cargo run --release -p cases --bin store -- ../crates` makes all of data/ again, from seeds that stand there:
// a family's files have the Rust's answers; ten are changed in each that is called wrong, and the last files are no whole samples.
// A sample is a family's number, three zero bytes, how many cases follow (u32), and the family's records.
#![tactic(auto)]

mod corners;
mod curves;
mod family;
mod formats;
mod sample;
mod uvs;

ghost use Rattle.std.specs.Prelude.{◌≤◌, length};

use family::Family;
use sample::{Rest, Tally};
use std::env::FillError;
use std::fs::File;
use std::io;
use std::io::Read;
use std::rt::Env;

// The longest sample: what is longer is told so. Stays an array: a Vec would only add a failure.
const LONGEST: usize = 65536;

// The cases of a sample, where its head and every record are whole, and it has as many cases as the head says.
fn replayed(bytes: &[u8]) -> Option<(Family, Tally)> {
    let mut rest = Rest { bytes };
    let head = rest.next::<4>()?;
    let cases = rest.bits()?;
    let family = Family::from(head[0]);
    let mut tally = Tally::default();
    // Stays a while: each record says itself how long it is.
    while !rest.bytes.is_empty() {
        family.record(&mut rest, &mut tally)?;
    }
    if (head[1..] == [0, 0, 0]) & (tally.cases == cases) {
        return Some((family, tally));
    }
    None
}

// A file by a name, which is UTF-8 here.
fn opened(rt: HostRuntime, path: &[u8]) -> Option<File> {
    let name = std::str::from_utf8(path).ok()?;
    File::open(&rt, name).ok()
}

// What is read, to the end of the file or of buf; a read that fails ends it too. Stays by hand: `read_to_end` allocates.
fn read_full(file: &mut File, buf: &mut [u8]) -> usize
    ensures { result ≤ length buf.new }
{
    let mut done = 0;
    while done < buf.len() {
        match file.read(&mut buf[done..]) {
            Ok(0) | Err(_) => return done,
            Ok(got) => done += got,
        }
    }
    done
}

// The sample in a file; what cannot be read whole is told.
fn say_sample(rt: HostRuntime, path: &[u8]) -> io::Result<()> {
    let Some(mut file) = opened(rt, path) else {
        return print!(rt; "cannot be opened\n");
    };
    let mut bytes = [0u8; LONGEST + 1];
    let n = read_full(&mut file, &mut bytes);
    if n > LONGEST {
        return print!(rt; "too long\n");
    }
    match replayed(&bytes[..n]) {
        Some((family, tally)) => print!(rt; "{family} {tally}\n"),
        None => print!(rt; "no whole sample\n"),
    }
}

// A file's line. Its name goes out before the file is opened, and each part is tried, whatever became of the one before.
fn replay_file(rt: HostRuntime, path: &[u8]) {
    let _ = rt.stdout().write_all(path);
    let _ = print!(rt; ": ");
    let _ = say_sample(rt, path);
}

// A line for each argument. Stays an array, as long as the longest path: the runtime fills what it is lent.
fn main(rt: HostRuntime) {
    let mut name = [0u8; 4096];
    // Stays counted: a loop has to end, and nothing says that the arguments do.
    for i in 1..usize::MAX {
        let path = match rt.arg(i, &mut name) {
            Ok(n) => &name[..n],
            Err(FillError::TooLong) => &name[..0],
            Err(FillError::NotPresent) => return,
        };
        replay_file(rt, path);
    }
}
