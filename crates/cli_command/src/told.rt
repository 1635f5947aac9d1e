// How much is done, on standard error: only where that is a terminal and nobody asked for quiet, which `told` of the output says.
ghost use Rattle.std.specs.Prelude.{◌<◌};

use cli_page::Out;
use std::io::{Print, Result};

fn say_done(out: &Out, done: u64, total: Option<u64>, things: &str) -> Result<()> {
    let to = out.rt.stderr();
    to.print(format_args!("\r{done}"))?;
    if let Some(total) = total {
        to.print(format_args!(" of {total}"))?;
    }
    to.print(things)
}

// `N of TOTAL things`, over what stood there before, each time `every` more are done. The total may not be known.
pub fn progress(out: &Out, done: u64, total: Option<u64>, every: u64, things: &str)
    requires { 0 < every }
{
    if out.told & (done % every == 0) {
        let _ = say_done(out, done, total, things);
    }
}

// The last of it stays, on a line of its own.
pub fn progress_end(out: &Out, done: u64, every: u64) {
    if out.told & (done >= every) {
        let _ = out.rt.stderr().write_all(b"\n");
    }
}
