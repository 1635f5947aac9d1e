// The whole program: its arguments, its output, and what it came to.
use cli_page::{Out, Status};
use std::io::{IsTerminal, Print};

// C's EBADF: there is no open file of that number.
const NO_FILE: i32 = 9;

// Whether standard output is open: a write of nothing fails where it is not.
fn is_open<P: Print>(to: &P) -> bool {
    match to.write_some(b"") {
        Ok(_) => true,
        Err(e) => e.raw_os_error() != Some(NO_FILE),
    }
}

// What is said where nothing can be answered: it goes straight to standard error.
fn complain(rt: HostRuntime, what: &str) -> Status {
    let _ = rt.stderr().print(format_args!("error: {what}\n"));
    Status::Wrong
}

// Progress is for someone who looks on, and not in the midst of the output.
fn shows_progress(rt: HostRuntime, line: &[u8]) -> bool {
    !cli_command::has_option(line, "--quiet")
        & rt.stderr().is_terminal()
        & !rt.stdout().is_terminal()
}

// Output that was lost is no success.
fn run_line(rt: HostRuntime, line: &[u8]) -> Status {
    let mut out = Out::new(rt);
    out.aside = true;
    out.told = shows_progress(rt, line);
    crate::run(&mut rt.stdin(), &mut out, line);
    out.flush();
    if out.lost {
        return complain(rt, "standard output: cannot be written whole");
    }
    out.status
}

// The command that the arguments are, and what it came to: the program's exit status. With no standard output nothing is done, since the first file that is
// opened would stand in its place.
pub fn start(rt: HostRuntime) -> Status {
    if !is_open(&rt.stdout()) {
        return complain(rt, "standard output: is closed");
    }
    // Stays an array of the longest command line: nothing allocates.
    let mut line = [0u8; 65536];
    match cli_command::join(rt, &mut line, 1) {
        Some(n) => run_line(rt, &line[..n]),
        None => complain(rt, "the arguments are longer than 65,535 bytes together"),
    }
}
