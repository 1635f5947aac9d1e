// The command line again, run on a list of calls: every kind of call made, refused, and written wrongly. What it comes to is not told: mistakes are part of the list.
#![tactic(auto)]

fn main(rt: HostRuntime) {
    let _ = cli_console::start(rt);
}
