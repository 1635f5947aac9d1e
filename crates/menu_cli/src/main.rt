// The command line: what its arguments ask is answered on standard output; `menu_cli help` says what there is.
#![tactic(auto)]

use std::process::ExitCode;

fn main(rt: HostRuntime) -> ExitCode {
    ExitCode::from(cli_console::start(rt) as u8)
}
