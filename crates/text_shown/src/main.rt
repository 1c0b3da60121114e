//! `gx show` on a handful of lines: each kind and each form, keys with odd octets, a refusal and a line that is no
//! message. What it prints is compared with the file `stdout` beside `src`.

#![tactic(auto)]

use cli::TextCommand;
use std::io;
use std::process::ExitCode;

fn main(rt: HostRuntime) -> io::Result<ExitCode> {
    TextCommand::Show.run(&rt)
}
