//! `gx write` on one text, with a comment, a blank line, a carriage return and spaces in every place where they may be.
//! What it prints is compared with the file `stdout` beside `src`.

#![tactic(auto)]

use cli::TextCommand;
use std::io;
use std::process::ExitCode;

// A text that is wrong is an error of this program too, and told as one behind the fault.
fn main(rt: HostRuntime) -> io::Result<ExitCode> {
    let code = TextCommand::Write.run(&rt)?;
    if code == ExitCode::SUCCESS {
        Ok(code)
    } else {
        Err(io::Error::from(io::ErrorKind::InvalidInput))
    }
}
