//! The program `gx`. It reads its words and leaves the rest to the commands.

#![tactic(auto)]

use cli::{Command, TextCommand};
use std::process::ExitCode;
use std::{env, io};

// A wrong command or text is told where it is met, and only gives the status. Any other error is told here.
fn main(rt: HostRuntime) -> io::Result<ExitCode> {
    let mut words = env::args(&rt)?;
    let _program = words.next();
    match (words.next(), words.next()) {
        (None, _) => Command::Help.run(&rt),
        (Some(word), None) => match TextCommand::of(word.as_str()) {
            Some(command) => command.run(&rt),
            None => Command::of(word.as_str()).run(&rt),
        },
        (Some(_), Some(_)) => Command::Unknown.run(&rt),
    }
}
