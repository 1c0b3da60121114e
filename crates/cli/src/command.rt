ghost use Rattle.std.specs.Prelude.{◌≡◌, IfOk};
ghost use Rattle.std.specs.Process.{exit_status};
ghost use Rattle.cli.specs.Words.{command_of, status_of};

use crate::check::check;
use crate::usage::USAGE;
use std::io;
use std::process::ExitCode;

/// What the program is asked to do.
#[derive(Clone, Copy)]
pub enum Command {
    /// Judge the messages on standard input.
    Check,
    /// Print how the program is used.
    Help,
    /// The words name no command.
    Unknown,
}

impl Command {
    /// The command of the first word after the program's name.
    pub fn of(word: &str) -> Command
        ensures { result ≡ command_of word.now }
    {
        match word {
            "check" => Command::Check,
            "help" | "--help" | "-h" => Command::Help,
            _ => Command::Unknown,
        }
    }

    /// Runs the command on the standard streams, and answers the status of the process.
    pub fn run(self, rt: &HostRuntime) -> io::Result<ExitCode>
        ensures { IfOk result (λ code. exit_status code ≡ status_of self) }
    {
        match self {
            Command::Check => check(rt)?,
            Command::Help => rt.print(USAGE)?,
            Command::Unknown => return unknown(rt),
        }
        Ok(ExitCode::SUCCESS)
    }
}

fn unknown(rt: &HostRuntime) -> io::Result<ExitCode>
    ensures { IfOk result (λ code. exit_status code ≡ 1) }
{
    rt.eprintln("gx: there is no such command")?;
    rt.print(USAGE)?;
    Ok(ExitCode::FAILURE)
}
