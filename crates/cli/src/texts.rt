ghost use Rattle.std.specs.Prelude.{◌≡◌, IfOk};
ghost use Rattle.std.specs.Process.{exit_status};
ghost use Rattle.cli.specs.Words.{Status, text_command_of};

use crate::show::show;
use crate::write::write;
use std::io;
use std::process::ExitCode;

/// What the program is asked to do with texts of messages.
#[derive(Clone, Copy)]
pub enum TextCommand {
    /// Print the messages on standard input as text.
    Show,
    /// Print the octets of the text on standard input.
    Write,
}

impl TextCommand {
    /// The command of the first word after the program's name, if it is about texts.
    pub fn of(word: &str) -> Option<TextCommand>
        ensures { result ≡ text_command_of word.now }
    {
        match word {
            "show" => Some(TextCommand::Show),
            "write" => Some(TextCommand::Write),
            _ => None,
        }
    }

    /// Runs the command on the standard streams, and answers the status of the process.
    pub fn run(self, rt: &HostRuntime) -> io::Result<ExitCode>
        ensures { IfOk result (λ code. Status self (exit_status code)) }
    {
        match self {
            TextCommand::Show => {
                show(rt)?;
                Ok(ExitCode::SUCCESS)
            }
            TextCommand::Write => write(rt),
        }
    }
}
