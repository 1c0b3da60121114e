use message::{Answer, Command, Report};

/// A message of any kind.
#[derive(Clone, Copy)]
pub enum Message {
    Report(Report),
    Answer(Answer),
    Command(Command),
}

/// A text that is read line by line, and the message so far.
#[derive(Clone, Copy)]
pub struct Reading {
    pub(crate) message: Option<Message>,
}
