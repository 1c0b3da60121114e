use crate::groups::Groups;
use information::{AnswerGroup, CommandGroup, ReportGroup};
use units::RequestType;

/// A report or an answer: its number, its type and its groups.
#[derive(Clone, Copy)]
pub struct Numbered<V> {
    pub number: u64,
    pub request_type: RequestType,
    pub groups: Groups<V>,
}

/// What the meter reports.
pub type Report = Numbered<ReportGroup>;

/// What the ledger answers.
pub type Answer = Numbered<AnswerGroup>;

/// What the policy server orders, unasked.
#[derive(Clone, Copy)]
pub struct Command {
    pub groups: Groups<CommandGroup>,
}

/// The kinds of message.
#[derive(Clone, Copy, Debug, PartialEq, Eq)]
pub enum Kind {
    Report,
    Answer,
    Command,
}

/// What is known of a report or an answer so far.
#[derive(Clone, Copy)]
pub struct NumberedSoFar<V> {
    pub(crate) number: Option<u64>,
    pub(crate) request_type: Option<RequestType>,
    pub(crate) groups: Groups<V>,
}
