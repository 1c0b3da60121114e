//! Refusals of a call, which are not about the octets of a message.
use fault::Code;

/// What a call's refusal says.
pub(crate) fn call_sentence(code: Code) -> &'static str {
    match code {
        Code::Terminated => "the session has ended",
        Code::NotUnanswered => "no unanswered report has this number",
        Code::NumberBelow => "the report's number is below the last one",
        Code::NumberAbove => "the report's number is two or more above the last one",
        Code::OldDebt => "the debt is not that of the last report",
        Code::Rule => "the rule is installed already, or is not installed",
        Code::Full => "there is no place for another rule or key",
        Code::UnknownKey => "the key is not known, or not in the answered report",
        Code::Closing => "the key is being closed",
        Code::Unanswered => "the key stands in a report that is not answered yet",
        Code::Differs => "the level or the form differs from what the key has",
        Code::SessionKey => "another key counts for the whole session",
        Code::Ceiling => "the counter's ceiling would be passed",
        Code::NothingDue => "there is nothing to report",
        Code::NumbersUsed => "the last report number is used",
        Code::Short => "the buffer is too short",
        _ => "an argument is out of range",
    }
}
