//! Refusals. A fault says what is wrong (a code), of what kind of thing (a layer), and where (the place of an octet).
//! It knows nothing of messages, meters or ledgers.

#![tactic(auto)]

mod layer_text;

ghost use Rattle.std.specs.Prelude.{◌≡◌};
ghost use Rattle.fault.specs.Numbers.{call_fault, layer_of, message_fault, number_of};

/// Why a call was refused. Two codes have more than one case each, so that a reader can be told which it was.
#[derive(Clone, Copy, Debug, PartialEq, Eq)]
pub enum Code {
    /// 1: the header, length or padding overruns, or the length is below the header.
    Overrun,
    /// 2: an AVP that is not known has the flag that forbids skipping it.
    UnknownAvp,
    /// 3: a member is missing at the end of its group or message.
    Absent,
    /// 3: a member stands there already.
    Repeated,
    /// 3: a member does not belong into this group or message.
    Foreign,
    /// 4: the data has another width, or a key another length.
    Width,
    /// 5: a value or an argument is out of range.
    Range,
    /// 6: a group or row has the key of an earlier one.
    RepeatedKey,
    /// 6: a seventeenth group or row.
    TooMany,
    /// 7: terminate came, or the session ended.
    Terminated,
    /// 8: no unanswered report has the answer's number.
    NotUnanswered,
    /// 9: the report's number is below the last.
    NumberBelow,
    /// 10: the report's number is two or more above the last.
    NumberAbove,
    /// 11: the debt's number is not the last.
    OldDebt,
    /// 12: the rule is installed already, or is not installed.
    Rule,
    /// 13: a 65th rule or a 17th key is wanted.
    Full,
    /// 14: the key is not known, or not in the answered report.
    UnknownKey,
    /// 15: a command names a closing key.
    Closing,
    /// 16: a command grants a key that stands in the unanswered report.
    Unanswered,
    /// 17: level or form differs from the place's.
    Differs,
    /// 18: another session-level key counts.
    SessionKey,
    /// 19: the bank's ceiling would be passed.
    Ceiling,
    /// 20: there is nothing to report.
    NothingDue,
    /// 21: the last report number is used.
    NumbersUsed,
    /// 22: the buffer is too short.
    Short,
}

/// What a fault is about: one AVP, a group or message as a whole, or the call.
#[derive(Clone, Copy, Debug, PartialEq, Eq)]
pub enum Layer {
    Avp,
    Group,
    Call,
}

/// A refusal: nothing was changed, and this is why.
#[derive(Clone, Copy, Debug, PartialEq, Eq)]
pub struct Fault {
    pub code: Code,
    pub layer: Layer,
    /// The octet where the AVP or group at fault starts, or the end of what lacks a member; else 0.
    pub place: usize,
}

impl Code {
    /// The code's number, 1 to 22.
    pub fn number(self) -> u32
        ensures { result ≡ number_of self }
    {
        match self {
            Code::Overrun => 1,
            Code::UnknownAvp => 2,
            Code::Absent | Code::Repeated | Code::Foreign => 3,
            Code::Width => 4,
            Code::Range => 5,
            Code::RepeatedKey | Code::TooMany => 6,
            Code::Terminated => 7,
            Code::NotUnanswered => 8,
            Code::NumberBelow => 9,
            Code::NumberAbove => 10,
            Code::OldDebt => 11,
            Code::Rule => 12,
            Code::Full => 13,
            Code::UnknownKey => 14,
            Code::Closing => 15,
            Code::Unanswered => 16,
            Code::Differs => 17,
            Code::SessionKey => 18,
            Code::Ceiling => 19,
            Code::NothingDue => 20,
            Code::NumbersUsed => 21,
            Code::Short => 22,
        }
    }

    /// The layer of a fault that the octets of a message have.
    pub fn layer(self) -> Layer
        ensures { result ≡ layer_of self }
    {
        match self {
            Code::Overrun | Code::UnknownAvp | Code::Width | Code::Range => Layer::Avp,
            Code::Absent | Code::Repeated | Code::Foreign | Code::RepeatedKey | Code::TooMany => {
                Layer::Group
            }
            _ => Layer::Call,
        }
    }
}

impl Fault {
    /// A fault of the octets of a message.
    pub fn message(code: Code, place: usize) -> Fault
        ensures { result ≡ message_fault code place }
    {
        Fault {
            code,
            layer: code.layer(),
            place,
        }
    }

    /// A fault of a call: of an argument, of the state that it finds, or of one group (which starts at `place`) in that state.
    pub fn call(code: Code, place: usize) -> Fault
        ensures { result ≡ call_fault code place }
    {
        Fault {
            code,
            layer: Layer::Call,
            place,
        }
    }
}
