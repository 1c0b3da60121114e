use crate::members::Members;
use key::Key;
use units::{Level, Units};

/// A group of a report: the octets used under one key.
#[derive(Clone, Copy, Debug)]
pub struct ReportGroup {
    /// Where the group starts in its message.
    pub place: usize,
    pub key: Key,
    pub level: Level,
    pub used: Units,
}

/// A group of an answer: the thresholds of one key, or none where its monitoring stops.
#[derive(Clone, Copy, Debug)]
pub struct AnswerGroup {
    pub place: usize,
    pub key: Key,
    pub level: Level,
    pub granted: Option<Units>,
}

/// What a group of a command orders.
#[derive(Clone, Copy, Debug)]
pub enum Order {
    /// Count under this key, up to these thresholds.
    Grant {
        key: Key,
        level: Level,
        units: Units,
    },
    /// Stop counting under this key.
    Disable {
        key: Key,
    },
    /// Report this key, or all.
    Request {
        key: Option<Key>,
    },
}

/// A group of a command.
#[derive(Clone, Copy, Debug)]
pub struct CommandGroup {
    pub place: usize,
    pub order: Order,
}

/// What is known of a report's group so far.
#[derive(Clone, Copy)]
pub struct ReportGroupSoFar(pub(crate) Members);

/// What is known of an answer's group so far.
#[derive(Clone, Copy)]
pub struct AnswerGroupSoFar(pub(crate) Members);

/// What is known of a command's group so far.
#[derive(Clone, Copy)]
pub struct CommandGroupSoFar {
    pub(crate) members: Members,
    pub(crate) report: bool,
    pub(crate) support: bool,
}
