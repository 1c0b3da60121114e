//! The words of a text, one by one: how a line is cut into words, and how a number, a key, a level and a type are
//! written as a word and read from one. A word that is none of these is refused with what was expected.

#![tactic(auto)]

mod expected;
mod keys;
mod lines;
mod names;
mod numbers;
mod words;

pub use expected::Expected;
pub use keys::{KeyWord, read_key};
pub use lines::{is_skipped, without_return};
pub use names::{level_word, read_level, read_type, type_word};
pub use numbers::{read_last_number, read_number};
pub use words::{end, first_word, is_word, word_length};
