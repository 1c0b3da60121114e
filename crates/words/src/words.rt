ghost use Rattle.std.specs.Prelude.{◌≡◌, ◌≤◌, true, length};
ghost use Rattle.std.specs.List.{prefix_len};
ghost use Rattle.std.specs.Str.{bytes_eq};
ghost use Rattle.words.specs.Words.{ended, is_space, rest_of, word_length, word_of};

use crate::expected::Expected;

/// How many characters stand before the first space.
pub fn word_length(line: &[u8]) -> usize
    ensures value { result ≡ word_length line.now }
    ensures within { result ≤ length line.now }
{
    line.iter()
        .take_while(|character| **character != b' ')
        .count()
}

// How many spaces stand at the front.
fn indent(text: &[u8]) -> usize
    ensures value { result ≡ prefix_len (is_space true) text.now }
    ensures within { result ≤ length text.now }
{
    text.iter()
        .take_while(|character| **character == b' ')
        .count()
}

/// The first word of a text, and what follows it. The word is empty where there is none.
pub fn first_word(text: &[u8]) -> (&[u8], &[u8])
    ensures word { result.0.now ≡ word_of text.now }
    ensures rest { result.1.now ≡ rest_of text.now }
{
    let text = &text[indent(text)..];
    text.split_at(word_length(text))
}

/// Whether the characters are this word.
pub fn is_word(characters: &[u8], word: &str) -> bool
    ensures { result ≡ bytes_eq characters.now word.now }
{
    characters == word.as_bytes()
}

/// Refuses any word that is left.
pub fn end(text: &[u8]) -> Result<(), Expected>
    ensures { result ≡ ended text.now }
{
    if first_word(text).0.is_empty() {
        Ok(())
    } else {
        Err(Expected::End)
    }
}
