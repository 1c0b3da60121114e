ghost use Rattle.std.specs.Prelude.{◌≡◌};
ghost use Rattle.words.specs.Lines.{blank, shorn, skipped};

/// A line without the carriage return that some systems put at its end.
pub fn without_return(line: &[u8]) -> &[u8]
    ensures { result.now ≡ shorn line.now }
{
    line.strip_suffix(b"\r").unwrap_or(line)
}

/// Whether a line says nothing: it is blank, or begins with #.
pub fn is_skipped(line: &[u8]) -> bool
    ensures { result ≡ skipped line.now }
{
    line.starts_with(b"#") || is_blank(line)
}

fn is_blank(line: &[u8]) -> bool
    ensures { result ≡ blank line.now }
{
    line.iter().all(|character| character.is_ascii_whitespace())
}
