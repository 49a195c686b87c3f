// The words of a command line, and files of one line.
ghost use Rattle.std.specs.Prelude.{◌≡◌};
ghost use Rattle.sj_outside.specs.Words.{is_operand, without_line_feed};

/// Whether `word` may name a file, a folder or a place for files: it doesn't begin with `-`.
pub fn is_operand(word: &str) -> bool
    ensures { result ≡ is_operand word.now }
{
    !word.starts_with('-')
}

/// The bytes but for a line feed at their end.
pub fn without_line_feed(bytes: &[u8]) -> &[u8]
    ensures { result.now ≡ without_line_feed bytes.now }
{
    if bytes.ends_with(b"\n") {
        &bytes[..bytes.len() - 1]
    } else {
        bytes
    }
}
