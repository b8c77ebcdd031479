//! Runs of bytes of one class.

ghost use Rattle.std.specs.Prelude.{◌≡◌, ◌≤◌, length};
ghost use Rattle.lryacc.specs.Words.{IsRun};
ghost use Rattle.lryacc.specs.Runs.{has};

/// Bytes of one class that stand one behind another.
#[derive(Clone, Copy)]
pub(crate) enum Run {
    /// Decimal digits.
    Digits,
    /// Hexadecimal digits.
    HexDigits,
    /// What a name goes on with for Bison.
    Name,
    /// What a name goes on with for grmtools and in most languages.
    Word,
    /// What the name of a directive goes on with for grmtools.
    Directive,
    /// Blanks and ends of lines.
    Blanks,
    /// The rest of a line.
    Line,
    /// What Bison passes over behind an invalid character.
    Invalid,
}

impl Run {
    /// Whether it may have the byte.
    pub(crate) fn has(self, byte: u8) -> bool
        ensures { result ≡ has self byte }
    {
        match self {
            Run::Digits => byte.is_ascii_digit(),
            Run::HexDigits => byte.is_ascii_hexdigit(),
            Run::Name => byte.is_ascii_alphanumeric() || matches!(byte, b'.' | b'_' | b'-'),
            Run::Word => byte.is_ascii_alphanumeric() || byte == b'_',
            Run::Directive => byte.is_ascii_alphanumeric() || matches!(byte, b'_' | b'-'),
            Run::Blanks => matches!(byte, b' ' | b'\t' | b'\n' | 0x0b | 0x0c | b'\r'),
            Run::Line => !matches!(byte, b'\n' | b'\r'),
            Run::Invalid => !matches!(
                byte,
                b' ' | b'\t' | b'\n' | 0x0b | 0x0c | b'\r' | b'%' | b'[' | b'{' | b'}' | b'<' | b'>' | b'"' | b'\''
                    | b'*' | b';' | b'|' | b'=' | b'/' | b',' | b'_' | b'0'..=b'9' | b'A'..=b'Z' | b'a'..=b'z'
            ),
        }
    }

    /// The place from `from` on at which it ends.
    pub(crate) fn end(self, text: &[u8], from: usize) -> usize
        requires { from ≤ length text.now }
        ensures from { from ≤ result }
        ensures inside { result ≤ length text.now }
        ensures run { IsRun (has self) text.now from result }
    {
        for at in from..text.len() {
            if !self.has(text[at]) {
                return at;
            }
        }
        text.len()
    }

    /// Whether it reaches over all of the bytes.
    pub(crate) fn is_all(self, bytes: &[u8]) -> bool {
        self.end(bytes, 0) == bytes.len()
    }
}
