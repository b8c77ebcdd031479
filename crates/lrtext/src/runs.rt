//! Runs of bytes at the front of a text.

ghost use Rattle.std.specs.Prelude.{◌≡◌, ℕ, ◌<◌, ◌≤◌, ◌∷◌, ◌++◌, length, slice_index, IsTrue, IfSome, IfNone, true, false};
ghost use Rattle.std.specs.List.{list_all};
ghost use Rattle.lrspec.specs.texts.Lexemes.{is_blank, is_name_start, goes_on};
ghost use Rattle.lrtext.specs.Runs.{passes, EndsByAscii, is_byte};

/// Which bytes belong together.
#[derive(Clone, Copy)]
pub(crate) enum Run {
    /// Those of a name.
    Name,
    /// Those of a word behind its `%`.
    Word,
    /// Those up to the end of a line.
    Line,
    /// Those up to the quote or the end of a line.
    Quoted(u8),
}

/// Whether the byte is a space, a tab or the end of a line.
pub(crate) fn is_blank(b: u8) -> bool
    ensures { result ≡ is_blank b }
{
    b == b' ' || b == b'\t' || b == b'\n' || b == b'\r'
}

/// Whether a name begins with the byte.
pub(crate) fn is_name_start(b: u8) -> bool
    ensures { result ≡ is_name_start b }
{
    b.is_ascii_alphabetic() || b == b'_' || b == b'.'
}

/// Whether the byte is of the run.
fn is_of(run: Run, b: u8) -> bool
    ensures { result ≡ passes run b }
{
    match run {
        Run::Name => is_name_start(b) || b.is_ascii_digit(),
        Run::Word => b.is_ascii_alphabetic(),
        Run::Line => b != b'\n',
        Run::Quoted(quote) => b != quote && b != b'\n' && b != b'\r',
    }
}

/// How many bytes at the front are of the run.
fn run_len(bytes: &[u8], run: Run) -> usize
    ensures within { result ≤ length bytes.now }
    ensures all { (k : ℕ) → k < result → passes run (slice_index bytes.now k) ≡ true }
    ensures stops { result < length bytes.now → passes run (slice_index bytes.now result) ≡ false }
{
    for (i, b) in bytes.iter().enumerate() {
        if !is_of(run, *b) {
            return i;
        }
    }
    bytes.len()
}

/// The bytes of the run at the front, and what stands behind them.
pub(crate) fn split_run(text: &str, run: Run) -> (&str, &str)
    requires { EndsByAscii run }
    ensures whole { text.now ≡ result.0.now ++ result.1.now }
    ensures all { IsTrue (list_all (passes run) result.0.now) }
    ensures stops { goes_on (passes run) result.1.now ≡ false }
{
    text.split_at(run_len(text.as_bytes(), run))
}

/// What stands behind the ASCII byte with which the text begins.
pub(crate) fn behind_byte(text: &str, b: u8) -> Option<&str>
    requires { b < 128 }
    ensures none { IfNone result (goes_on (is_byte b) text.now ≡ false) }
    ensures some { IfSome result (λ behind. text.now ≡ b ∷ behind.now) }
{
    let first = *text.as_bytes().first()?;
    if first != b {
        return None;
    }
    Some(text.split_at(1).1)
}
