//! What grammar files are written for.

ghost use Rattle.std.specs.Prelude.{◌≡◌, IsTrue, false};
ghost use Rattle.lryacc.specs.Headers.{HasHeader, IsReadAs};

use crate::gaps::gap_end;

/// What a grammar file is written for.
#[derive(Clone, Copy, Debug, Default, PartialEq, Eq)]
pub enum Dialect {
    /// Yacc and Bison.
    #[default]
    Bison,
    /// grmtools, whose parsers are in Rust.
    Grmtools,
}

/// Whether a file begins with `%grmtools` and a brace.
fn has_header(text: &[u8]) -> bool
    ensures is { IsTrue result → HasHeader text.now }
    ensures is_not { result ≡ false → ¬ HasHeader text.now }
{
    let Ok(start) = gap_end(text, 0, Dialect::Grmtools) else {
        return false;
    };
    let Some(behind) = text[start..].strip_prefix(b"%grmtools".as_slice()) else {
        return false;
    };
    match gap_end(text, text.len() - behind.len(), Dialect::Grmtools) {
        Ok(brace) => matches!(text.get(brace), Some(b'{')),
        Err(_) => false,
    }
}

/// How a file is read that is taken for one of a dialect: one that begins with `%grmtools{` is one of grmtools.
pub(crate) fn dialect_of(text: &[u8], taken: Dialect) -> Dialect
    ensures { IsReadAs text.now taken result }
{
    if has_header(text) {
        Dialect::Grmtools
    } else {
        taken
    }
}
