//! Places in a file.

ghost use Rattle.std.specs.Prelude.{◌≡◌};
ghost use Rattle.lryacc.specs.NamedSymbols.{text_at};

/// The bytes of a file from `start` up to `end`, counted from 0.
#[derive(Clone, Copy, Debug, PartialEq, Eq)]
pub struct Span {
    /// The first byte.
    pub start: usize,
    /// The byte behind the last one.
    pub end: usize,
}

impl Span {
    ghost use Rattle.lryacc.specs.Spans.{IsInside};

    /// The bytes from `start` up to `end`.
    pub fn new(start: usize, end: usize) -> Span
        ensures start { result.start ≡ start }
        ensures end { result.end ≡ end }
    {
        Span { start, end }
    }

    /// What of these bytes lies in a text: all of them, but for a place behind its end.
    pub(crate) fn within(self, text: &[u8]) -> Span
        ensures inside { IsInside result text.now }
        ensures same { IsInside self text.now → result ≡ self }
    {
        let end = self.end.min(text.len());
        Span::new(self.start.min(end), end)
    }
}

/// The bytes at a place.
pub(crate) fn bytes(text: &[u8], place: Span) -> &[u8]
    ensures { result.now ≡ text_at text.now place }
{
    text.get(place.start..place.end).unwrap_or(b"")
}
