//! What stands under the lines of productions that meet: their places, and what is said of them.

use crate::told::Told;
use lrdiagnostics::{Mark, Style};
use lrwriter::Text;
use lryacc::Span;
use std::alloc::{AllocError, Global};

/// How many productions are told that go on by a shift.
const GOING_ON: usize = 3;

/// How many of the bytes stand before an action, and before the blanks before that.
fn before_action(bytes: &[u8]) -> usize {
    let mut count = 0;
    for (place, byte) in bytes.iter().enumerate() {
        if *byte == b'{' {
            return count;
        }
        if !byte.is_ascii_whitespace() {
            count = place.saturating_add(1);
        }
    }
    count
}

/// Whether bytes end with a name, but for blanks: no byte that may stand in one is before it.
fn ends_with_name(bytes: &[u8], name: &[u8]) -> bool {
    let text = bytes.trim_ascii_end();
    let before = text.get(..text.len().saturating_sub(name.len()));
    let is_longer = match before.unwrap_or(b"").last().copied() {
        Some(b'_' | b'.' | b'-' | 0x80..=0xFF) => true,
        Some(last) => last.is_ascii_alphanumeric(),
        None => false,
    };
    text.ends_with(name) && !is_longer
}

/// Whether a name stands before a colon, as where a rule begins.
fn is_before_colon(bytes: &[u8], name: &[u8]) -> bool {
    for (place, byte) in bytes.iter().enumerate() {
        if *byte == b':' && ends_with_name(bytes.get(..place).unwrap_or(b""), name) {
            return true;
        }
    }
    false
}

impl Told<'_> {
    /// Where the body of a production stands, up to the action behind its symbols.
    fn symbols_place(&self, production: usize) -> Span {
        let place = self.place(production);
        let last = match self.file.symbol_places.get(production) {
            Some(places) => places.last().copied(),
            None => None,
        };
        let from = match last {
            Some(last) => last.end,
            None => place.start,
        };
        let count = before_action(self.source.part(from, place.end));
        Span::new(place.start, from.saturating_add(count))
    }

    /// Whether the body of a production has no symbol.
    fn is_empty(&self, production: usize) -> bool {
        match self.production(production) {
            Some(prod) => prod.symbols.is_empty(),
            None => false,
        }
    }

    /// How a production can be reduced: as one that ends there, or that is empty.
    pub(crate) fn ending(&self, production: usize) -> &'static str {
        if self.is_empty(production) {
            "be empty here"
        } else {
            "end here"
        }
    }

    /// Whether the rule of a production begins in the line of a place: for the first time, or once more.
    fn is_named_in_line(&self, production: usize, at: usize) -> bool {
        let Some(prod) = self.production(production) else {
            return true;
        };
        let is_first_there = match self.file.rule_places.get(prod.rule) {
            Some(place) => self.source.line(place.start) == self.source.line(at),
            None => true,
        };
        let line = self.source.part(self.source.line_start(at), at);
        is_first_there || is_before_colon(line, self.rule_name(production).as_bytes())
    }

    /// The place of a production by which a state can reduce, and what follows from that.
    pub(crate) fn reduction_mark(
        &self,
        alloc: Global,
        production: usize,
        so: &str,
    ) -> Result<Mark, AllocError> {
        let (rule, how) = (self.rule_name(production), self.ending(production));
        Ok(Mark {
            span: self.symbols_place(production),
            mark: '^',
            style: Style::Red,
            label: format!(in alloc; "reduce: {rule} can {how}{so}")?,
        })
    }

    /// The place of another production by which it could reduce, and what follows from that.
    pub(crate) fn other_mark(
        &self,
        alloc: Global,
        production: usize,
        other: usize,
        so: &str,
    ) -> Result<Mark, AllocError> {
        let rule = self.rule_name(other);
        let are_same = match (self.production(production), self.production(other)) {
            (Some(one), Some(other)) => one.rule == other.rule
                && one.symbols.as_slice() == other.symbols.as_slice(),
            _ => false,
        };
        let how = if are_same {
            ", by the same production again"
        } else if self.is_empty(other) {
            ", which can be empty here"
        } else {
            ""
        };
        Ok(Mark {
            span: self.symbols_place(other),
            mark: '-',
            style: Style::Blue,
            label: format!(in alloc; "reduce: or {rule}{how}{so}")?,
        })
    }

    /// Adds what is said where a state goes on by a shift: which rule goes on, where the line doesn't show it.
    fn add_shift(&self, text: &mut Text, production: usize, at: usize, is_first: bool) {
        let is_start = self.is_start(production);
        let is_named = is_start || self.is_named_in_line(production, at);
        text.add(match (is_first, is_start) {
            (true, true) => "shift: or the input ends here",
            (true, false) => "shift: or go on",
            (false, _) if is_named => "or go on here",
            (false, _) => "or go on",
        });
        if !is_named {
            text.add(" in ");
            text.add(self.rule_name(production));
        }
    }

    /// The place at which an item goes on, and what follows from that where it is the first one, with how many there are besides.
    fn item_mark(
        &self,
        alloc: Global,
        item: (usize, usize),
        so: Option<&str>,
        more: usize,
    ) -> Result<Mark, AllocError> {
        let (production, dot) = item;
        let span = self.symbol_place(production, dot);
        let mut label = Text::new(alloc);
        self.add_shift(&mut label, production, span.start, so.is_some());
        label.add(so.unwrap_or(""));
        if more > 0 {
            write!(label, ", and {more} more");
        }
        Ok(Mark {
            span,
            mark: '-',
            style: Style::Blue,
            label: label.finish()?,
        })
    }

    /// Adds the places of the first of the items by which a state goes on, and what follows from that; at the last of these, how many
    /// there are besides.
    pub(crate) fn push_items(
        &self,
        marks: &mut Vec<Mark>,
        items: &[(usize, usize)],
        so: &str,
    ) -> Result<(), AllocError> {
        let alloc = *marks.allocator();
        for (place, item) in items.iter().take(GOING_ON).enumerate() {
            let first = if place == 0 { Some(so) } else { None };
            let is_last = place.saturating_add(1) == GOING_ON;
            let more = if is_last {
                items.len().saturating_sub(GOING_ON)
            } else {
                0
            };
            marks.push(self.item_mark(alloc, *item, first, more)?)?;
        }
        Ok(())
    }
}
