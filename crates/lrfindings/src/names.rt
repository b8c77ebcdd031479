//! Names for the small grammar text, in which a rule is a name, and a token stands between quotes.

use std::alloc::{AllocError, Global};
use std::collections::BTreeSet;

/// Names that differ from each other.
#[derive(Drop)]
pub(crate) struct Names {
    taken: BTreeSet<String>,
}

impl Names {
    /// No names.
    pub(crate) fn new(alloc: Global) -> Names {
        Names {
            taken: BTreeSet::new(alloc),
        }
    }

    /// The name, with a number behind it where it is another one's already.
    pub(crate) fn unique(&mut self, alloc: Global, name: String) -> Result<String, AllocError> {
        if self.take(&name)? {
            return Ok(name);
        }
        // one of so many is free
        for number in 1..=self.taken.len().saturating_add(1) {
            let numbered = format!(in alloc; "{}.{number}", name.as_str())?;
            if self.take(&numbered)? {
                return Ok(numbered);
            }
        }
        Ok(name)
    }

    /// Takes a name; false where it is taken already.
    fn take(&mut self, name: &String) -> Result<bool, AllocError> {
        if self.taken.contains(name) {
            return Ok(false);
        }
        self.taken.insert(name.clone()?)?;
        Ok(true)
    }
}

/// The name for a rule: letters, digits and `_` stay, and `.` stands for each other character, and before a digit in front.
pub(crate) fn rule_name(alloc: Global, name: &str) -> Result<String, AllocError> {
    let mut text = String::new(alloc);
    for character in name.chars() {
        if character.is_ascii_digit() && text.is_empty() {
            text.push('.')?;
        }
        let stays = character.is_ascii_alphanumeric() || character == '_';
        text.push(if stays { character } else { '.' })?;
    }
    if text.is_empty() {
        text.push('.')?;
    }
    Ok(text)
}

/// What stands between the quotes of a name, if it has any.
fn unquoted(name: &str) -> &str {
    for quote in ['\'', '"'] {
        if let Some(inner) = name
            .strip_prefix(quote)
            .and_then(|rest| rest.strip_suffix(quote))
        {
            if !inner.is_empty() {
                return inner;
            }
        }
    }
    name
}

/// The name for a token: without the quotes of the file. `.` stands for what ends a line, and for `'` where `"` is there too.
pub(crate) fn token_name(alloc: Global, name: &str) -> Result<String, AllocError> {
    let name = unquoted(name);
    let has_both = name.contains('\'') && name.contains('"');
    let mut text = String::new(alloc);
    for character in name.chars() {
        let stays = match character {
            '\n' | '\r' => false,
            '\'' => !has_both,
            _ => true,
        };
        text.push(if stays { character } else { '.' })?;
    }
    if text.is_empty() {
        text.push('.')?;
    }
    Ok(text)
}

/// Adds a token's name between quotes.
pub(crate) fn push_quoted(text: &mut String, name: &str) -> Result<(), AllocError> {
    let quote = if name.contains('\'') { '"' } else { '\'' };
    text.push(quote)?;
    text.push_str(name)?;
    text.push(quote)
}
