//! Places of a file as SARIF tells them.

use crate::json_texts::JsonText;
use lrdiagnostics::Source;
use lrwriter::Text;
use lryacc::Span;
use std::alloc::{AllocError, Global};

/// The column of a place in code units of UTF-16, from 1. A character has two of these where its first byte is such a one, and the
/// bytes that go on with one have none.
fn column(bytes: &[u8], at: usize) -> usize {
    let before = bytes.get(..at).unwrap_or(bytes);
    let mut column: usize = 1;
    for byte in before.iter().rev() {
        column = column.saturating_add(match *byte {
            b'\n' => break,
            0x80..=0xBF => 0,
            0xF0..=0xFF => 2,
            _ => 1,
        });
    }
    column
}

/// Adds a byte of a path to a reference: by its number where it may not stand there.
fn push_byte(uri: &mut Text, byte: u8) {
    let stays = byte.is_ascii_alphanumeric() || matches!(byte, b'-' | b'.' | b'_' | b'~' | b'/');
    if stays {
        return uri.add_char(char::from(byte));
    }
    uri.add_char('%');
    for digit in [byte / 16, byte % 16] {
        let digit = char::from_digit(u32::from(digit), 16).unwrap_or('0');
        uri.add_char(digit.to_ascii_uppercase());
    }
}

/// A path as a reference: a relative one stays so.
pub(crate) fn uri_of(alloc: Global, name: &str) -> Result<String, AllocError> {
    let mut uri = Text::new(alloc);
    if name.starts_with('/') {
        uri.add("file://");
    }
    for byte in name.as_bytes() {
        push_byte(&mut uri, *byte);
    }
    uri.finish()
}

/// Adds a file by its reference, or a place in it, from its first character to behind its last one, as a member of an object.
pub(crate) fn add_location(
    json: &mut JsonText,
    source: &Source<'_>,
    uri: &str,
    place: Option<Span>,
) {
    json.key("physicalLocation");
    json.begin_object();
    json.key("artifactLocation");
    json.begin_object();
    json.string_at("uri", uri);
    json.end_object();
    if let Some(place) = place {
        json.key("region");
        json.begin_object();
        json.number_at("startLine", source.position(place.start).line);
        json.number_at("startColumn", column(source.bytes, place.start));
        json.number_at("endLine", source.position(place.end).line);
        json.number_at("endColumn", column(source.bytes, place.end));
        json.end_object();
    }
    json.end_object();
}
