//! The first name of a document that nothing defines.

ghost use Rattle.std.specs.Prelude.{◌≡◌, map, option_map, filter_map, flat_map, slice_get};
ghost use Rattle.lrspec.specs.texts.Names.{first_appearances};
ghost use Rattle.lrspec.specs.texts.Meaning.{rule_names, declared_names, unknown_in_body, unknown_names};
ghost use Rattle.lrtext.specs.StoredContents.{name_text_of, body_of, plain_contents};

use crate::contents::{Alternative, Contents, NameText};
use crate::meaning::numbers::Numbers;

/// The name, if it is a plain one that is neither a rule nor declared.
fn unknown_name<'a>(
    rules: &Numbers<'a>,
    declared: &Numbers<'a>,
    name: NameText<'a>,
) -> Option<&'a str>
    ensures { let unknown = unknown_in_body rules.now declared.now (name_text_of name.entry) in
        option_map (λ w. w.now) result ≡ unknown }
{
    match name {
        NameText::Plain(name) => {
            if rules.has(name) || declared.has(name) {
                return None;
            }
            Some(name)
        }
        NameText::InQuotes(_) => None,
    }
}

/// The first such name of a body.
fn first_in_body<'a>(
    rules: &Numbers<'a>,
    declared: &Numbers<'a>,
    body: &[NameText<'a>],
) -> Option<&'a str>
    ensures { let names = map name_text_of body.now in
        let unknown = filter_map (unknown_in_body rules.now declared.now) names in
        option_map (λ w. w.now) result ≡ slice_get unknown 0 }
{
    for name in body {
        if let Some(unknown) = unknown_name(rules, declared, *name) {
            return Some(unknown);
        }
    }
    None
}

/// The first such name of all bodies.
fn first_in_bodies<'a>(
    rules: &Numbers<'a>,
    declared: &Numbers<'a>,
    alternatives: &[Alternative<'a>],
) -> Option<&'a str>
    ensures { let names = flat_map body_of alternatives.now in
        let unknown = filter_map (unknown_in_body rules.now declared.now) names in
        option_map (λ w. w.now) result ≡ slice_get unknown 0 }
{
    for alternative in alternatives {
        if let Some(unknown) = first_in_body(rules, declared, alternative.body.as_slice()) {
            return Some(unknown);
        }
    }
    None
}

/// The first name that nothing defines.
pub(super) fn first_unknown<'a>(
    rules: &Numbers<'a>,
    declared: &Numbers<'a>,
    contents: &Contents<'a>,
) -> Option<&'a str>
    requires rules { rules.now ≡ rule_names (plain_contents contents.now) }
    requires declared { let names = declared_names (plain_contents contents.now) in
        declared.now ≡ first_appearances names }
    ensures { let unknown = unknown_names (plain_contents contents.now) in
        option_map (λ w. w.now) result ≡ slice_get unknown 0 }
{
    if let Some(start) = contents.start {
        if !rules.has(start) {
            return Some(start);
        }
    }
    first_in_bodies(rules, declared, contents.alternatives.as_slice())
}
