//! The words by which a line names tokens.

ghost use Rattle.std.specs.Prelude.{◌≡◌, ◌<◌, ◌≤◌, ◌^◌, ◌++◌, All, IfOk, IfSome, MatchResult, OnOk, drop, length, map, option_map};
ghost use Rattle.std.specs.Option.{option_to_list};
ghost use Rattle.lrspec.specs.grammars.Grammar.{Grammar};
ghost use Rattle.lrspec.specs.tables.Recognition.{AreNamed};
ghost use Rattle.lrspec.specs.texts.Lines as lines;
ghost use Rattle.lrspec.specs.texts.Lines.{words};
ghost use Rattle.lrparsing.specs.Machines.{numbers};
ghost use Rattle.lrparsing.specs.Lines as spec;
ghost use Rattle.lrparsing.specs.Lines.{AreNames, AreSpelled, HasMore, IsUnknown, front_of, named_token, named_tokens, spelled};
ghost use Rattle.lrparsing.specs.declared.spellings.Way.TheVariants.{Name};

use lrgrammar::idx::{IndexStorage, TIdx};
use lrlines::Words;
use lryacc::FileGrammar;
use std::alloc::{AllocError, Global};
use std::str;

/// A name, in which blanks may stand, and the token that it names.
#[derive(Drop)]
pub(crate) struct Spelling {
    pub(crate) name: String,
    pub(crate) token: TIdx<u32>,
}

/// How tokens can be named.
#[derive(Clone, Copy, PartialEq, Eq)]
enum Way {
    /// By their names, as reports tell them.
    Name,
    /// As their declarations have them.
    Declared,
    /// By their names without quotes.
    Unquoted,
}

/// What stands between the quotes of a name, if that is one word; else the name itself.
fn unquoted(name: &str) -> &str {
    for quote in ['\'', '"'] {
        let rest = name.strip_prefix(quote);
        if let Some(inner) = rest.and_then(|rest| rest.strip_suffix(quote)) {
            if !inner.is_empty() && !inner.contains([' ', '\t']) {
                return inner;
            }
        }
    }
    name
}

/// The name of a token.
fn name_of(file: &FileGrammar, token: usize) -> Option<&str>
    ensures { option_map (λ name. (name.now, token)) result ≡ named_token file.now token }
{
    match file.parts.tokens.get(token) {
        Some(token) => Some(token.name.as_str()),
        None => None,
    }
}

/// What stands in a file where it declares a token; None where it doesn't, or where that is no UTF-8.
fn declared<'a>(file: &FileGrammar, text: &'a [u8], token: usize) -> Option<&'a str> {
    let place = file.declared_place(token)?;
    str::from_utf8(text.get(place.start..place.end)?).ok()
}

/// How a token of a file is named in one of the ways, if it is.
fn name_in<'a>(file: &'a FileGrammar, text: &'a [u8], token: usize, way: Way) -> Option<&'a str>
    ensures { way ≡ Name →
        option_map (λ name. (name.now, token)) result ≡ named_token file.entry.now token }
{
    match way {
        Way::Name => name_of(file, token),
        Way::Declared => declared(file, text, token),
        Way::Unquoted => name_of(file, token).map(unquoted),
    }
}

/// Adds that a token has this name, if it has one.
fn add_name(
    spellings: &mut Vec<Spelling>,
    token: usize,
    name: Option<&str>,
) -> Result<(), AllocError>
    requires { token < 2 ^ 32 }
    ensures { OnOk result (map spelled spellings.new.items ≡ map spelled spellings.old.items
        ++ option_to_list (option_map (λ name. (name.now, token)) name.entry)) }
{
    if let Some(name) = name {
        let name = String::from_str(*spellings.allocator(), name)?;
        let token = TIdx(u32::from_usize(token).unwrap());
        spellings.push(Spelling { name, token })?;
    }
    Ok(())
}

/// Adds how the first tokens of a file, so many, are named in one of the ways.
fn add_names(
    spellings: &mut Vec<Spelling>,
    file: &FileGrammar,
    text: &[u8],
    count: usize,
    way: Way,
) -> Result<(), AllocError>
    requires { count < 2 ^ 32 }
    ensures names { way ≡ Name → OnOk result (map spelled spellings.new.items
        ≡ map spelled spellings.old.items ++ named_tokens file.now count) }
    ensures more { OnOk result (HasMore count (map spelled spellings.old.items)
        (map spelled spellings.new.items)) }
{
    for token in 0..count {
        add_name(spellings, token, name_in(file, text, token, way))?;
    }
    Ok(())
}

/// How the first tokens of a file, so many, are named: first of all by their own names. What can be read in several ways is the
/// first of these.
pub(crate) fn spellings_of(
    alloc: Global,
    file: &FileGrammar,
    text: &[u8],
    count: usize,
) -> Result<Vec<Spelling>, AllocError>
    requires { count < 2 ^ 32 }
    ensures names { IfOk result (λ v.
        HasMore count (named_tokens file.now count) (map spelled v.items)) }
    ensures tokens { IfOk result (λ v. All (λ s. s.token.0 < count) v.items) }
{
    let mut spellings = Vec::new(alloc);
    add_names(&mut spellings, file, text, count, Way::Name)?;
    add_names(&mut spellings, file, text, count, Way::Declared)?;
    add_names(&mut spellings, file, text, count, Way::Unquoted)?;
    Ok(spellings)
}

/// The words of a line.
fn words_of<'a>(alloc: Global, line: &'a [u8]) -> Result<Vec<&'a [u8]>, AllocError>
    ensures { IfOk result (λ v. map (λ w. w.now) v.items ≡ words line.entry.now) }
{
    let mut list = Vec::new(alloc);
    for word in Words::new(line) {
        list.push(word)?;
    }
    Ok(list)
}

/// The place behind the words of a name, if these stand at a place.
fn behind(name: &[u8], words: &[&[u8]], at: usize) -> Option<usize>
    requires { at ≤ length words.now }
    ensures rest { spec.behind (lines.words name.now) (drop at (map (λ w. w.now) words.now))
        ≡ option_map (λ next. drop next (map (λ w. w.now) words.now)) result }
    ensures within { IfSome result (λ next. (at ≤ next) × (next ≤ length words.now)) }
{
    let mut next = at;
    for word in Words::new(name) {
        match words.get(next) {
            Some(here) if word == *here => next += 1,
            _ => return None,
        }
    }
    Some(next)
}

/// What words begin with at a place: the token of the first spelling whose words stand there, and the place behind these.
fn named(spellings: &[Spelling], words: &[&[u8]], at: usize) -> Option<(TIdx<u32>, usize)>
    requires { at ≤ length words.now }
    ensures named { spec.first_named spellings.now (drop at (map (λ w. w.now) words.now))
        ≡ option_map (λ n. front_of n.0.0 (drop n.1 (map (λ w. w.now) words.now))) result }
    ensures within { IfSome result (λ n. (at < n.1) × (n.1 ≤ length words.now)) }
{
    for spelling in spellings {
        match behind(spelling.name.as_bytes(), words, at) {
            Some(next) if next > at => return Some((spelling.token, next)),
            _ => {}
        }
    }
    None
}

/// The tokens that the words of a line name, or its first word that names none. Words stand between spaces and tabs.
pub(crate) fn tokens_of_line<'a>(
    alloc: Global,
    spellings: &[Spelling],
    line: &'a [u8],
) -> Result<Result<Vec<TIdx<u32>>, &'a [u8]>, AllocError>
    ensures tokens { IfOk result (λ r. MatchResult r
        (λ tokens. AreNames spellings.now (words line.entry.now) (numbers tokens.items))
        (λ word. IsUnknown spellings.now (words line.entry.now) word.now)) }
    ensures named { (g : Grammar) → AreSpelled g spellings.now
        → IfOk result (λ r. IfOk r (λ tokens. AreNamed g (numbers tokens.items))) }
{
    let words = words_of(alloc, line)?;
    let mut at = 0;
    let mut tokens = Vec::new(alloc);
    while at < words.len() {
        let Some((token, next)) = named(spellings, words.as_slice(), at) else {
            return Ok(Err(words[at]));
        };
        tokens.push(token)?;
        at = next;
    }
    Ok(Ok(tokens))
}
