//! The tokens that the words of a line name, and the texts of runs.

ghost use Rattle.std.specs.Prelude.{◌≡◌, ◌<◌, ◌++◌, length, map, option_map, IfOk, MatchResult, OnOk, All, codes};
ghost use Rattle.std.specs.Str.{IsUtf8};
ghost use Rattle.std.specs.String.{string_bytes};
ghost use Rattle.lrspec.specs.texts.MachineLines.{token_of, tokens_of, first_unknown, place_in_rule, production_label, run_text};
ghost use Rattle.lrspec.specs.tables.Recognition.{AreNamed};
ghost use Rattle.lrspec.specs.texts.Lines.{words};
ghost use Rattle.lrtable.specs.Labels.{AreLabels, labels_text};
ghost use Rattle.lrtable.specs.RunAnswers.{text_of, answer_of};

use crate::machine::runs::{Run, Verdict};
use lrgrammar::grammar::YaccGrammar;
use lrgrammar::idx::{IndexStorage, PIdx, TIdx};
use lrlines::Words;
use std::alloc::AllocError;

/// The token that the word names; None where there is none, as for a word that is no UTF-8.
fn token_named<T: IndexStorage>(grm: &YaccGrammar<T>, word: &[u8]) -> Option<TIdx<T>>
    requires { All IsUtf8 grm.now.token_names }
    ensures { option_map (λ t. T.number t.0) result ≡ token_of grm.now word.now }
{
    match std::str::from_utf8(word) {
        Ok(name) => grm.token_idx(name),
        Err(_) => None,
    }
}

/// The tokens that the words of a line name, or the first word that names none; words stand between spaces and tabs. The
/// outer error says that memory was refused.
pub fn line_tokens<'a, T: IndexStorage>(
    grm: &YaccGrammar<T>,
    line: &'a [u8],
) -> Result<Result<Vec<TIdx<T>>, &'a [u8]>, AllocError>
    ensures tokens { IfOk result (λ r. MatchResult r
        (λ tokens. (first_unknown grm.now (words line.entry.now) ≡ None)
        × (text_of T.number tokens.items ≡ tokens_of grm.now (words line.entry.now)))
        (λ word. first_unknown grm.now (words line.entry.now) ≡ Some word.now)) }
    ensures named { IfOk result (λ r. IfOk r (λ tokens.
        AreNamed grm.now (text_of T.number tokens.items))) }
{
    let mut tokens = Vec::new(grm.allocator());
    for word in Words::new(line) {
        match token_named(grm, word) {
            Some(token) => tokens.push(token)?,
            None => return Ok(Err(word)),
        }
    }
    Ok(Ok(tokens))
}

/// The place of the production among those of its rule.
fn place_in_rule<T: IndexStorage>(grm: &YaccGrammar<T>, pidx: PIdx<T>) -> usize
    requires { T.number pidx.0 < length grm.now.productions }
    ensures { result ≡ place_in_rule grm.now (T.number pidx.0) }
{
    let prods = grm.rule_to_prods(grm.prod_to_rule(pidx));
    prods.binary_search(&pidx).unwrap()
}

/// A production as answers name it: its rule's name, a dot, and its place among the rule's productions, counted from 0. The
/// error says that memory was refused.
pub fn production_label<T: IndexStorage>(
    grm: &YaccGrammar<T>,
    pidx: PIdx<T>,
) -> Result<String, AllocError>
    requires { T.number pidx.0 < length grm.now.productions }
    ensures { IfOk result (λ s. string_bytes s ≡ production_label grm.now (T.number pidx.0)) }
{
    let rule = grm.rule_name_str(grm.prod_to_rule(pidx));
    let place = place_in_rule(grm, pidx);
    format!(in grm.allocator(); "{rule}.{place}")
}

/// The labels of all productions in order. The error says that memory was refused.
pub fn production_labels<T: IndexStorage>(grm: &YaccGrammar<T>) -> Result<Vec<String>, AllocError>
    ensures { IfOk result (λ labels. AreLabels grm.now labels.items) }
{
    let mut labels = Vec::new(grm.allocator());
    for prod in 0..usize::from(grm.prods_len()) {
        labels.push(production_label(grm, PIdx(T::from_usize(prod).unwrap()))?)?;
    }
    Ok(labels)
}

/// Writes a reduction of this label behind `out`: a space and the label.
fn push_reduction(label: &str, out: &mut Vec<u8>) -> Result<(), AllocError>
    ensures { OnOk result (out.new.items ≡ out.old.items ++ (codes " " ++ label.now)) }
{
    out.push(b' ')?;
    out.extend_from_slice(label.as_bytes())
}

/// Writes the reductions behind `out`, each by its label.
fn push_reductions<T: IndexStorage>(
    labels: &[String],
    reductions: &[PIdx<T>],
    out: &mut Vec<u8>,
) -> Result<(), AllocError>
    requires { All (λ p. T.number p.0 < length labels.now) reductions.now }
    ensures { OnOk result (out.new.items
        ≡ out.old.items ++ labels_text labels.now (map (λ p. T.number p.0) reductions.now)) }
{
    for pidx in reductions {
        push_reduction(labels[usize::from(*pidx)].as_str(), out)?;
    }
    Ok(())
}

/// Writes how a run came out behind `out`, by the labels of the grammar's productions. The error says that memory was refused.
pub(crate) fn push_run<T: IndexStorage>(
    grm: &YaccGrammar<T>,
    labels: &[String],
    run: &Run<T>,
    out: &mut Vec<u8>,
) -> Result<(), AllocError>
    requires labels { AreLabels grm.now labels.now }
    requires productions { All (λ p. T.number p.0 < length grm.now.productions)
        run.now.reductions.items }
    ensures { OnOk result (out.new.items
        ≡ out.old.items ++ run_text grm.now (answer_of T.number run.now)) }
{
    let alloc = grm.allocator();
    let steps = run.steps;
    match run.verdict {
        Verdict::Accepted => {
            out.extend_from_slice(format!(in alloc; "accept {steps}:")?.as_bytes())?;
            push_reductions(labels, &run.reductions, out)
        }
        Verdict::Rejected => {
            out.extend_from_slice(format!(in alloc; "reject {steps}")?.as_bytes())
        }
        Verdict::Unfinished => {
            out.extend_from_slice(format!(in alloc; "unfinished {steps}")?.as_bytes())
        }
    }
}
