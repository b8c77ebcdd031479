//! The texts of reasons.

ghost use Rattle.std.specs.Prelude.{◌≡◌, ◌++◌, map, option_copied, IfOk, OnOk};
ghost use Rattle.std.specs.List.{flat_map, list_any};
ghost use Rattle.std.specs.String.{string_bytes};
ghost use Rattle.lrconflicts.specs.StoredMoves.{move_of, moves_stored};
ghost use Rattle.lrambiguity.specs.StoredItems.{items_of};
ghost use Rattle.lrgrammar.specs.Symbols.{number_of, symbol_of};
ghost use Rattle.lrreasons.specs.Texts as told;
ghost use Rattle.lrreasons.specs.StoredTexts as stored;
ghost use Rattle.lrconflicts.specs.Entries.{entry_of, other_of};
ghost use Rattle.lrreasons.specs.Words.{words_of};

use crate::ambiguities::ProvedAmbiguity;
use crate::brackets::bracketed;
use crate::examples::Example;
use crate::lines::push_line;
use crate::names::{body, name_of_rule, production_text, rule_name, token_name};
use crate::reasons::Reason;
use crate::words::{push_first, push_symbols, push_word, symbol_word, symbols_of, words_with_dot};
use lrambiguity::{Ambiguity, Contest, Move, Written};
use lrconflicts::{Conflict, other_move};
use lrforms::{Form, Outlook};
use lrgrammar::grammar::YaccGrammar;
use lrgrammar::idx::{PIdx, SIdx, Symbol, TIdx};
use std::alloc::AllocError;

/// Behind how many spaces the lines of a reason stand.
pub(crate) const INDENT: usize = 6;

/// Behind how many those below them stand.
const BELOW: usize = 9;

/// The line of the conflict, as the texts of a table's conflicts have it.
fn conflict_line(grm: &YaccGrammar<u32>, conflict: &Conflict<u32>) -> Result<String, AllocError>
    ensures { IfOk result (λ s.
        string_bytes s ≡ told.conflict_line grm.now (entry_of number_of conflict.now)) }
{
    let state = usize::from(conflict.state);
    let token = token_name(grm, conflict.token);
    let production = production_text(grm, conflict.production)?;
    match conflict.other {
        None => format!(in grm.allocator();
            "   State {state}: Shift(\"{token}\") / Reduce({production})\n"
        ),
        Some(other) => {
            let other = production_text(grm, other)?;
            format!(in grm.allocator();
                "   State {state} (lookahead {token}): Reduce({production}) / Reduce({other})\n"
            )
        }
    }
}

/// What stands before what a candidate does: for a reduction its rule too, where the other one reduces as well.
fn move_label(
    grm: &YaccGrammar<u32>,
    action: Move<u32>,
    other: Move<u32>,
) -> Result<String, AllocError>
    ensures { IfOk result (λ s. string_bytes s
        ≡ told.move_label grm.now (move_of number_of action) (move_of number_of other)) }
{
    let alloc = grm.allocator();
    match (action, other) {
        (Move::Shift, _) => String::from_str(alloc, "shift:"),
        (Move::Reduce(_), Move::Shift) => String::from_str(alloc, "reduce:"),
        (Move::Reduce(production), Move::Reduce(_)) => {
            let rule = name_of_rule(grm, production);
            format!(in alloc; "reduce {rule}:")
        }
    }
}

/// Whether both moves are the same.
pub(crate) fn is_same_move(one: Move<u32>, other: Move<u32>) -> bool
    ensures { result ≡ told.is_same_move (move_of number_of one) (move_of number_of other) }
{
    match (one, other) {
        (Move::Shift, Move::Shift) => true,
        (Move::Reduce(one), Move::Reduce(other)) => usize::from(one) == usize::from(other),
        _ => false,
    }
}

/// Adds what a candidate is: `shift`, or a production.
fn push_candidate(
    words: &mut Vec<String>,
    grm: &YaccGrammar<u32>,
    action: Move<u32>,
) -> Result<(), AllocError>
    ensures { OnOk result (map string_bytes words.new.items ≡ map string_bytes words.old.items
        ++ told.candidate_words grm.now (move_of number_of action)) }
{
    match action {
        Move::Shift => push_word(words, "shift"),
        Move::Reduce(production) => {
            let rule = name_of_rule(grm, production);
            words.push(format!(in grm.allocator(); "{rule}:")?)?;
            push_symbols(words, grm, body(grm, production))
        }
    }
}

/// Adds which candidates contend, where they aren't those of the conflict's line.
fn push_contest(
    text: &mut String,
    grm: &YaccGrammar<u32>,
    conflict: &Conflict<u32>,
    contest: &Contest<u32>,
) -> Result<(), AllocError>
    ensures { OnOk result (string_bytes text.new ≡ string_bytes text.old
        ++ told.contest_text grm.now conflict.now.production.0
        (other_of (entry_of number_of conflict.now)) (move_of number_of contest.now.one)
        (move_of number_of contest.now.other)) }
{
    if is_same_move(contest.one, Move::Reduce(conflict.production))
        && is_same_move(contest.other, other_move(conflict))
    {
        return Ok(());
    }
    let mut words = Vec::new(grm.allocator());
    push_candidate(&mut words, grm, contest.one)?;
    push_word(&mut words, "/")?;
    push_candidate(&mut words, grm, contest.other)?;
    push_line(text, BELOW, "between:", &words)
}

/// Adds the line of a form.
fn push_form(text: &mut String, grm: &YaccGrammar<u32>, form: &Form) -> Result<(), AllocError>
    ensures { OnOk result (string_bytes text.new
        ≡ string_bytes text.old ++ stored.form_text grm.now form.now) }
{
    let rule = rule_name(grm, form.rule);
    let label = format!(in grm.allocator(); "AMBIGUOUS {rule}:")?;
    let words = words_with_dot(grm, &form.symbols, form.dot)?;
    push_line(text, INDENT, label.as_str(), &words)
}

/// Adds what a candidate makes of a form, against another one: these are its moves from the dot on.
fn push_way(
    text: &mut String,
    grm: &YaccGrammar<u32>,
    form: &Form,
    action: Move<u32>,
    other: Move<u32>,
    moves: &[Move<u32>],
) -> Result<(), AllocError>
    ensures { OnOk result (string_bytes text.new ≡ string_bytes text.old
        ++ stored.way_text grm.now form.now (move_of number_of action)
        (move_of number_of other) (moves_stored number_of moves.now)) }
{
    let label = move_label(grm, action, other)?;
    let tree = bracketed(grm, form, moves)?;
    push_line(text, BELOW, label.as_str(), &tree)
}

/// How many of the moves are shifts.
fn shifts(moves: &[Move<u32>]) -> usize
    ensures { result ≡ told.shifts (moves_stored number_of moves.now) }
{
    let mut shifts: usize = 0;
    for action in moves {
        if let Move::Shift = action {
            shifts += 1;
        }
    }
    shifts
}

/// Adds the text that has two trees.
fn push_sentence(
    text: &mut String,
    grm: &YaccGrammar<u32>,
    ambiguity: &Ambiguity<u32>,
) -> Result<(), AllocError>
    ensures { OnOk result (string_bytes text.new ≡ string_bytes text.old
        ++ stored.sentence_text grm.now ambiguity.now) }
{
    let symbols = symbols_of(grm.allocator(), &ambiguity.text)?;
    let words = words_with_dot(grm, &symbols, shifts(&ambiguity.before))?;
    push_line(text, BELOW, "sentence:", &words)
}

/// Adds the lines of an ambiguity.
fn push_ambiguity(
    text: &mut String,
    grm: &YaccGrammar<u32>,
    conflict: &Conflict<u32>,
    proved: &ProvedAmbiguity,
) -> Result<(), AllocError>
    ensures { OnOk result (string_bytes text.new ≡ string_bytes text.old
        ++ stored.ambiguity_text grm.now conflict.now proved.now) }
{
    let (form, contest) = (&proved.form, &proved.contest);
    push_form(text, grm, form)?;
    push_contest(text, grm, conflict, contest)?;
    push_way(
        text,
        grm,
        form,
        contest.one,
        contest.other,
        &form.ways.first,
    )?;
    push_way(
        text,
        grm,
        form,
        contest.other,
        contest.one,
        &form.ways.second,
    )?;
    push_sentence(text, grm, &proved.ambiguity)
}

/// Adds the line of an item.
fn push_item(
    text: &mut String,
    grm: &YaccGrammar<u32>,
    item: (PIdx<u32>, SIdx<u32>),
) -> Result<(), AllocError>
    ensures { OnOk result (string_bytes text.new ≡ string_bytes text.old
        ++ told.item_line grm.now (item.0.0, item.1.0)) }
{
    let (production, dot) = item;
    let rule = name_of_rule(grm, production);
    let label = format!(in grm.allocator(); "{rule}:")?;
    let words = words_with_dot(grm, body(grm, production), usize::from(dot))?;
    push_line(text, BELOW, label.as_str(), &words)
}

/// Adds the lines of items.
fn push_items(
    text: &mut String,
    grm: &YaccGrammar<u32>,
    items: &[(PIdx<u32>, SIdx<u32>)],
) -> Result<(), AllocError>
    ensures { OnOk result (string_bytes text.new ≡ string_bytes text.old
        ++ flat_map (told.item_line grm.now) (items_of number_of items.now)) }
{
    for item in items {
        push_item(text, grm, *item)?;
    }
    Ok(())
}

/// Adds how a text goes on, where that is known.
fn push_rest(
    text: &mut String,
    grm: &YaccGrammar<u32>,
    rest: Option<&Written<u32>>,
) -> Result<(), AllocError>
    ensures { OnOk result (string_bytes text.new ≡ string_bytes text.old
        ++ stored.rest_text grm.now (option_copied rest.entry)) }
{
    let Some(rest) = rest else {
        return Ok(());
    };
    let symbols = symbols_of(grm.allocator(), &rest.tokens)?;
    let mut words = Vec::new(grm.allocator());
    push_first(&mut words, grm, &symbols)?;
    push_line(text, BELOW, "then:", &words)
}

/// Adds how a text goes on by a candidate against another one, where that is known.
fn push_outlook(
    text: &mut String,
    grm: &YaccGrammar<u32>,
    action: Move<u32>,
    other: Move<u32>,
    outlook: Option<&Outlook>,
) -> Result<(), AllocError>
    ensures { OnOk result (string_bytes text.new ≡ string_bytes text.old
        ++ stored.outlook_text grm.now (move_of number_of action)
        (move_of number_of other) (option_copied outlook.entry)) }
{
    let Some(outlook) = outlook else {
        return Ok(());
    };
    let label = move_label(grm, action, other)?;
    push_line(text, INDENT, label.as_str(), &[])?;
    push_items(text, grm, &outlook.items)?;
    push_rest(text, grm, outlook.rest.as_ref())
}

/// Adds symbols with the dot behind them, and the token that comes next.
fn push_before(
    text: &mut String,
    grm: &YaccGrammar<u32>,
    label: &str,
    symbols: &[Symbol<u32>],
    token: TIdx<u32>,
) -> Result<(), AllocError>
    ensures { OnOk result (string_bytes text.new ≡ string_bytes text.old
        ++ told.before_line grm.now label.now (map (symbol_of number_of) symbols.now)
        token.0) }
{
    let mut words = words_with_dot(grm, symbols, symbols.len())?;
    words.push(symbol_word(grm, Symbol::Token(token))?)?;
    push_line(text, INDENT, label, &words)
}

/// Whether one of the symbols is a rule.
fn has_rule(symbols: &[Symbol<u32>]) -> bool
    ensures { result ≡ list_any told.is_rule (map (symbol_of number_of) symbols.now) }
{
    for symbol in symbols {
        if let Symbol::Rule(_) = symbol {
            return true;
        }
    }
    false
}

/// Adds a text that the list derives, and the token on which a conflict is real behind it; nothing where the list is that text.
fn push_input(
    text: &mut String,
    grm: &YaccGrammar<u32>,
    list: &[Symbol<u32>],
    input: Option<&Written<u32>>,
    token: TIdx<u32>,
) -> Result<(), AllocError>
    ensures { OnOk result (string_bytes text.new ≡ string_bytes text.old
        ++ stored.input_text grm.now (map (symbol_of number_of) list.now)
        (option_copied input.entry) token.0) }
{
    if !has_rule(list) {
        return Ok(());
    }
    let Some(input) = input else {
        return push_line(text, INDENT, "input: none is found", &[]);
    };
    let symbols = symbols_of(grm.allocator(), &input.tokens)?;
    push_before(text, grm, "input:", &symbols, token)
}

/// Adds that a conflict isn't real on its own token, where it is on another one.
fn push_other_token(
    text: &mut String,
    grm: &YaccGrammar<u32>,
    own: TIdx<u32>,
    token: TIdx<u32>,
) -> Result<(), AllocError>
    ensures { OnOk result (string_bytes text.new ≡ string_bytes text.old
        ++ told.other_token_text grm.now own.0 token.0) }
{
    if usize::from(own) == usize::from(token) {
        return Ok(());
    }
    let mut words = Vec::new(grm.allocator());
    words.push(symbol_word(grm, Symbol::Token(own))?)?;
    push_line(text, INDENT, "not real on", &words)
}

/// Adds the lines of an example.
fn push_example(
    text: &mut String,
    grm: &YaccGrammar<u32>,
    conflict: &Conflict<u32>,
    example: &Example,
) -> Result<(), AllocError>
    ensures { OnOk result (string_bytes text.new ≡ string_bytes text.old
        ++ stored.example_text grm.now conflict.now example.now) }
{
    let (reduce, other) = (Move::Reduce(conflict.production), other_move(conflict));
    push_other_token(text, grm, conflict.token, example.token)?;
    push_before(text, grm, "reason:", &example.list, example.token)?;
    let (list, input) = (&example.list, example.input.as_ref());
    push_input(text, grm, list, input, example.token)?;
    push_outlook(text, grm, reduce, other, example.one.as_ref())?;
    push_outlook(text, grm, other, reduce, example.other.as_ref())
}

/// Adds the text of a reason, under the line of its conflict.
pub(crate) fn push_reason(
    text: &mut String,
    grm: &YaccGrammar<u32>,
    reason: &Reason,
) -> Result<(), AllocError>
    ensures { OnOk result (string_bytes text.new ≡ string_bytes text.old
        ++ stored.reason_text grm.now reason.now) }
{
    text.push_str(conflict_line(grm, &reason.conflict)?.as_str())?;
    match &reason.ambiguity {
        Some(proved) => push_ambiguity(text, grm, &reason.conflict, proved)?,
        None => push_line(text, INDENT, "not known to be ambiguous", &[])?,
    }
    match &reason.example {
        Some(example) => push_example(text, grm, &reason.conflict, example),
        None => Ok(()),
    }
}
