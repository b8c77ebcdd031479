//! Whether a form is a part of a sentence: what of the sentence stands in the place of each of its symbols.

ghost use Rattle.std.specs.Prelude.{map, IfOk, IfSome, IsTrue};
ghost use Rattle.std.specs.List.{AllZip};
ghost use Rattle.lrgrammar.specs.Symbols.{number_of, symbol_of};
ghost use Rattle.lrconflicts.specs.StoredMoves.{move_of, moves_stored};
ghost use Rattle.lrambiguity.specs.Parts.{Derives, IsFilled, StandsIn};
ghost use Rattle.lrreasons.specs.Ambiguities.{IsPart};
ghost use Rattle.lrreasons.specs.Parts.{ways_of, moves_of_all, FillsOn};

use crate::places::texts_of;
use lrambiguity::{Move, Written, reads_as};
use lrforms::{Form, Sentence, Ways};
use lrgrammar::grammar::YaccGrammar;
use lrgrammar::idx::Symbol;
use std::alloc::{AllocError, Global};

/// Whether each of the symbols derives its text by its moves.
fn are_derived(
    alloc: Global,
    grm: &YaccGrammar<u32>,
    symbols: &[Symbol<u32>],
    texts: &[Written<u32>],
) -> Result<bool, AllocError>
    ensures { IfOk result (λ derived. IsTrue derived
        → AllZip (Derives grm.now) (map (symbol_of number_of) symbols.now) (moves_of_all texts.now)) }
{
    if symbols.len() != texts.len() {
        return Ok(false);
    }
    for (symbol, text) in symbols.iter().zip(texts) {
        if !reads_as(alloc, grm, &[*symbol], text)? {
            return Ok(false);
        }
    }
    Ok(true)
}

/// Moves with the moves of texts in the places of their shifts.
#[derive(Drop)]
struct Filling {
    moves: Vec<Move<u32>>,
    /// How many texts are used.
    used: usize,
}

impl Filling {
    /// Adds a move, or where it is a shift the moves of the next text; false where there is none left.
    fn add(&mut self, texts: &[Written<u32>], action: Move<u32>) -> Result<bool, AllocError>
        ensures { IfOk result (λ added. IsTrue added
            → FillsOn texts.now (move_of number_of action) self.old self.new) }
    {
        match action {
            Move::Reduce(_) => self.moves.push(action)?,
            Move::Shift => {
                let Some(text) = texts.get(self.used) else {
                    return Ok(false);
                };
                self.moves.extend_from_slice(text.moves.as_slice())?;
                self.used += 1;
            }
        }
        Ok(true)
    }
}

/// The moves, with those of the texts in the places of their shifts; None unless there are as many.
fn filled(
    alloc: Global,
    moves: &[Move<u32>],
    texts: &[Written<u32>],
) -> Result<Option<Vec<Move<u32>>>, AllocError>
    ensures { IfOk result (λ o. IfSome o (λ v. IsFilled (moves_of_all texts.now)
        (moves_stored number_of moves.now) (moves_stored number_of v.items))) }
{
    let mut filling = Filling {
        moves: Vec::new(alloc),
        used: 0,
    };
    for action in moves {
        if !filling.add(texts, *action)? {
            return Ok(None);
        }
    }
    if filling.used == texts.len() {
        Ok(Some(filling.moves))
    } else {
        Ok(None)
    }
}

/// Whether the ways of the sentence are those of a part of it, between the same moves before and behind these.
fn stands_in(part: &Ways, sentence: &Ways) -> bool
    ensures { IsTrue result → StandsIn (ways_of part.now) (ways_of sentence.now) }
{
    let before = sentence.before.as_slice();
    let one = sentence.first.as_slice();
    let other = sentence.second.as_slice();
    match (
        before.strip_suffix(part.before.as_slice()),
        one.strip_prefix(part.first.as_slice()),
        other.strip_prefix(part.second.as_slice()),
    ) {
        (Some(_), Some(rest), Some(same)) => rest == same,
        _ => false,
    }
}

/// The ways of a form, with the moves of these texts in the places of its symbols, of which so many stand before the dot.
fn ways_filled(
    alloc: Global,
    form: &Ways,
    left: &[Written<u32>],
    right: &[Written<u32>],
) -> Result<Option<Ways>, AllocError>
    ensures before { IfOk result (λ o. IfSome o (λ w. IsFilled (moves_of_all left.now)
        (ways_of form.now).before (ways_of w).before)) }
    ensures one { IfOk result (λ o. IfSome o (λ w. IsFilled (moves_of_all right.now)
        (ways_of form.now).one (ways_of w).one)) }
    ensures other { IfOk result (λ o. IfSome o (λ w. IsFilled (moves_of_all right.now)
        (ways_of form.now).other (ways_of w).other)) }
{
    let Some(before) = filled(alloc, form.before.as_slice(), left)? else {
        return Ok(None);
    };
    let Some(first) = filled(alloc, form.first.as_slice(), right)? else {
        return Ok(None);
    };
    let Some(second) = filled(alloc, form.second.as_slice(), right)? else {
        return Ok(None);
    };
    Ok(Some(Ways {
        before,
        first,
        second,
    }))
}

/// Whether the form is a part of the sentence.
pub(crate) fn is_part(
    alloc: Global,
    grm: &YaccGrammar<u32>,
    form: &Form,
    sentence: &Sentence,
) -> Result<bool, AllocError>
    ensures { IfOk result (λ is. IsTrue is
        → IsPart grm.now form.now (ways_of sentence.now.ways)) }
{
    let texts = texts_of(alloc, grm, form, sentence)?;
    let texts = texts.as_slice();
    if form.dot > texts.len() || !are_derived(alloc, grm, form.symbols.as_slice(), texts)? {
        return Ok(false);
    }
    let (left, right) = texts.split_at(form.dot);
    match ways_filled(alloc, &form.ways, left, right)? {
        Some(part) => Ok(stands_in(&part, &sentence.ways)),
        None => Ok(false),
    }
}
