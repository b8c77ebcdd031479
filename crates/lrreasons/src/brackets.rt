//! Trees of forms in brackets.

ghost use Rattle.std.specs.Prelude.{◌≡◌, ℕ, ◌-◌, List, ◌++◌, fold, length, map, take, drop, IfOk, OnOk};
ghost use Rattle.std.specs.String.{string_bytes};
ghost use Rattle.lrconflicts.specs.Moves as plain;
ghost use Rattle.lrconflicts.specs.StoredMoves.{moves_stored};
ghost use Rattle.lrreasons.specs.Brackets.{joined, opened, closed, leaf, next_row, bracketed_words};
ghost use Rattle.lrreasons.specs.StoredForms.{trees_of, row_of, form_words};
ghost use Rattle.lrgrammar.specs.Symbols.{number_of};

use crate::names::{body, name_of_rule};
use crate::words::{push_word, symbol_word};
use lrambiguity::Move;
use lrforms::Form;
use lrgrammar::grammar::YaccGrammar;
use lrgrammar::idx::PIdx;
use std::alloc::{AllocError, Global};

/// Trees in a row, in the making.
#[derive(Drop)]
struct Row {
    /// The words of each.
    trees: Vec<Vec<String>>,
    /// How many symbols of the form they have.
    used: usize,
}

/// Takes the last trees off the others, so many of them, and joins their words.
fn take_last(
    alloc: Global,
    trees: &mut Vec<Vec<String>>,
    count: usize,
) -> Result<Vec<String>, AllocError>
    ensures words { IfOk result (λ ws. map string_bytes ws.items
        ≡ joined (drop (length trees.old.items - count) (trees_of trees.old.items))) }
    ensures left { OnOk result (trees_of trees.new.items
        ≡ take (length trees.old.items - count) (trees_of trees.old.items)) }
{
    let mut words = Vec::new(alloc);
    for _ in 0..count {
        if let Some(mut tree) = trees.pop() {
            tree.append(&mut words)?;
            words = tree;
        }
    }
    Ok(words)
}

/// Puts a name and an opening bracket before words.
fn open(words: &mut Vec<String>, name: &str) -> Result<(), AllocError>
    ensures { OnOk result (map string_bytes words.new.items
        ≡ opened name.now (map string_bytes words.old.items)) }
{
    let alloc = *words.allocator();
    let Some(first) = words.first() else {
        words.push(format!(in alloc; "{name}(")?)?;
        return Ok(());
    };
    let word = format!(in alloc; "{name}({first}")?;
    words[0] = word;
    Ok(())
}

/// Puts a closing bracket behind words.
fn close(words: &mut Vec<String>) -> Result<(), AllocError>
    ensures { OnOk result (map string_bytes words.new.items
        ≡ closed (map string_bytes words.old.items)) }
{
    if let Some(mut last) = words.pop() {
        last.push_str(")")?;
        words.push(last)?;
    }
    Ok(())
}

/// The words of a leaf: a symbol, behind the dot where that stands before it.
fn words_of_leaf(
    grm: &YaccGrammar<u32>,
    form: &Form,
    place: usize,
) -> Result<Vec<String>, AllocError>
    ensures { IfOk result (λ ws. map string_bytes ws.items
        ≡ leaf form.now.dot (form_words grm.now form.now) place) }
{
    let mut words = Vec::new(grm.allocator());
    if place == form.dot {
        push_word(&mut words, ".")?;
    }
    if let Some(symbol) = form.symbols.get(place) {
        words.push(symbol_word(grm, *symbol)?)?;
    }
    Ok(words)
}

impl Row {
    /// Adds a leaf of the form's next symbol.
    fn shift(&mut self, grm: &YaccGrammar<u32>, form: &Form) -> Result<(), AllocError>
        ensures { OnOk result (row_of self.new ≡ next_row grm.now form.now.dot
            (form_words grm.now form.now) (row_of self.old) plain.Shift) }
    {
        self.trees.push(words_of_leaf(grm, form, self.used)?)?;
        self.used = self.used.saturating_add(1).min(form.symbols.len());
        Ok(())
    }

    /// Puts a node of the production over the last trees.
    fn reduce(&mut self, grm: &YaccGrammar<u32>, production: PIdx<u32>) -> Result<(), AllocError>
        ensures { OnOk result ((d : ℕ) (ws : List (List ℕ)) → row_of self.new
            ≡ next_row grm.now d ws (row_of self.old) (plain.Reduce production.0)) }
    {
        let count = body(grm, production).len();
        let mut words = take_last(grm.allocator(), &mut self.trees, count)?;
        open(&mut words, name_of_rule(grm, production))?;
        close(&mut words)?;
        self.trees.push(words)?;
        Ok(())
    }

    /// Makes moves.
    fn make(
        &mut self,
        grm: &YaccGrammar<u32>,
        form: &Form,
        moves: &[Move<u32>],
    ) -> Result<(), AllocError>
        ensures { OnOk result (row_of self.new
            ≡ fold (next_row grm.now form.now.dot (form_words grm.now form.now))
            (row_of self.old) (moves_stored number_of moves.now)) }
    {
        for action in moves {
            match action {
                Move::Shift => self.shift(grm, form)?,
                Move::Reduce(production) => self.reduce(grm, *production)?,
            }
        }
        Ok(())
    }
}

/// The tree that one of a form's ways makes of it, as `E(E(E '+' E) . '+' E)`: these are its moves from the dot on.
pub(crate) fn bracketed(
    grm: &YaccGrammar<u32>,
    form: &Form,
    moves: &[Move<u32>],
) -> Result<Vec<String>, AllocError>
    ensures { IfOk result (λ ws. map string_bytes ws.items
        ≡ bracketed_words grm.now form.now.dot (form_words grm.now form.now)
        (moves_stored number_of form.now.ways.before.items ++ moves_stored number_of moves.now)) }
{
    let mut row = Row {
        trees: Vec::new(grm.allocator()),
        used: 0,
    };
    row.make(grm, form, form.ways.before.as_slice())?;
    row.make(grm, form, moves)?;
    let count = row.trees.len();
    let mut words = take_last(grm.allocator(), &mut row.trees, count)?;
    if form.symbols.len() <= form.dot {
        push_word(&mut words, ".")?;
    }
    Ok(words)
}
