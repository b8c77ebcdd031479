//! Derivations of symbols, checked by their moves.

ghost use Rattle.std.specs.Prelude.{◌≡◌, ℕ, ◌≤◌, false, List, [], ◌∷◌, map, length, IfOk, IsTrue, ◌↔◌};
ghost use Rattle.lrspec.specs.grammars.Grammar as math;
ghost use Rattle.lrspec.specs.grammars.Grammar.{Grammar};
ghost use Rattle.lrgrammar.specs.declared.idx.Symbol as stored;
ghost use Rattle.lrgrammar.specs.Symbols.{symbol_of};
ghost use Rattle.lrambiguity.specs.Derivations.{IsDerivedBy};
ghost use Rattle.lrconflicts.specs.Moves as plain;
ghost use Rattle.lrambiguity.specs.StoredFolds.{stack_of, HasFolded, FoldsOn, CannotFold};
ghost use Rattle.lrconflicts.specs.StoredMoves.{move_of, moves_stored};

use lrconflicts::Move;
use lrgrammar::grammar::YaccGrammar;
use lrgrammar::idx::{IndexStorage, PIdx, RIdx, Symbol};
use std::alloc::{AllocError, Global};

/// Whether the rule is the only symbol of the list.
fn is_alone<T: IndexStorage>(list: &[Symbol<T>], rule: RIdx<T>) -> bool
    ensures { IsTrue result
        ↔ (map (symbol_of T.number) list.now ≡ math.Rule (T.number rule.0) ∷ []) }
{
    list.len() == 1 && list[0] == Symbol::Rule(rule)
}

/// What moves have made of symbols.
#[derive(Drop)]
struct Fold<T> {
    /// The symbols that were read, folded.
    stack: Vec<Symbol<T>>,
    /// How many were read.
    used: usize,
}

impl<T: IndexStorage> Fold<T> {
    /// No moves made.
    fn new(alloc: Global) -> Fold<T>
        ensures folded { (g : Grammar) (symbols : List (stored.Symbol T))
            → HasFolded T.number g symbols [] result }
        ensures stack { stack_of T.number result ≡ [] }
        ensures used { result.used ≡ 0 }
    {
        Fold {
            stack: Vec::new(alloc),
            used: 0,
        }
    }

    /// Puts the next symbol on the stack; false where none is left.
    fn shift(&mut self, symbols: &[Symbol<T>]) -> Result<bool, AllocError>
        ensures made { IfOk result (λ made. IsTrue made → (g : Grammar)
            → FoldsOn T.number g symbols.now plain.Shift self.old self.new) }
        ensures stuck { IfOk result (λ made. made ≡ false → (g : Grammar)
            → CannotFold T.number g symbols.now plain.Shift self.old) }
    {
        let Some(symbol) = symbols.get(self.used) else {
            return Ok(false);
        };
        self.stack.push(*symbol)?;
        self.used += 1;
        Ok(true)
    }

    /// Puts the rule of the production in the place of its body; false where the stack doesn't end with that, or there is no
    /// such production.
    fn reduce(&mut self, grm: &YaccGrammar<T>, pidx: PIdx<T>) -> Result<bool, AllocError>
        ensures made { IfOk result (λ made. IsTrue made → (symbols : List (stored.Symbol T))
            → FoldsOn T.number grm.now symbols (plain.Reduce (T.number pidx.0)) self.old self.new) }
        ensures stuck { IfOk result (λ made. made ≡ false → (symbols : List (stored.Symbol T))
            → CannotFold T.number grm.now symbols (plain.Reduce (T.number pidx.0)) self.old) }
    {
        if usize::from(pidx) >= usize::from(grm.prods_len()) {
            return Ok(false);
        }
        let body = grm.prod(pidx);
        if !self.stack.ends_with(body) {
            return Ok(false);
        }
        self.stack.truncate(self.stack.len() - body.len());
        self.stack.push(Symbol::Rule(grm.prod_to_rule(pidx)))?;
        Ok(true)
    }

    /// Makes the move; false where it can't be made.
    fn make(
        &mut self,
        grm: &YaccGrammar<T>,
        symbols: &[Symbol<T>],
        action: Move<T>,
    ) -> Result<bool, AllocError>
        ensures made { IfOk result (λ made. IsTrue made
            → FoldsOn T.number grm.now symbols.now (move_of T.number action) self.old self.new) }
        ensures stuck { IfOk result (λ made. made ≡ false
            → CannotFold T.number grm.now symbols.now (move_of T.number action) self.old) }
    {
        match action {
            Move::Shift => self.shift(symbols),
            Move::Reduce(pidx) => self.reduce(grm, pidx),
        }
    }

    /// Whether all symbols were read, and the rule is what was made of them.
    fn is_done(&self, symbols: &[Symbol<T>], rule: RIdx<T>) -> bool
        ensures { IsTrue result ↔ ((length symbols.now ≤ self.now.used)
            × (stack_of T.number self.now ≡ math.Rule (T.number rule.0) ∷ [])) }
    {
        self.used >= symbols.len() && is_alone(&self.stack, rule)
    }
}

/// Whether the rule derives the symbols by these moves, where a shift takes the next symbol, be it a token or a rule.
///
/// A reduction puts the rule of its production in the place of its body, and in the end there is the rule alone.
pub fn derives<T: IndexStorage>(
    alloc: Global,
    grm: &YaccGrammar<T>,
    rule: RIdx<T>,
    symbols: &[Symbol<T>],
    moves: &[Move<T>],
) -> Result<bool, AllocError>
    ensures { IfOk result (λ derives. IsTrue derives ↔ IsDerivedBy grm.now (T.number rule.0)
        (map (symbol_of T.number) symbols.now) (moves_stored T.number moves.now)) }
{
    let mut fold = Fold::new(alloc);
    for action in moves {
        if !fold.make(grm, symbols, *action)? {
            return Ok(false);
        }
    }
    Ok(fold.is_done(symbols, rule))
}
