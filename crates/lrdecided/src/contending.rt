//! The moves that contend for the cells of a graph.

ghost use Rattle.std.specs.Prelude.{◌≡◌, ◌<◌, length, Contains, IfOk, IsTrue, OnOk, is_some};
ghost use Rattle.lrspec.specs.grammars.Grammar.{Token, body_of};
ghost use Rattle.lrspec.specs.merging.Graph.{closed_of, edge};
ghost use Rattle.lrbits.specs.Bits.{bit};
ghost use Rattle.lrconflicts.specs.Moves.{Reduce};
ghost use Rattle.lrconflicts.specs.StoredMoves.{moves_stored};
ghost use Rattle.lrgrammar.specs.Symbols.{number_of};
ghost use Rattle.lrdecided.specs.Contenders.{complete_of, completes_of, HasCompletes, KeepsCompletes, KeepsMoves, HasReductions, HasContenders};

use lrconflicts::Move;
use lrgrammar::grammar::YaccGrammar;
use lrgrammar::idx::{PIdx, SIdx, StIdx, Symbol, TIdx};
use lrgraphs::stategraph::StateGraph;
use lritems::itemset::Ctx;
use std::alloc::AllocError;

/// A complete item of a state.
#[derive(Clone, Copy)]
pub struct Complete<'a> {
    /// Its production.
    production: PIdx<u32>,
    /// The tokens at which it looks.
    tokens: &'a Ctx,
}

impl Complete<'_> {
    /// Whether it looks at the token.
    fn looks_at(&self, token: TIdx<u32>) -> bool
        ensures { IsTrue (bit self.now.tokens.now token.0) → IsTrue result }
    {
        let place = usize::from(token);
        place < self.tokens.len() && self.tokens.get(place)
    }
}

/// Whether the item is not complete.
fn goes_on(grm: &YaccGrammar<u32>, item: (PIdx<u32>, SIdx<u32>)) -> bool
    ensures { IsTrue result → item.1.0 < length (body_of grm.now item.0.0) }
{
    usize::from(item.0) < usize::from(grm.prods_len())
        && usize::from(item.1) < usize::from(grm.prod_len(item.0))
}

/// Adds the item, if it is complete.
fn add_complete<'a>(
    completes: &mut Vec<Complete<'a>>,
    grm: &YaccGrammar<u32>,
    item: (PIdx<u32>, SIdx<u32>),
    tokens: &'a Ctx,
) -> Result<(), AllocError>
    ensures kept { OnOk result (KeepsCompletes (completes_of completes.old.items)
        (completes_of completes.new.items)) }
    ensures added { OnOk result (item.1.0 ≡ length (body_of grm.now item.0.0)
        → Contains (completes_of completes.new.items) (item.0.0, tokens.now)) }
{
    if goes_on(grm, item) {
        return Ok(());
    }
    completes.push(Complete {
        production: item.0,
        tokens,
    })?;
    Ok(())
}

/// The complete items of the state.
pub fn completes<'a>(
    grm: &YaccGrammar<u32>,
    graph: &'a StateGraph<u32>,
    state: StIdx<u32>,
) -> Result<Vec<Complete<'a>>, AllocError>
    requires { state.0 < length graph.now }
    ensures { IfOk result (λ v. HasCompletes grm.now
        (closed_of graph.entry.now state.0) (completes_of v.items)) }
{
    let mut completes = Vec::new(grm.allocator());
    for (key, tokens) in &graph.closed_state(state).items {
        add_complete(&mut completes, grm, *key, tokens)?;
    }
    Ok(completes)
}

/// Adds the reduction by the complete item, if that looks at the token.
fn add_reduction(
    moves: &mut Vec<Move<u32>>,
    complete: &Complete<'_>,
    token: TIdx<u32>,
) -> Result<(), AllocError>
    ensures kept { OnOk result (KeepsMoves (moves_stored number_of moves.old.items)
        (moves_stored number_of moves.new.items)) }
    ensures added { OnOk result (IsTrue (bit complete.now.tokens.now token.0)
        → Contains (moves_stored number_of moves.new.items)
        (Reduce complete.now.production.0)) }
{
    if !complete.looks_at(token) {
        return Ok(());
    }
    moves.push(Move::Reduce(complete.production))?;
    Ok(())
}

/// The reductions by those of the complete items that look at the token.
fn reductions(
    grm: &YaccGrammar<u32>,
    completes: &[Complete<'_>],
    token: TIdx<u32>,
) -> Result<Vec<Move<u32>>, AllocError>
    ensures { IfOk result (λ v. HasReductions (completes_of completes.now)
        token.0 (moves_stored number_of v.items)) }
{
    let mut moves = Vec::new(grm.allocator());
    for complete in completes {
        add_reduction(&mut moves, complete, token)?;
    }
    Ok(moves)
}

/// Whether the state shifts the token.
fn shifts(graph: &StateGraph<u32>, state: StIdx<u32>, token: TIdx<u32>) -> bool
    ensures { result ≡ is_some (edge graph.now state.0 (Token token.0)) }
{
    graph.edge(state, Symbol::Token(token)).is_some()
}

/// The moves that contend for the cell of the state, which has these complete items, and the token.
pub fn contenders(
    grm: &YaccGrammar<u32>,
    graph: &StateGraph<u32>,
    state: StIdx<u32>,
    completes: &[Complete<'_>],
    token: TIdx<u32>,
) -> Result<Vec<Move<u32>>, AllocError>
    requires { HasCompletes grm.now (closed_of graph.now state.0) (completes_of completes.now) }
    ensures { IfOk result (λ v. HasContenders grm.now graph.now state.0
        token.0 (moves_stored number_of v.items)) }
{
    let mut moves = reductions(grm, completes, token)?;
    if !shifts(graph, state, token) {
        return Ok(moves);
    }
    moves.push(Move::Shift)?;
    Ok(moves)
}
