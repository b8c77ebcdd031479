//! Whether no two ways stand as a node says.

ghost use Rattle.std.specs.Prelude.{◌≡◌, ◌≢◌, ℕ, List, [], Some, IsTrue, IfOk, IfSome};
ghost use Rattle.lrspec.specs.grammars.Grammar as math;
ghost use Rattle.lrgrammar.specs.Firsts.{AreFirstsOf};
ghost use Rattle.lrdecided.specs.Agreements.{Spends};
ghost use Rattle.lrdecided.specs.Beginnings.{BeginsWithin, HasMore, node_with};
ghost use Rattle.lrdecided.specs.Nodes as nodes;
ghost use Rattle.lrdecided.specs.Rules.{CannotBegin, IsAtEnd, IsImpossible};
ghost use Rattle.lrdecided.specs.StoredNodes.{symbols_of, states_of, next_of, side_of, node_of};

use crate::beginnings::beginning;
use crate::nodes::{Node, Side};
use lrgrammar::firsts::YaccFirsts;
use lrgrammar::grammar::YaccGrammar;
use lrgrammar::idx::{StIdx, TIdx};
use lrgrammar::vob::Vob;
use std::alloc::AllocError;

/// In how many tokens the texts agree behind the next one; None where they need not agree in that.
pub(crate) fn spent(left: Option<usize>) -> Option<Option<usize>>
    ensures { IfSome result (λ l. Spends left l) }
{
    match left {
        None => Some(None),
        Some(number) => {
            if number == 0 {
                return None;
            }
            Some(Some(number - 1))
        }
    }
}

/// Whether the texts agree in a token more.
fn has_more(left: Option<usize>) -> bool
    ensures { IsTrue result → HasMore left }
{
    match spent(left) {
        Some(_behind) => true,
        None => false,
    }
}

/// Whether symbols that begin so can't begin with the token.
fn cannot_begin(tokens: &Option<Vob>, token: usize) -> bool
    ensures { IsTrue result → (g : math.Grammar) (y : List math.Symbol)
        → IfSome tokens.now (BeginsWithin g y) → CannotBegin g y token }
{
    match tokens {
        Some(tokens) => token < tokens.len() && !tokens.get(token),
        None => false,
    }
}

/// Whether symbols that begin so have no token in common with which they begin.
fn are_apart(one: &Option<Vob>, other: &Option<Vob>, left: Option<usize>) -> bool
    ensures { IsTrue result → (g : math.Grammar) (a : nodes.Node)
        → IfSome one.now (BeginsWithin g a.one.symbols)
        → IfSome other.now (BeginsWithin g a.other.symbols)
        → a.left ≡ left → IsImpossible g a }
{
    let Some(one) = one else {
        return false;
    };
    let Some(other) = other else {
        return false;
    };
    if !has_more(left) {
        return false;
    }
    if one.len() != other.len() {
        return false;
    }
    !one.intersects(other)
}

/// Whether the side is at the beginning of the start item, and nothing comes any more.
fn is_at_end(grm: &YaccGrammar<u32>, side: &Side) -> bool
    ensures { IsTrue result → IsAtEnd grm.now (side_of side.now) }
{
    usize::from(side.production) == usize::from(grm.start_prod())
        && usize::from(side.dot) == 0
        && side.symbols.is_empty()
        && !side.is_cut
}

/// Whether the token that comes next is known, and symbols that begin so can't begin with it.
fn cannot_go_on(tokens: &Option<Vob>, next: Option<TIdx<u32>>) -> bool
    ensures { IsTrue result → (g : math.Grammar) (a : nodes.Node)
        → IfSome tokens.now (BeginsWithin g a.one.symbols)
        → a.next ≡ next_of next → IsImpossible g a }
{
    match next {
        Some(token) => cannot_begin(tokens, usize::from(token)),
        None => false,
    }
}

/// Whether the token that comes next is known, and is another one.
fn is_another(next: Option<TIdx<u32>>, token: usize) -> bool
    ensures { IsTrue result → (t : ℕ) × (next_of next ≡ Some t) × (t ≢ token) }
{
    match next {
        Some(known) => usize::from(known) != token,
        None => false,
    }
}

/// Whether the one way can't go on with the next token, or is at the end of its text where the other isn't.
fn is_refused(
    grm: &YaccGrammar<u32>,
    one: &Side,
    tokens: &Option<Vob>,
    others: &Option<Vob>,
    next: Option<TIdx<u32>>,
    left: Option<usize>,
) -> bool
    ensures { IsTrue result → (y : nodes.Side) (states : List ℕ)
        → IfSome tokens.now (BeginsWithin grm.now (side_of one.now).symbols)
        → IfSome others.now (BeginsWithin grm.now y.symbols)
        → IsImpossible grm.now
        (node_with (side_of one.now) y states (next_of next) left) }
{
    if cannot_go_on(tokens, next) {
        return true;
    }
    if !is_at_end(grm, one) {
        return false;
    }
    let end = usize::from(grm.eof_token_idx());
    if has_more(left) && cannot_begin(others, end) {
        return true;
    }
    is_another(next, end)
}

/// Whether there are no states.
fn is_nowhere(states: &[StIdx<u32>]) -> bool
    ensures { IsTrue result → states_of states.now ≡ [] }
{
    states.is_empty()
}

/// Whether no two ways stand as the node says, as far as can be told by what they begin with.
fn is_impossible_by(
    grm: &YaccGrammar<u32>,
    node: &Node,
    one: &Option<Vob>,
    other: &Option<Vob>,
) -> bool
    requires one { IfSome one.now (BeginsWithin grm.now (symbols_of node.now.one.symbols.items)) }
    requires other { IfSome other.now
        (BeginsWithin grm.now (symbols_of node.now.other.symbols.items)) }
    ensures { IsTrue result → IsImpossible grm.now (node_of node.now) }
{
    if is_nowhere(node.states.as_slice()) {
        return true;
    }
    if are_apart(one, other, node.left) {
        return true;
    }
    if is_refused(grm, &node.one, one, other, node.next, node.left) {
        return true;
    }
    is_refused(grm, &node.other, other, one, node.next, node.left)
}

/// Whether no two ways stand as the node says, as far as can be told.
pub(crate) fn is_impossible(
    grm: &YaccGrammar<u32>,
    firsts: &YaccFirsts<u32>,
    node: &Node,
) -> Result<bool, AllocError>
    requires { AreFirstsOf grm.now firsts.now }
    ensures { IfOk result (λ b. IsTrue b → IsImpossible grm.now (node_of node.now)) }
{
    let one = beginning(grm, firsts, node.one.symbols.as_slice())?;
    let other = beginning(grm, firsts, node.other.symbols.as_slice())?;
    Ok(is_impossible_by(grm, node, &one, &other))
}
