//! What is below a state on stacks that lead to it.

ghost use Rattle.std.specs.Prelude.{◌≡◌, ◌∷◌, IfOk, IfSome, OnOk};
ghost use Rattle.lrgrammar.specs.Symbols.{number_of, symbol_of};
ghost use Rattle.lrsearches.specs.StoredWays.{row_of, AreIncoming};
ghost use Rattle.lrexchange.specs.Asked.{AreStepsBack, KeepsBelows, HasSteps, AreBelow};
ghost use Rattle.lrexchange.specs.StoredPositions.{symbols_of, belows_of};

use lrgrammar::grammar::YaccGrammar;
use lrgrammar::idx::{StIdx, Symbol};
use lrgraphs::stategraph::StateGraph;
use std::alloc::{AllocError, Global};

/// At how many states what is below another one is looked at, and no more.
const MOST: usize = 400;

/// A state, and the symbols above it that lead to another one.
#[derive(Drop)]
pub struct Below {
    /// The state.
    pub state: StIdx<u32>,
    /// The symbols.
    pub symbols: Vec<Symbol<u32>>,
}

/// The step back over the edge, with these symbols above.
fn step_over_edge(
    alloc: Global,
    edge: (Symbol<u32>, StIdx<u32>),
    symbols: &[Symbol<u32>],
) -> Result<Below, AllocError>
    ensures state { IfOk result (λ b. b.state.0 ≡ edge.1.0) }
    ensures symbols { IfOk result (λ b. symbols_of b.symbols.items
        ≡ symbol_of number_of edge.0 ∷ symbols_of symbols.now) }
{
    let mut all = Vec::with_capacity(alloc, symbols.len().saturating_add(1))?;
    all.push(edge.0)?;
    all.extend_from_slice(symbols)?;
    Ok(Below {
        state: edge.1,
        symbols: all,
    })
}

/// Adds the steps back over the edges, with these symbols above.
fn add_steps(
    belows: &mut Vec<Below>,
    alloc: Global,
    row: &[(Symbol<u32>, StIdx<u32>)],
    symbols: &[Symbol<u32>],
) -> Result<(), AllocError>
    ensures kept { OnOk result (KeepsBelows (belows_of belows.old.items)
        (belows_of belows.new.items)) }
    ensures added { OnOk result (HasSteps (row_of number_of row.now)
        (symbols_of symbols.now) (belows_of belows.new.items)) }
{
    for edge in row {
        let step = step_over_edge(alloc, *edge, symbols)?;
        belows.push(step)?;
    }
    Ok(())
}

/// A step back from each; None where one is the start state.
fn steps_back(
    grm: &YaccGrammar<u32>,
    graph: &StateGraph<u32>,
    incoming: &[Vec<(Symbol<u32>, StIdx<u32>)>],
    belows: &[Below],
) -> Result<Option<Vec<Below>>, AllocError>
    requires { AreIncoming number_of graph.now incoming.now }
    ensures { IfOk result (λ o. IfSome o (λ v. AreStepsBack graph.now
        (belows_of belows.now) (belows_of v.items))) }
{
    let count = usize::from(graph.all_states_len());
    let mut steps = Vec::new(grm.allocator());
    for below in belows {
        let place = usize::from(below.state);
        if place == 0 || place >= count {
            return Ok(None);
        }
        let row = incoming[place].as_slice();
        add_steps(&mut steps, grm.allocator(), row, below.symbols.as_slice())?;
    }
    Ok(Some(steps))
}

/// What is below the state as many steps back; None where the start state is met before, or these are too many.
pub(crate) fn all_below(
    grm: &YaccGrammar<u32>,
    graph: &StateGraph<u32>,
    incoming: &[Vec<(Symbol<u32>, StIdx<u32>)>],
    state: StIdx<u32>,
    count: usize,
) -> Result<Option<Vec<Below>>, AllocError>
    requires { AreIncoming number_of graph.now incoming.now }
    ensures { IfOk result (λ o. IfSome o (λ v. AreBelow graph.now state.0 (belows_of v.items))) }
{
    let mut belows = Vec::new(grm.allocator());
    belows.push(Below {
        state,
        symbols: Vec::new(grm.allocator()),
    })?;
    for _ in 0..count {
        let Some(steps) = steps_back(grm, graph, incoming, belows.as_slice())? else {
            return Ok(None);
        };
        if steps.len() > MOST {
            return Ok(None);
        }
        belows = steps;
    }
    Ok(Some(belows))
}
