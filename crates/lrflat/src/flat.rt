//! The table of a grammar as one list of numbers.

ghost use Rattle.std.specs.Prelude.{◌≡◌, ◌++◌, ◌∷◌, [], length, IfOk, OnOk, option_map};
ghost use Rattle.std.specs.List.{flat_map, range_with_len};
ghost use Rattle.lrrows.specs.StoredActions.{stored_action};
ghost use Rattle.lrflat.specs.Flat.{action_number, goto_number, action_row, goto_row, production_pair, flat};

use lrgrammar::grammar::YaccGrammar;
use lrgrammar::idx::{IndexStorage, PIdx, RIdx, StIdx, TIdx};
use lrtable::{Action, StateTable};

/// Why a table is not flattened.
#[derive(Clone, Copy, Debug, PartialEq, Eq, thiserror::Error)]
pub enum FlatError {
    /// A number is past 32 bits.
    #[error("the table is too large")]
    TooLarge,
    /// Memory was refused.
    #[error("out of memory")]
    Memory,
}

/// The number of what a cell says.
fn number_of_action<T: IndexStorage>(action: Action<T>) -> Result<usize, FlatError>
    ensures { IfOk result (λ n. n ≡ action_number (stored_action T.number action)) }
{
    let (index, kind) = match action {
        Action::Error => return Ok(0),
        Action::Accept => return Ok(1),
        Action::Shift(state) => (usize::from(state), 2),
        Action::Reduce(production) => (usize::from(production), 3),
    };
    if index > (usize::MAX - 3) / 2 {
        return Err(FlatError::TooLarge);
    }
    Ok(2 * index + kind)
}

/// The number of where a rule leads.
fn number_of_goto<T: IndexStorage>(state: Option<StIdx<T>>) -> Result<usize, FlatError>
    ensures { IfOk result (λ n. n ≡ goto_number (option_map (λ s. T.number s.0) state)) }
{
    let Some(state) = state else {
        return Ok(0);
    };
    match usize::from(state).checked_add(1) {
        Some(number) => Ok(number),
        None => Err(FlatError::TooLarge),
    }
}

/// Adds a number, if it has 32 bits at most.
fn push(flat: &mut Vec<u32>, number: usize) -> Result<(), FlatError>
    ensures { OnOk result (flat.new.items ≡ flat.old.items ++ number ∷ []) }
{
    match u32::try_from(number) {
        Ok(number) => match flat.push(number) {
            Ok(()) => Ok(()),
            Err(_) => Err(FlatError::Memory),
        },
        Err(_) => Err(FlatError::TooLarge),
    }
}

/// Adds what a state does on each token.
fn push_actions<T: IndexStorage>(
    flat: &mut Vec<u32>,
    table: &StateTable<T>,
    state: StIdx<T>,
    tokens: usize,
) -> Result<(), FlatError>
    ensures { OnOk result (flat.new.items
        ≡ flat.old.items ++ action_row table.now tokens (T.number state.0)) }
{
    for token in 0..tokens {
        let Some(token) = T::from_usize(token) else {
            return Err(FlatError::TooLarge);
        };
        push(flat, number_of_action(table.action(state, TIdx(token)))?)?;
    }
    Ok(())
}

/// Adds where each rule leads from a state.
fn push_gotos<T: IndexStorage>(
    flat: &mut Vec<u32>,
    table: &StateTable<T>,
    state: StIdx<T>,
    rules: usize,
) -> Result<(), FlatError>
    ensures { OnOk result (flat.new.items
        ≡ flat.old.items ++ goto_row table.now rules (T.number state.0)) }
{
    for rule in 0..rules {
        let Some(rule) = T::from_usize(rule) else {
            return Err(FlatError::TooLarge);
        };
        push(flat, number_of_goto(table.goto(state, RIdx(rule)))?)?;
    }
    Ok(())
}

/// Adds what each of the states does on each token.
fn push_all_actions<T: IndexStorage>(
    flat: &mut Vec<u32>,
    table: &StateTable<T>,
    states: usize,
    tokens: usize,
) -> Result<(), FlatError>
    ensures { OnOk result (flat.new.items
        ≡ flat.old.items ++ flat_map (action_row table.now tokens) (range_with_len 0 states)) }
{
    for state in 0..states {
        let Some(state) = T::from_usize(state) else {
            return Err(FlatError::TooLarge);
        };
        push_actions(flat, table, StIdx(state), tokens)?;
    }
    Ok(())
}

/// Adds where each rule leads from each of the states.
fn push_all_gotos<T: IndexStorage>(
    flat: &mut Vec<u32>,
    table: &StateTable<T>,
    states: usize,
    rules: usize,
) -> Result<(), FlatError>
    ensures { OnOk result (flat.new.items
        ≡ flat.old.items ++ flat_map (goto_row table.now rules) (range_with_len 0 states)) }
{
    for state in 0..states {
        let Some(state) = T::from_usize(state) else {
            return Err(FlatError::TooLarge);
        };
        push_gotos(flat, table, StIdx(state), rules)?;
    }
    Ok(())
}

/// Adds the rule of each production, and how many symbols its body has.
fn push_productions<T: IndexStorage>(
    flat: &mut Vec<u32>,
    grm: &YaccGrammar<T>,
) -> Result<(), FlatError>
    ensures { OnOk result (flat.new.items ≡ flat.old.items
        ++ flat_map (production_pair grm.now) (range_with_len 0 (length grm.now.productions))) }
{
    for production in 0..usize::from(grm.prods_len()) {
        let Some(production) = T::from_usize(production) else {
            return Err(FlatError::TooLarge);
        };
        let production = PIdx(production);
        push(flat, usize::from(grm.prod_to_rule(production)))?;
        push(flat, usize::from(grm.prod_len(production)))?;
    }
    Ok(())
}

/// The table of a grammar with so many states as one list of numbers. First come how many states, tokens, rules and productions
/// there are; then for each state what it does on each token: 0 for an error, 1 to accept, 2 s + 2 to shift to the state s, and
/// 2 p + 3 to reduce by the production p; then for each state where each rule leads, 0 for nowhere and s + 1 for the state s; and
/// for each production its rule, and how many symbols its body has. `TooLarge` where a number has more than 32 bits.
pub fn flat_table<T: IndexStorage>(
    grm: &YaccGrammar<T>,
    table: &StateTable<T>,
    states: usize,
) -> Result<Vec<u32>, FlatError>
    requires { states ≡ length table.now.actions }
    ensures { IfOk result (λ v. v.items ≡ flat grm.now table.now) }
{
    let (tokens, rules) = (usize::from(grm.tokens_len()), usize::from(grm.rules_len()));
    let mut flat = Vec::new(grm.allocator());
    push(&mut flat, states)?;
    push(&mut flat, tokens)?;
    push(&mut flat, rules)?;
    push(&mut flat, usize::from(grm.prods_len()))?;
    push_all_actions(&mut flat, table, states, tokens)?;
    push_all_gotos(&mut flat, table, states, rules)?;
    push_productions(&mut flat, grm)?;
    Ok(flat)
}
