//! What precedences make of the cells in which a shift and reductions meet, and which conflicts they leave open.
//!
//! As Bison does it, each reduction of a cell is tried against the shift, in the order of the productions, as long as the shift
//! stands; a table tries the first one alone. A `%precedence` line says which level is higher, and resolves nothing between its
//! own tokens. A production whose precedence would be that of such a line has the odd level below its tokens, whose level is
//! even: so the table shifts, and both are left.

ghost use Rattle.std.specs.Prelude.{◌≡◌, ◌==◌, ◌++◌, ◌^◌, ◌<◌, ℕ, false, [], filter, length, map, is_some, option_map, option_to_list, Some, slice_index_or, IfOk, OnOk};
ghost use Rattle.std.specs.List.{cons_option, flat_map, list_any, range_with_len};
ghost use Rattle.std.specs.List.Sorted.{IsPermutation};
ghost use Rattle.lrspec.specs.grammars.Grammar as math;
ghost use Rattle.lrspec.specs.grammars.ItemSets.{AreUpwards, Fits};
ghost use Rattle.lrspec.specs.merging.Graph.{closed_of, edge, IsGraphOf};
ghost use Rattle.lrtext.specs.StoredParts.{precedence_of};
ghost use Rattle.lritems.specs.ItemsOf.{set_of};
ghost use Rattle.lrrows.specs.ReadGraphs.{IsReadable};
ghost use Rattle.lrrows.specs.StateRows.{complete_items};
ghost use Rattle.lrverdicts.specs.Listed.{told};
ghost use Rattle.lrgrammar.specs.Symbols.{number_of};
ghost use Rattle.lrfindings.specs.CellConflicts.{outcome_of, leaves_shift, leaves_reduction, decision, shift_stands, reductions_left, decided, resolved_of, resolved_by, resolved_at, resolved_in, conflicts_of, conflicts_by, conflicts_at, conflicts_left, made_by, made_at, reduced_in, reduced_by_states};
ghost use Rattle.lrfindings.specs.ReachedStates.{is_taken_away, IsReached, AreOfReached, AreLeft, AreResolved, is_unreduced, AreNeverReduced};
ghost use Rattle.lrfindings.specs.StoredCells.{outcome_in, resolution, precedence_at, ArePrecedencesOf, complete, looking_at};

use crate::reached::{left_in, reached, reduced_in, resolved_in, unreduced_of};
use crate::useless::{Deciding, UselessPrecedences};
use lrgrammar::grammar::{AssocKind, PartProd, PartSymbol, Precedence, YaccGrammar};
use lrgrammar::idx::{IndexStorage, PIdx, StIdx, Symbol, TIdx};
use lrgrammar::vob::Vob;
use lrgraphs::stategraph::StateGraph;
use lritems::itemset::Itemset;
use lrverdicts::{Entry, place_of};
use lryacc::FileGrammar;
use std::alloc::{AllocError, Global};

/// What precedences have a table do.
#[derive(Clone, Copy, Debug, PartialEq, Eq)]
pub enum Winner {
    /// The token's level is higher, or its kind is `%right`.
    Shift,
    /// The production's level is higher, or its kind is `%left`.
    Reduce,
    /// The levels are equal, and their kind is `%nonassoc`: the token is an error.
    Neither,
}

impl Winner {
    /// The word for it in JSON.
    pub fn word(self) -> &'static str {
        match self {
            Winner::Shift => "shift",
            Winner::Reduce => "reduce",
            Winner::Neither => "neither",
        }
    }
}

/// A shift and a reduction between which precedences decide.
#[derive(Clone, Copy, Debug, PartialEq, Eq)]
pub struct Resolved {
    /// What meets.
    pub entry: Entry,
    /// What is done.
    pub winner: Winner,
}

/// What precedences make of a shift and a reduction.
#[derive(Clone, Copy, PartialEq, Eq)]
pub(crate) enum Outcome {
    /// One wins, or neither.
    Won(Winner),
    /// They are of one `%precedence` line.
    Tie,
    /// One of them has no precedence.
    Open,
}

/// What the precedences of a token and of a production make of the shift and the reduction.
fn compare(token: Option<Precedence>, production: Option<Precedence>) -> Outcome
    ensures { result ≡ outcome_of (option_map precedence_of token)
        (option_map precedence_of production) }
{
    let (Some(shift), Some(reduce)) = (token, production) else {
        return Outcome::Open;
    };
    if reduce.level % 2 == 1 && reduce.level.checked_add(1) == Some(shift.level) {
        return Outcome::Tie;
    }
    Outcome::Won(if reduce.level < shift.level {
        Winner::Shift
    } else if shift.level < reduce.level {
        Winner::Reduce
    } else {
        match shift.kind {
            AssocKind::Left => Winner::Reduce,
            AssocKind::Right => Winner::Shift,
            AssocKind::Nonassoc => Winner::Neither,
        }
    })
}
/// The last token of a body.
pub(crate) fn last_token(prod: &PartProd) -> Option<usize> {
    let mut symbols = prod.symbols.iter().rev();
    symbols.find_map(|symbol| match symbol {
        PartSymbol::Token(token) => Some(*token),
        PartSymbol::Rule(_) => None,
    })
}

/// The token by which a production has its precedence: the one that it names, or else the last one of its body.
pub fn precedence_token(prod: &PartProd) -> Option<usize> {
    match prod.precedence {
        Some(token) => Some(token),
        None => last_token(prod),
    }
}

/// The precedences of a grammar: those of its tokens and of its productions, by their numbers.
#[derive(Drop)]
struct Precedences {
    tokens: Vec<Option<Precedence>>,
    productions: Vec<Option<Precedence>>,
}

/// The precedences of the tokens of a grammar.
fn of_tokens(alloc: Global, grm: &YaccGrammar<u32>) -> Result<Vec<Option<Precedence>>, AllocError>
    ensures { IfOk result (λ v. (t : ℕ) →
        precedence_at v.items t ≡ math.token_precedence grm.now t) }
{
    let mut precedences = Vec::new(alloc);
    for token in 0..usize::from(grm.tokens_len()) {
        precedences.push(grm.token_precedence(TIdx(u32::from_usize(token).unwrap())))?;
    }
    Ok(precedences)
}

/// The precedences of the productions of a grammar.
fn of_productions(
    alloc: Global,
    grm: &YaccGrammar<u32>,
) -> Result<Vec<Option<Precedence>>, AllocError>
    ensures { IfOk result (λ v. (p : ℕ) →
        precedence_at v.items p ≡ math.production_precedence grm.now p) }
{
    let mut precedences = Vec::new(alloc);
    for production in 0..usize::from(grm.prods_len()) {
        precedences.push(grm.prod_precedence(PIdx(u32::from_usize(production).unwrap())))?;
    }
    Ok(precedences)
}

impl Precedences {
    /// Those of a grammar.
    fn new(alloc: Global, grm: &YaccGrammar<u32>) -> Result<Precedences, AllocError>
        ensures { IfOk result (ArePrecedencesOf grm.now) }
    {
        Ok(Precedences {
            tokens: of_tokens(alloc, grm)?,
            productions: of_productions(alloc, grm)?,
        })
    }

    /// What they make of the shift of a token and the reduction by a production.
    fn compared(&self, token: usize, production: usize) -> Outcome
        ensures { result ≡ outcome_in self.now token production }
    {
        compare(
            self.tokens.get(token).copied().flatten(),
            self.productions.get(production).copied().flatten(),
        )
    }
}

impl Outcome {
    /// Whether the shift stands.
    pub(crate) fn leaves_shift(self) -> bool
        ensures { result ≡ leaves_shift self }
    {
        !matches!(self, Outcome::Won(Winner::Reduce | Winner::Neither))
    }

    /// Whether the reduction is left.
    fn leaves_reduction(self) -> bool
        ensures { result ≡ leaves_reduction self }
    {
        !matches!(self, Outcome::Won(Winner::Shift | Winner::Neither))
    }
}

/// A cell of a table.
#[derive(Clone, Copy)]
struct Cell {
    state: usize,
    token: usize,
}

impl Cell {
    /// What meets in it.
    fn entry(self, file: &FileGrammar, production: usize, other: Option<usize>) -> Entry
        ensures { told result ≡ (self.token, production, other, self.state) }
    {
        Entry {
            place: place_of(file, production),
            state: self.state,
            production,
            other,
            token: self.token,
        }
    }
}

/// By what is decided: the file, and its precedences.
#[derive(Clone, Copy)]
struct Rules<'a> {
    file: &'a FileGrammar,
    precedences: &'a Precedences,
}

/// What precedences resolve, so far.
#[derive(Drop)]
struct Decisions {
    resolved: Vec<Resolved>,
    /// Which tokens and productions take part in decisions.
    deciding: Deciding,
}

/// What is left of a cell with a shift.
#[derive(Drop)]
struct Left {
    /// Whether the shift stands.
    stands: bool,
    /// The reductions.
    reductions: Vec<usize>,
}

impl Decisions {
    /// Tries a reduction against the shift of a cell, and answers what precedences make of both.
    fn try_reduction(
        &mut self,
        rules: Rules<'_>,
        cell: Cell,
        production: usize,
    ) -> Result<Outcome, AllocError>
        ensures outcome { IfOk result (λ o.
            o ≡ outcome_in rules.entry.precedences.now cell.token production) }
        ensures resolved { IfOk result (λ o. map resolution self.new.resolved.items
            ≡ map resolution self.old.resolved.items
            ++ resolved_of cell.state cell.token (cons_option (decision o production) [])) }
    {
        let outcome = rules.precedences.compared(cell.token, production);
        if outcome != Outcome::Open {
            self.deciding.note(rules.file, cell.token, production);
        }
        if let Outcome::Won(winner) = outcome {
            let entry = cell.entry(rules.file, production, None);
            self.resolved.push(Resolved { entry, winner })?;
        }
        Ok(outcome)
    }

    /// Tries the reductions of a cell one after another, each against a shift that still stands.
    fn try_reductions(
        &mut self,
        rules: Rules<'_>,
        cell: Cell,
        reductions: &[usize],
    ) -> Result<Left, AllocError>
        ensures stands { IfOk result (λ l. l.stands
            ≡ shift_stands (outcome_in rules.entry.precedences.now cell.token) reductions.now) }
        ensures left { IfOk result (λ l. l.reductions.items
            ≡ reductions_left (outcome_in rules.entry.precedences.now cell.token)
            reductions.now) }
        ensures resolved { OnOk result (map resolution self.new.resolved.items
            ≡ map resolution self.old.resolved.items ++ resolved_of cell.state cell.token
            (decided (outcome_in rules.entry.precedences.now cell.token) reductions.now)) }
    {
        let mut left = Left {
            stands: true,
            reductions: Vec::new(*self.resolved.allocator()),
        };
        for production in reductions {
            if left.stands {
                let outcome = self.try_reduction(rules, cell, *production)?;
                left.stands = outcome.leaves_shift();
                if !outcome.leaves_reduction() {
                    continue;
                }
            }
            left.reductions.push(*production)?;
        }
        Ok(left)
    }
}

/// A complete item of a state: its production, and the tokens at which the state could reduce by it.
#[derive(Clone, Copy)]
struct Reduction<'a> {
    production: usize,
    tokens: &'a Vob,
}

impl Reduction<'_> {
    /// Whether the state could reduce at the token.
    fn is_at(&self, token: usize) -> bool
        ensures { result ≡ slice_index_or self.now.tokens.now token false }
    {
        token < self.tokens.len() && self.tokens.get(token)
    }
}

/// The complete items of a closed state but for that of the start production, upwards.
fn reductions_of<'a>(
    grm: &YaccGrammar<u32>,
    closed: &'a Itemset<u32>,
) -> Result<Vec<Reduction<'a>>, AllocError>
    requires { Fits grm.now (set_of number_of closed.now) }
    ensures { IfOk result (λ v. map complete v.items
        ≡ complete_items grm.now (set_of number_of closed.now)) }
{
    let mut reductions = Vec::new(grm.allocator());
    for (key, tokens) in &closed.items {
        if key.1 == grm.prod_len(key.0) && key.0 != grm.start_prod() {
            let production = usize::from(key.0);
            reductions.push(Reduction { production, tokens })?;
        }
    }
    Ok(reductions)
}

/// Makes the list that of the productions by which a state could reduce at the token.
fn list_at(
    productions: &mut Vec<usize>,
    reductions: &[Reduction<'_>],
    token: usize,
) -> Result<(), AllocError>
    ensures { OnOk result (productions.new.items
        ≡ looking_at (map complete reductions.now) token) }
{
    productions.clear();
    for reduction in reductions {
        if reduction.is_at(token) {
            productions.push(reduction.production)?;
        }
    }
    Ok(())
}

/// Adds the conflicts of a cell of which these reductions are left.
fn add_conflicts(
    entries: &mut Vec<Entry>,
    file: &FileGrammar,
    cell: Cell,
    stands: bool,
    reductions: &[usize],
) -> Result<(), AllocError>
    ensures { OnOk result (map told entries.new.items ≡ map told entries.old.items
        ++ conflicts_of cell.state cell.token stands reductions.now) }
{
    let Some((first, others)) = reductions.split_first() else {
        return Ok(());
    };
    if stands {
        entries.push(cell.entry(file, *first, None))?;
    }
    for other in others {
        entries.push(cell.entry(file, *first, Some(*other)))?;
    }
    Ok(())
}

/// Whether a state shifts a token.
fn shifts(graph: &StateGraph<u32>, state: StIdx<u32>, token: usize) -> bool
    requires { token < 2 ^ 32 }
    ensures { result ≡ is_some (edge graph.now state.0 (math.Token token)) }
{
    let tidx = TIdx(u32::from_usize(token).unwrap());
    graph.edge(state, Symbol::Token(tidx)).is_some()
}

/// What is looked at.
#[derive(Clone, Copy)]
struct Looked<'a> {
    rules: Rules<'a>,
    grm: &'a YaccGrammar<u32>,
    graph: &'a StateGraph<u32>,
}

/// What is found in the cells of a table.
#[derive(Drop)]
pub(crate) struct CellFindings {
    /// The decisions between a shift and a reduction.
    pub(crate) resolved: Vec<Resolved>,
    /// The conflicts that are left open.
    pub(crate) left: Vec<Entry>,
    /// The productions by which no state reduces.
    pub(crate) unreduced: Vec<usize>,
    /// What of the file takes no part in the decisions, and what of its tokens in no rule.
    pub(crate) useless: UselessPrecedences,
}

impl CellFindings {
    /// What is found where no precedence decides: the conflicts of the table are left open, in their order.
    pub(crate) fn without_decisions(
        alloc: Global,
        file: &FileGrammar,
        conflicts: &[Entry],
    ) -> Result<CellFindings, AllocError>
        ensures left { IfOk result (λ c. c.left.items ≡ conflicts.now) }
        ensures resolved { IfOk result (λ c. c.resolved.items ≡ []) }
        ensures unreduced { IfOk result (λ c. c.unreduced.items ≡ []) }
    {
        Ok(CellFindings {
            resolved: Vec::new(alloc),
            left: conflicts.iter().copied().collect(alloc)?,
            unreduced: Vec::new(alloc),
            useless: Deciding::new(alloc, file)?.useless(file)?,
        })
    }
}

/// What is found in the cells of a graph so far.
#[derive(Drop)]
struct Cells {
    decisions: Decisions,
    /// The conflicts that are left.
    left: Vec<Entry>,
    /// The states with the productions by which they reduce.
    reduced: Vec<(usize, usize)>,
}

/// Adds the production by which a cell reduces, if it does.
fn push_made(made: &mut Vec<usize>, production: Option<usize>) -> Result<(), AllocError>
    ensures { OnOk result (made.new.items ≡ made.old.items ++ option_to_list production) }
{
    if let Some(production) = production {
        made.push(production)?;
    }
    Ok(())
}

/// Adds the state with each production of its complete items that is one of these, by which it reduces.
fn add_reduced(
    reduced: &mut Vec<(usize, usize)>,
    state: usize,
    reductions: &[Reduction<'_>],
    made: &[usize],
) -> Result<(), AllocError>
    ensures { OnOk result (reduced.new.items ≡ reduced.old.items ++ map (λ p. (state, p))
        (filter (λ p. list_any (λ q. q == p) made.now) (map (λ r. r.production) reductions.now))) }
{
    for reduction in reductions {
        if !made.contains(&reduction.production) {
            continue;
        }
        reduced.push((state, reduction.production))?;
    }
    Ok(())
}

impl Cells {
    /// Nothing is found.
    fn new(alloc: Global, file: &FileGrammar) -> Result<Cells, AllocError>
        ensures left { IfOk result (λ c. c.left.items ≡ []) }
        ensures resolved { IfOk result (λ c. c.decisions.resolved.items ≡ []) }
        ensures reduced { IfOk result (λ c. c.reduced.items ≡ []) }
    {
        Ok(Cells {
            decisions: Decisions {
                resolved: Vec::new(alloc),
                deciding: Deciding::new(alloc, file)?,
            },
            left: Vec::new(alloc),
            reduced: Vec::new(alloc),
        })
    }

    /// What was found in the states that are reached.
    fn in_reached(self, graph: &StateGraph<u32>) -> Result<Cells, AllocError>
        requires some { 0 < length graph.now }
        requires targets { (s u : ℕ) (x : math.Symbol) → edge graph.now s x ≡ Some u
            → u < length graph.now }
        ensures left { IfOk result (λ c. AreOfReached
            (IsReached (is_taken_away (map resolution self.decisions.resolved.items)) graph.now)
            (λ e. e.3) (map told self.left.items) (map told c.left.items)) }
        ensures resolved { IfOk result (λ c. AreOfReached
            (IsReached (is_taken_away (map resolution self.decisions.resolved.items)) graph.now)
            (λ r. r.0.3) (map resolution self.decisions.resolved.items)
            (map resolution c.decisions.resolved.items)) }
        ensures reduced { IfOk result (λ c. AreOfReached
            (IsReached (is_taken_away (map resolution self.decisions.resolved.items)) graph.now)
            (λ m. m.0) self.reduced.items c.reduced.items) }
    {
        let Cells {
            decisions,
            left,
            reduced,
        } = self;
        let Decisions { resolved, deciding } = decisions;
        let alloc = *left.allocator();
        let marks = reached(alloc, graph, resolved.as_slice())?;
        let left = left_in(alloc, &marks, left.as_slice())?;
        let reduced = reduced_in(alloc, &marks, reduced.as_slice())?;
        let resolved = resolved_in(alloc, &marks, resolved.as_slice())?;
        Ok(Cells {
            decisions: Decisions { resolved, deciding },
            left,
            reduced,
        })
    }

    /// What was found, in the order of the file.
    fn in_order(
        self,
        file: &FileGrammar,
        grm: &YaccGrammar<u32>,
    ) -> Result<CellFindings, AllocError>
        ensures left { IfOk result (λ c.
            IsPermutation (map told self.left.items) (map told c.left.items)) }
        ensures resolved { IfOk result (λ c. IsPermutation
            (map resolution self.decisions.resolved.items) (map resolution c.resolved.items)) }
        ensures unreduced { IfOk result (λ c. c.unreduced.items
            ≡ filter (is_unreduced grm.now.start_production self.reduced.items)
            (range_with_len 0 (length grm.now.productions))) }
    {
        let Cells {
            decisions,
            mut left,
            reduced,
        } = self;
        let Decisions {
            mut resolved,
            deciding,
        } = decisions;
        resolved.sort_unstable_by_key(|resolved| resolved.entry);
        left.sort_unstable();
        Ok(CellFindings {
            resolved,
            left,
            unreduced: unreduced_of(grm, reduced.as_slice())?,
            useless: deciding.useless(file)?,
        })
    }

    /// Adds what is found in a cell, with a shift or without, and with these reductions. The answer is the production by which the
    /// cell reduces, if it does.
    fn add_cell(
        &mut self,
        rules: Rules<'_>,
        cell: Cell,
        shifts: bool,
        reductions: &[usize],
    ) -> Result<Option<usize>, AllocError>
        ensures left { OnOk result (map told self.new.left.items ≡ map told self.old.left.items
            ++ conflicts_by (outcome_in rules.entry.precedences.now cell.token)
            cell.state cell.token shifts reductions.now) }
        ensures resolved { OnOk result (map resolution self.new.decisions.resolved.items
            ≡ map resolution self.old.decisions.resolved.items
            ++ resolved_by (outcome_in rules.entry.precedences.now cell.token)
            cell.state cell.token shifts reductions.now) }
        ensures made { IfOk result (λ o. o
            ≡ made_by (outcome_in rules.entry.precedences.now cell.token) shifts reductions.now) }
        ensures reduced { OnOk result (self.new.reduced.items ≡ self.old.reduced.items) }
    {
        if !shifts {
            add_conflicts(&mut self.left, rules.file, cell, false, reductions)?;
            return Ok(reductions.first().copied());
        }
        let left = self.decisions.try_reductions(rules, cell, reductions)?;
        let (stands, reductions) = (left.stands, left.reductions.as_slice());
        add_conflicts(&mut self.left, rules.file, cell, stands, reductions)?;
        Ok(if stands {
            None
        } else {
            reductions.first().copied()
        })
    }

    /// Adds what is found at a token in a state with these complete items; the list is made that of the productions by which
    /// the state could reduce there. The answer is the one by which it does.
    fn add_token(
        &mut self,
        looked: Looked<'_>,
        state: StIdx<u32>,
        reductions: &[Reduction<'_>],
        productions: &mut Vec<usize>,
        token: usize,
    ) -> Result<Option<usize>, AllocError>
        requires precedences { ArePrecedencesOf looked.grm.now looked.rules.precedences.now }
        requires fits { Fits looked.grm.now (closed_of looked.graph.now state.0) }
        requires upwards { AreUpwards (closed_of looked.graph.now state.0) }
        requires reductions { map complete reductions.now
            ≡ complete_items looked.grm.now (closed_of looked.graph.now state.0) }
        requires small { token < 2 ^ 32 }
        ensures left { OnOk result (map told self.new.left.items ≡ map told self.old.left.items
            ++ conflicts_at looked.entry.grm.now looked.entry.graph.now state.0 token) }
        ensures resolved { OnOk result (map resolution self.new.decisions.resolved.items
            ≡ map resolution self.old.decisions.resolved.items
            ++ resolved_at looked.entry.grm.now looked.entry.graph.now state.0 token) }
        ensures made { IfOk result (λ o. o
            ≡ made_at looked.entry.grm.now looked.entry.graph.now state.0 token) }
        ensures reduced { OnOk result (self.new.reduced.items ≡ self.old.reduced.items) }
    {
        list_at(productions, reductions, token)?;
        if productions.is_empty() {
            return Ok(None);
        }
        let cell = Cell {
            state: usize::from(state),
            token,
        };
        let shifts = shifts(looked.graph, state, token);
        let made = self.add_cell(looked.rules, cell, shifts, productions.as_slice())?;
        Ok(made)
    }

    /// Adds what is found in the cells of a state.
    fn add_state(&mut self, looked: Looked<'_>, state: StIdx<u32>) -> Result<(), AllocError>
        requires precedences { ArePrecedencesOf looked.grm.now looked.rules.precedences.now }
        requires graph { IsReadable looked.grm.now looked.graph.now }
        requires below { state.0 < length looked.graph.now }
        ensures left { OnOk result (map told self.new.left.items ≡ map told self.old.left.items
            ++ flat_map (conflicts_at looked.entry.grm.now looked.entry.graph.now state.0)
            (range_with_len 0 (math.token_count looked.entry.grm.now))) }
        ensures resolved { OnOk result (map resolution self.new.decisions.resolved.items
            ≡ map resolution self.old.decisions.resolved.items
            ++ flat_map (resolved_at looked.entry.grm.now looked.entry.graph.now state.0)
            (range_with_len 0 (math.token_count looked.entry.grm.now))) }
        ensures reduced { OnOk result (self.new.reduced.items ≡ self.old.reduced.items
            ++ map (λ p. (state.0, p))
            (reduced_in looked.entry.grm.now looked.entry.graph.now state.0)) }
    {
        let reductions = reductions_of(looked.grm, looked.graph.closed_state(state))?;
        if reductions.is_empty() {
            return Ok(());
        }
        let alloc = looked.grm.allocator();
        let (mut productions, mut made) = (Vec::new(alloc), Vec::new(alloc));
        for token in 0..usize::from(looked.grm.tokens_len()) {
            let production = self.add_token(
                looked,
                state,
                reductions.as_slice(),
                &mut productions,
                token,
            )?;
            push_made(&mut made, production)?;
        }
        add_reduced(
            &mut self.reduced,
            usize::from(state),
            reductions.as_slice(),
            made.as_slice(),
        )?;
        Ok(())
    }
}

/// What is found in the cells of a graph.
fn cells_in(alloc: Global, looked: Looked<'_>) -> Result<Cells, AllocError>
    requires precedences { ArePrecedencesOf looked.grm.now looked.rules.precedences.now }
    requires graph { IsReadable looked.grm.now looked.graph.now }
    ensures left { IfOk result (λ c. map told c.left.items
        ≡ conflicts_left looked.entry.grm.now looked.entry.graph.now) }
    ensures resolved { IfOk result (λ c. map resolution c.decisions.resolved.items
        ≡ resolved_in looked.entry.grm.now looked.entry.graph.now) }
    ensures reduced { IfOk result (λ c. c.reduced.items
        ≡ reduced_by_states looked.entry.grm.now looked.entry.graph.now) }
{
    let mut cells = Cells::new(alloc, looked.rules.file)?;
    for state in looked.graph.iter_stidxs() {
        cells.add_state(looked, state)?;
    }
    Ok(cells)
}

/// What is found in the cells of the states of a graph that are reached, in the order of the file.
pub(crate) fn cells_of<'a>(
    alloc: Global,
    file: &'a FileGrammar,
    grm: &'a YaccGrammar<u32>,
    graph: &'a StateGraph<u32>,
) -> Result<CellFindings, AllocError>
    requires { IsGraphOf grm.now graph.now }
    ensures left { IfOk result (λ c. AreLeft grm.now graph.now (map told c.left.items)) }
    ensures resolved { IfOk result (λ c.
        AreResolved grm.now graph.now (map resolution c.resolved.items)) }
    ensures unreduced { IfOk result (λ c.
        AreNeverReduced grm.now graph.now c.unreduced.items) }
{
    grm.in_order();
    let precedences = Precedences::new(alloc, grm)?;
    let looked = Looked {
        rules: Rules {
            file,
            precedences: &precedences,
        },
        grm,
        graph,
    };
    let cells = cells_in(alloc, looked)?.in_reached(graph)?;
    let found = cells.in_order(file, grm)?;
    Ok(found)
}
