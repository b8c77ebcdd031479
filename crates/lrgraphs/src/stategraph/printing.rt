//! The texts of graphs.

ghost use Rattle.std.specs.Prelude.{◌≡◌, ℕ, ◌<◌, ◌++◌, if◌then◌else◌, IfOk, OnOk, Some, length};
ghost use Rattle.std.specs.Fmt.{decimal};
ghost use Rattle.std.specs.List.{flat_map, All};
ghost use Rattle.std.specs.String.{string_bytes};
ghost use Rattle.lrspec.specs.grammars.Grammar as math;
ghost use Rattle.lrspec.specs.grammars.ItemSets.{Fits};
ghost use Rattle.lrspec.specs.merging.Graph.{IsInOrder, IsGraphOf, core_of, closed_of, edges_of, edge_at};
ghost use Rattle.lrspec.specs.texts.PrintedTexts as printed;
ghost use Rattle.lrspec.specs.texts.PrintedTexts.{graph_text, core_text, closed_text};
ghost use Rattle.lritems.specs.ItemsOf.{set_of};
ghost use Rattle.lrgraphs.specs.GraphOf as stored;

use crate::itemset::Itemset;
use crate::stategraph::{State, StateGraph};
use lrgrammar::grammar::YaccGrammar;
use lrgrammar::idx::{IndexStorage, StIdx, Symbol};
use lritems::printing::{push_items, push_symbol};
use std::alloc::{AllocError, Global};
use std::collections::BTreeMap;

/// How many decimal digits a number has.
fn decimal_len(alloc: Global, number: usize) -> Result<usize, AllocError>
    ensures { IfOk result (λ n. n ≡ length (decimal number)) }
{
    Ok(format!(in alloc; "{number}")?.len())
}

/// Adds a decimal number.
fn push_number(text: &mut String, number: usize) -> Result<(), AllocError>
    ensures { OnOk result (string_bytes text.new ≡ string_bytes text.old ++ decimal number) }
{
    let alloc = *text.allocator();
    text.push_str(format!(in alloc; "{number}")?.as_str())
}

/// Adds spaces.
fn push_spaces(text: &mut String, count: usize) -> Result<(), AllocError>
    ensures { OnOk result (string_bytes text.new ≡ string_bytes text.old ++ printed.spaces count) }
{
    let alloc = *text.allocator();
    text.push_str(" ".repeat(alloc, count)?.as_str())
}

/// Adds the number of a state, a colon and a space, and spaces between where the number has fewer
/// than `width` digits.
fn push_label(text: &mut String, width: usize, state: usize) -> Result<(), AllocError>
    ensures { OnOk result (string_bytes text.new
        ≡ string_bytes text.old ++ printed.label width state) }
{
    let number = format!(in *text.allocator(); "{state}")?;
    text.push_str(number.as_str())?;
    text.push(':')?;
    push_spaces(text, width.saturating_sub(number.len()))?;
    text.push(' ')
}

/// The end of a line, and as many spaces as a label takes room.
fn line_break(alloc: Global, width: usize) -> Result<String, AllocError>
    ensures { IfOk result (λ s. string_bytes s ≡ printed.line_break width) }
{
    let mut text = String::from_str(alloc, "\n  ")?;
    push_spaces(&mut text, width)?;
    Ok(text)
}

/// The edges by target upwards. Each edge of the map is the one that is found on its symbol.
fn edges_by_target<T: IndexStorage>(
    alloc: Global,
    edges: &BTreeMap<Symbol<T>, StIdx<T>>,
) -> Result<Vec<(Symbol<T>, StIdx<T>)>, AllocError>
    ensures sorted { IfOk result (λ es. (n : ℕ)
        → All (λ e. e.1 < n) (stored.edges_of T.number (λ u. T.number u.0) edges.now.entries)
        → stored.edges_of T.number (λ u. T.number u.0) es.items ≡ printed.edges_by_target n
        (stored.edges_of T.number (λ u. T.number u.0) edges.now.entries)) }
    ensures found { OnOk result (
        let es = stored.edges_of T.number (λ u. T.number u.0) edges.now.entries in
        All (λ e. edge_at es e.0 ≡ Some e.1) es) }
{
    let mut sorted = Vec::new(alloc);
    for (symbol, target) in edges {
        sorted.push((*symbol, *target))?;
    }
    sorted.sort_by_key(|edge| edge.1)?;
    Ok(sorted)
}

/// Adds edges, with `parting` before each.
fn push_edges<T: IndexStorage>(
    text: &mut String,
    grm: &YaccGrammar<T>,
    edges: &[(Symbol<T>, StIdx<T>)],
    parting: &str,
) -> Result<(), AllocError>
    requires { All (λ e. math.IsBodySymbol grm.now e.0)
        (stored.edges_of T.number (λ u. T.number u.0) edges.now) }
    ensures { OnOk result (string_bytes text.new ≡ string_bytes text.old
        ++ flat_map (λ e. parting.now ++ printed.edge_text grm.now e)
        (stored.edges_of T.number (λ u. T.number u.0) edges.now)) }
{
    for edge in edges {
        text.push_str(parting)?;
        push_symbol(text, grm, edge.0)?;
        text.push_str(" -> ")?;
        push_number(text, usize::from(edge.1))?;
    }
    Ok(())
}

impl<T: IndexStorage> State<T> {
    /// The items that are shown of the state: its core where `core_states` is true, and else its closed state.
    fn shown(&self, core_states: bool) -> &Itemset<T>
        ensures { result.now ≡ if core_states then self.now.core else self.now.closed }
    {
        if core_states {
            &self.core
        } else {
            &self.closed
        }
    }
}

impl<T: IndexStorage> StateGraph<T> {
    /// Adds a state, of which `items` are shown: its number, its items, and its edges by target, with `parting` before
    /// each further line.
    fn push_state(
        &self,
        text: &mut String,
        grm: &YaccGrammar<T>,
        width: usize,
        parting: &str,
        number: usize,
        items: &Itemset<T>,
    ) -> Result<(), AllocError>
        requires graph { IsGraphOf grm.now self.now }
        requires parting { parting.now ≡ printed.line_break width }
        requires state { number < length self.now }
        requires items { Fits grm.now (set_of T.number items.now) }
        ensures { OnOk result (string_bytes text.new ≡ string_bytes text.old
            ++ printed.state_text grm.now width number (set_of T.number items.now)
            (printed.edges_by_target (length self.now) (edges_of self.now number))) }
    {
        push_label(text, width, number)?;
        push_items(text, grm, items, parting)?;
        let sorted = edges_by_target(grm.allocator(), &self.states[number].edges)?;
        push_edges(text, grm, sorted.as_slice(), parting)
    }

    /// The text of the graph: with its cores where `core_states` is true, and else with its closed states; see
    /// `pp_core_states` and `pp_closed_states`. The grammar is the graph's own. The error says that memory was refused.
    pub fn pp(&self, grm: &YaccGrammar<T>, core_states: bool) -> Result<String, AllocError>
        requires { IsGraphOf grm.now self.now }
        ensures text { IfOk result (λ s. string_bytes s ≡ graph_text grm.now
            (if core_states then core_of self.now else closed_of self.now) self.now) }
        ensures order { All IsInOrder self.now }
    {
        let alloc = grm.allocator();
        let width = decimal_len(alloc, self.states.len())?;
        let parting = line_break(alloc, width)?;
        let mut text = String::new(alloc);
        let mut between = "";
        for number in 0..self.states.len() {
            let items = self.states[number].shown(core_states);
            text.push_str(between)?;
            self.push_state(&mut text, grm, width, parting.as_str(), number, items)?;
            between = "\n";
        }
        Ok(text)
    }

    /// The text of the graph with the cores of its states: of each state its number, its core items, an item a line, and
    /// its edges by target, an edge a line. No line feed ends it. The grammar is the graph's own. The error says that
    /// memory was refused.
    pub fn pp_core_states(&self, grm: &YaccGrammar<T>) -> Result<String, AllocError>
        requires { IsGraphOf grm.now self.now }
        ensures text { IfOk result (λ s. string_bytes s ≡ core_text grm.now self.now) }
        ensures order { All IsInOrder self.now }
    {
        self.pp(grm, true)
    }

    /// The text of the graph with its closed states: of each state its number, the items of its closed state, an item a
    /// line, and its edges by target, an edge a line. No line feed ends it. The grammar is the graph's own. The error says
    /// that memory was refused.
    pub fn pp_closed_states(&self, grm: &YaccGrammar<T>) -> Result<String, AllocError>
        requires { IsGraphOf grm.now self.now }
        ensures text { IfOk result (λ s. string_bytes s ≡ closed_text grm.now self.now) }
        ensures order { All IsInOrder self.now }
    {
        self.pp(grm, false)
    }
}
