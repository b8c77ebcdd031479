//! The states of the graph, as data for the script.
//!
//! Around a file's grammar stands a production more, which the file has no name for: its number is the one behind those of the file.

ghost use Rattle.std.specs.Prelude.{◌<◌, length};

use crate::pages::Page;
use crate::symbols::number_of;
use lrgrammar::grammar::PartSymbol;
use lrgrammar::idx::{IndexStorage, PIdx, StIdx, Symbol};
use lrtable::StateGraph;
use lrwriter::Text;
use std::alloc::{AllocError, Global};

/// What is needed beside a page to show its states.
#[derive(Drop)]
struct States<'a> {
    graph: &'a StateGraph<u32>,
    /// By rule of the graph, its number in the file.
    rules: Vec<usize>,
}

impl Page<'_> {
    /// By rule of the graph, its number in the file. Productions have those of the file.
    fn rules_of_graph(&self, alloc: Global) -> Result<Vec<usize>, AllocError> {
        let grm = &self.found.grm;
        let mut rules = vec![in alloc; 0; usize::from(grm.rules_len())]?;
        for (production, prod) in self.file.parts.prods.iter().enumerate() {
            if let Some(number) = u32::from_usize(production) {
                if production < usize::from(grm.prods_len()) {
                    let rule = usize::from(grm.prod_to_rule(PIdx(number)));
                    if let Some(place) = rules.get_mut(rule) {
                        *place = prod.rule;
                    }
                }
            }
        }
        Ok(rules)
    }

    /// Adds the states, where there is a graph: a line each. The error says that memory for a list was refused.
    pub(crate) fn add_states(&self, page: &mut Text) -> Result<(), AllocError> {
        let Some(graph) = &self.found.graph else {
            return Ok(());
        };
        let states = States {
            graph,
            rules: self.rules_of_graph(page.allocator())?,
        };
        page.add("<section id=\"states\"><h2>States</h2></section>\n");
        page.add("<pre id=\"graph\" hidden>\n");
        for state in graph.iter_stidxs() {
            states.add_state(page, state);
        }
        page.add("</pre>\n");
        Ok(())
    }
}

impl States<'_> {
    /// The number of a symbol of the graph for the script.
    fn number_of(&self, symbol: Symbol<u32>) -> usize {
        number_of(match symbol {
            Symbol::Token(token) => PartSymbol::Token(usize::from(token)),
            Symbol::Rule(rule) => {
                PartSymbol::Rule(self.rules.get(usize::from(rule)).copied().unwrap_or(0))
            }
        })
    }

    /// Adds the items of the core of a state: each as a production and a dot.
    fn add_core(&self, page: &mut Text, state: StIdx<u32>)
        requires { state.0 < length self.now.graph.now }
    {
        let mut is_first = true;
        for key in self.graph.core_state(state).items.keys() {
            if !is_first {
                page.add_char(' ');
            }
            let (production, dot) = (usize::from(key.0), usize::from(key.1));
            write!(page, "{production}.{dot}");
            is_first = false;
        }
    }

    /// Adds the edges of a state: each as a symbol and a state.
    fn add_edges(&self, page: &mut Text, state: StIdx<u32>)
        requires { state.0 < length self.now.graph.now }
    {
        let mut is_first = true;
        for (symbol, target) in self.graph.edges(state) {
            if !is_first {
                page.add_char(' ');
            }
            let (symbol, target) = (self.number_of(*symbol), usize::from(*target));
            write!(page, "{symbol}.{target}");
            is_first = false;
        }
    }

    /// Adds a state: its items and its edges.
    fn add_state(&self, page: &mut Text, state: StIdx<u32>) {
        if usize::from(state) < usize::from(self.graph.all_states_len()) {
            self.add_core(page, state);
            page.add_char('\t');
            self.add_edges(page, state);
        }
        page.add_char('\n');
    }
}
