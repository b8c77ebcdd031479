//! Outlines of state graphs.

use crate::stategraph::StateGraph;
use lrgrammar::idx::IndexStorage;

/// What the table of a state graph needs of it: of each state its complete items, and where its edges lead. For the construction
/// of tables.
#[derive(Drop)]
pub struct Outline<T: IndexStorage> {
    /// Those, as a graph whose states have no core, and in their closed states the complete items alone.
    pub graph: StateGraph<T>,
}
