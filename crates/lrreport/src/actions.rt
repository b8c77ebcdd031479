//! What the table does in a state.

use crate::states::Listing;
use crate::told::Told;
use crate::words::Words;
use lrdiagnostics::add_shown;
use lrevidence::{body_of, rule_name, symbol_name};
use lrfindings::Entry;
use lrgrammar::idx::{IndexStorage, StIdx, TIdx};
use lrtable::Action;
use lrwriter::Text;
use std::alloc::{AllocError, Global};
use unicode_width::UnicodeWidthStr;

/// A token of a state, and a production by which the state reduces at it, or could.
#[derive(Clone, Copy, PartialEq, Eq, PartialOrd, Ord)]
pub(crate) struct Cell {
    pub(crate) production: usize,
    pub(crate) token: usize,
}

impl Cell {
    /// Whether both have one production.
    pub(crate) fn is_like(&self, other: &Cell) -> bool {
        self.production == other.production
    }
}

/// A symbol, and the state that it leads to.
#[derive(Clone, Copy)]
pub(crate) struct Target<'a> {
    pub(crate) name: &'a str,
    pub(crate) state: usize,
}

/// What the table does in a state, token by token.
#[derive(Drop)]
pub(crate) struct Row<'a> {
    pub(crate) shifts: Vec<Target<'a>>,
    /// By production, and then by token.
    pub(crate) reductions: Vec<Cell>,
    pub(crate) accepts: bool,
}

/// How many columns the widest of the symbols takes.
fn widest(targets: &[Target<'_>]) -> usize {
    let mut width = 0;
    for target in targets {
        width = target.name.width().max(width);
    }
    width
}

/// Adds symbols, each with the state that it leads to, one under the other, behind an empty line, if there are some.
pub(crate) fn push_targets(text: &mut Text, targets: &[Target<'_>], how: &str) {
    let width = widest(targets);
    if !targets.is_empty() {
        text.add_char('\n');
    }
    for target in targets {
        let (name, state) = (target.name, target.state);
        text.add("    ");
        add_shown(text, name);
        text.add_times(' ', width.saturating_sub(name.width()));
        write!(text, "  {how} state {state}\n");
    }
}

impl<'a> Row<'a> {
    /// Adds what the table does at a token of that name.
    fn add(&mut self, name: &'a str, token: usize, action: Action<u32>) -> Result<(), AllocError> {
        match action {
            Action::Shift(target) => {
                let state = usize::from(target);
                self.shifts.push(Target { name, state })?;
            }
            Action::Reduce(production) => {
                let production = usize::from(production);
                self.reductions.push(Cell { production, token })?;
            }
            Action::Accept => self.accepts = true,
            Action::Error => {}
        }
        Ok(())
    }
}

impl Told<'_> {
    /// The words of a reduction, with a text in front and one right behind.
    fn reduction(&self, alloc: Global, production: usize, front: &str, back: &str) -> Words {
        let rule = self.rule_name(production);
        let body = body_of(self.file, production);
        let mut words = Words::new(alloc);
        write!(words, "{front}reduce by {rule}:");
        for symbol in body {
            words.add(symbol_name(self.file, *symbol));
        }
        if body.is_empty() {
            words.add("%empty");
        }
        words.add_piece(back);
        words
    }

    /// Adds what is done at tokens: behind their names, with commas between these, or in a line of its own where that would get too
    /// long.
    fn push_cells(&self, text: &mut Text, cells: &[Cell], action: &Words) {
        let (layout, mut names) = (self.layout(), Words::new(text.allocator()));
        for cell in cells {
            if let Some(token) = self.file.parts.tokens.get(cell.token) {
                let is_first = names.is_empty();
                names.add_listed(is_first, token.name.as_str());
            }
        }
        text.add("    ");
        names.lay_out(text, layout, 4, 4);
        let mut column: usize = 4;
        if !names.is_empty() {
            column = names.width().saturating_add(6);
            if column.saturating_add(action.width()) <= layout.width {
                text.add("  ");
            } else {
                text.add("\n        ");
                column = 8;
            }
        }
        action.lay_out(text, layout, column, column.min(8).saturating_add(4));
        text.add_char('\n');
    }

    /// Adds reductions, with a text before and behind what is said of each.
    fn push_reductions(&self, text: &mut Text, cells: &[Cell], front: &str, back: &str) {
        for alike in cells.chunk_by(Cell::is_like) {
            if let Some(first) = alike.first() {
                let action = self.reduction(text.allocator(), first.production, front, back);
                self.push_cells(text, alike, &action);
            }
        }
    }
}

impl<'a> Listing<'a> {
    /// What the table does in a state.
    pub(crate) fn row(&self, alloc: Global, state: StIdx<u32>) -> Result<Row<'a>, AllocError> {
        let told = self.checked.told;
        let mut row = Row {
            shifts: Vec::new(alloc),
            reductions: Vec::new(alloc),
            accepts: false,
        };
        for token in 0..told.file.parts.tokens.len().saturating_add(1) {
            if let Some(number) = u32::from_usize(token) {
                let action = self.checked.found.table.action(state, TIdx(number));
                row.add(told.token_name(token), token, action)?;
            }
        }
        row.reductions.sort_unstable();
        Ok(row)
    }

    /// Whether the table reduces in a state as a cell says.
    fn does(&self, state: StIdx<u32>, cell: Cell) -> bool {
        let Some(token) = u32::from_usize(cell.token) else {
            return true;
        };
        match self.checked.found.table.action(state, TIdx(token)) {
            Action::Reduce(production) => usize::from(production) == cell.production,
            _ => false,
        }
    }

    /// The reductions that conflicts in a state are about, and that the table doesn't do.
    fn alternatives(
        &self,
        alloc: Global,
        state: StIdx<u32>,
        entries: &[Entry],
    ) -> Result<Vec<Cell>, AllocError> {
        let mut cells = Vec::new(alloc);
        for entry in entries {
            let (production, token) = (entry.production, entry.token);
            let cell = Cell { production, token };
            if !self.does(state, cell) {
                cells.push(cell)?;
            }
            if let Some(production) = entry.other {
                let cell = Cell { production, token };
                if !self.does(state, cell) {
                    cells.push(cell)?;
                }
            }
        }
        cells.sort_unstable();
        cells.dedup();
        Ok(cells)
    }

    /// Where the rules of the file lead from a state.
    pub(crate) fn gotos(
        &self,
        alloc: Global,
        state: StIdx<u32>,
    ) -> Result<Vec<Target<'a>>, AllocError> {
        let checked = self.checked;
        let file = checked.told.file;
        let mut targets = Vec::new(alloc);
        for rule in 0..file.parts.rules.len() {
            if let Some(number) = self.rules.get(&rule) {
                if let Some(target) = self.checked.found.table.goto(state, *number) {
                    let (name, state) = (rule_name(file, rule), usize::from(target));
                    targets.push(Target { name, state })?;
                }
            }
        }
        Ok(targets)
    }

    /// Adds what the table does in a state where it doesn't shift, and before that what else would be possible, where there are
    /// conflicts, and what is an error by precedences.
    pub(crate) fn push_reducing(&self, text: &mut Text, state: StIdx<u32>, row: &Row<'a>) {
        let (alloc, number, told) = (text.allocator(), usize::from(state), self.checked.told);
        if let Some(entries) = self.conflicts.get(&number) {
            match self.alternatives(alloc, state, entries.as_slice()) {
                Ok(cells) => told.push_reductions(text, cells.as_slice(), "[or ", "]"),
                Err(_) => text.give_up(),
            }
        }
        if let Some(entries) = self.errors.get(&number) {
            let mut cells = Vec::new(alloc);
            for entry in entries {
                let (production, token) = (entry.production, entry.token);
                if cells.push(Cell { production, token }).is_err() {
                    return text.give_up();
                }
            }
            let mut action = Words::new(alloc);
            action.add("error (nonassociative)");
            told.push_cells(text, cells.as_slice(), &action);
        }
        told.push_reductions(text, row.reductions.as_slice(), "", "");
        if row.accepts {
            text.add("    accept\n");
        }
    }
}
