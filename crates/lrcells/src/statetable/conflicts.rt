//! The conflicts of a table.

ghost use Rattle.std.specs.Prelude.{◌≡◌, ◌<◌, [], length, IfOk, IfSome, MatchOption};
ghost use Rattle.std.specs.Slice.Iter.{iter_rest};
ghost use Rattle.std.specs.String.{string_bytes};
ghost use Rattle.lrspec.specs.grammars.Grammar as math;
ghost use Rattle.lrspec.specs.texts.PrintedTexts as printed;
ghost use Rattle.lrspec.specs.texts.PrintedTexts.{conflicts_text, reduce_reduce_text, shift_reduce_text};
ghost use Rattle.lrrows.specs.StoredLists.{stored_reduce_reduce, stored_reduce_reduces, stored_shift_reduce, stored_shift_reduces};
ghost use Rattle.lrspec.specs.tables.Conflicts.{AreEntriesOf};

use lrgrammar::grammar::YaccGrammar;
use lrgrammar::idx::{IndexStorage, PIdx, StIdx, TIdx};
use std::alloc::AllocError;
use std::marker::Model;
use std::slice;

/// The conflicts of a table, of which there is one at least.
#[derive(Drop)]
pub struct Conflicts<T: IndexStorage> {
    reduce_reduce: Vec<(TIdx<T>, PIdx<T>, PIdx<T>, StIdx<T>)>,
    shift_reduce: Vec<(TIdx<T>, PIdx<T>, StIdx<T>)>,
}

impl<T: IndexStorage> Model for Conflicts<T> {
    ghost use Rattle.lrspec.specs.tables.Table.{Lists};

    ghost Value = { Lists };

    ghost use Rattle.lrrows.specs.StoredLists.{stored_reduce_reduces, stored_shift_reduces};

    ghost view = { λ c. record {
      reduce_reduce = stored_reduce_reduces T.number c.reduce_reduce.items;
      shift_reduce = stored_shift_reduces T.number c.shift_reduce.items;
    } };
}

/// The line of a reduce/reduce conflict: its state, the token, the production that the table takes, and the other one.
fn reduce_reduce_line<T: IndexStorage>(
    grm: &YaccGrammar<T>,
    conflict: (TIdx<T>, PIdx<T>, PIdx<T>, StIdx<T>),
) -> Result<String, AllocError>
    requires token { T.number conflict.0.0 < math.token_count grm.now }
    requires taken { T.number conflict.1.0 < length grm.now.productions }
    requires other { T.number conflict.2.0 < length grm.now.productions }
    ensures { IfOk result (λ s. string_bytes s
        ≡ printed.reduce_reduce_line grm.now (stored_reduce_reduce T.number conflict)) }
{
    let (token, taken, other, state) = conflict;
    let state = usize::from(state);
    let token = grm.token_name(token).unwrap_or("$");
    let taken = grm.pp_prod(taken)?;
    let other = grm.pp_prod(other)?;
    format!(in grm.allocator();
        "   State {state} (lookahead {token}): Reduce({taken}) / Reduce({other})\n"
    )
}

/// The line of a shift/reduce conflict: its state, the token that is shifted, and the production.
fn shift_reduce_line<T: IndexStorage>(
    grm: &YaccGrammar<T>,
    conflict: (TIdx<T>, PIdx<T>, StIdx<T>),
) -> Result<String, AllocError>
    requires token { T.number conflict.0.0 < math.token_count grm.now }
    requires prod { T.number conflict.1.0 < length grm.now.productions }
    ensures { IfOk result (λ s. string_bytes s
        ≡ printed.shift_reduce_line grm.now (stored_shift_reduce T.number conflict)) }
{
    let (token, prod, state) = conflict;
    let state = usize::from(state);
    let token = grm.token_name(token).unwrap_or("$");
    let prod = grm.pp_prod(prod)?;
    format!(in grm.allocator(); "   State {state}: Shift(\"{token}\") / Reduce({prod})\n")
}

impl<T: IndexStorage> Conflicts<T> {
    /// These conflicts; None where there are none.
    pub(crate) fn unless_none(
        reduce_reduce: Vec<(TIdx<T>, PIdx<T>, PIdx<T>, StIdx<T>)>,
        shift_reduce: Vec<(TIdx<T>, PIdx<T>, StIdx<T>)>,
    ) -> Option<Conflicts<T>>
        ensures none { MatchOption result
            ((reduce_reduce.items ≡ []) × (shift_reduce.items ≡ []))
            (λ _. ¬ ((reduce_reduce.items ≡ []) × (shift_reduce.items ≡ []))) }
        ensures lists { IfSome result (λ c. c ≡ record {
          reduce_reduce = stored_reduce_reduces T.number reduce_reduce.items;
          shift_reduce = stored_shift_reduces T.number shift_reduce.items;
        }) }
    {
        if reduce_reduce.is_empty() && shift_reduce.is_empty() {
            return None;
        }
        Some(Conflicts {
            reduce_reduce,
            shift_reduce,
        })
    }

    /// The reduce/reduce conflicts: token, the production that the table takes, another one, and state; by state, then other
    /// production, then token.
    pub fn rr_conflicts(&self) -> slice::Iter<'_, (TIdx<T>, PIdx<T>, PIdx<T>, StIdx<T>)>
        ensures entries { stored_reduce_reduces T.number (iter_rest result)
            ≡ self.now.reduce_reduce }
    {
        self.reduce_reduce.iter()
    }

    /// The shift/reduce conflicts: token, production and state; by state, then token. The table shifts.
    pub fn sr_conflicts(&self) -> slice::Iter<'_, (TIdx<T>, PIdx<T>, StIdx<T>)>
        ensures entries { stored_shift_reduces T.number (iter_rest result) ≡ self.now.shift_reduce }
    {
        self.shift_reduce.iter()
    }

    /// How many reduce/reduce conflicts there are.
    pub fn rr_len(&self) -> usize
        ensures number { result ≡ length self.now.reduce_reduce }
    {
        self.reduce_reduce.len()
    }

    /// How many shift/reduce conflicts there are.
    pub fn sr_len(&self) -> usize
        ensures number { result ≡ length self.now.shift_reduce }
    {
        self.shift_reduce.len()
    }

    /// The texts of both lists, `pp_sr` first. The grammar is the table's. The error says that memory was refused.
    pub fn pp(&self, grm: &YaccGrammar<T>) -> Result<String, AllocError>
        requires entries { AreEntriesOf grm.now self.now }
        ensures text { IfOk result (λ s. string_bytes s ≡ conflicts_text grm.now self.now) }
    {
        let mut text = self.pp_sr(grm)?;
        text.push_str(self.pp_rr(grm)?.as_str())?;
        Ok(text)
    }

    /// The text of the reduce/reduce conflicts, a line each under a headline; empty where there are none. The grammar is the
    /// table's. The error says that memory was refused.
    pub fn pp_rr(&self, grm: &YaccGrammar<T>) -> Result<String, AllocError>
        requires entries { AreEntriesOf grm.now self.now }
        ensures text { IfOk result (λ s. string_bytes s ≡ reduce_reduce_text grm.now self.now) }
    {
        let alloc = grm.allocator();
        let mut text = String::new(alloc);
        if self.reduce_reduce.is_empty() {
            return Ok(text);
        }
        text.push_str("Reduce/Reduce conflicts:\n")?;
        for entry in &self.reduce_reduce {
            text.push_str(reduce_reduce_line(grm, *entry)?.as_str())?;
        }
        Ok(text)
    }

    /// The text of the shift/reduce conflicts, a line each under a headline; empty where there are none. The grammar is the
    /// table's. The error says that memory was refused.
    pub fn pp_sr(&self, grm: &YaccGrammar<T>) -> Result<String, AllocError>
        requires entries { AreEntriesOf grm.now self.now }
        ensures text { IfOk result (λ s. string_bytes s ≡ shift_reduce_text grm.now self.now) }
    {
        let alloc = grm.allocator();
        let mut text = String::new(alloc);
        if self.shift_reduce.is_empty() {
            return Ok(text);
        }
        text.push_str("Shift/Reduce conflicts:\n")?;
        for entry in &self.shift_reduce {
            text.push_str(shift_reduce_line(grm, *entry)?.as_str())?;
        }
        Ok(text)
    }
}
