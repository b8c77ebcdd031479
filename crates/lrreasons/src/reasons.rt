//! Reasons for conflicts.

ghost use Rattle.std.specs.Prelude.{◌≡◌, ◌≢◌, ◌<◌, ◌⊎◌, ℕ, [], ◌∷◌, ◌++◌, All, map, IsSome, IfOk, OnOk, IfSome, ◌↔◌};
ghost use Rattle.std.specs.String.{string_bytes};
ghost use Rattle.lrspec.specs.merging.Graph.{IsGraphOf};
ghost use Rattle.lrspec.specs.tables.Table.{Table, IsTableFor};
ghost use Rattle.lrspec.specs.tables.Conflicts.{AreReductionsContested};
ghost use Rattle.lrspec.specs.tables.LrTables.{HasNoPrecedences, ListsNothing};
ghost use Rattle.lrspec.specs.tables.Recognition.{IsUnambiguous};
ghost use Rattle.lrgrammar.specs.Symbols.{number_of, symbol_of};
ghost use Rattle.lrsearches.specs.StoredWays.{AreWaysOf};
ghost use Rattle.lrtable.specs.RunAnswers.{text_of as tokens_of};
ghost use Rattle.lrtree.specs.StoredTrees.{tree_of};
ghost use Rattle.lrconflicts.specs.Moves.{IsTreeOfText};
ghost use Rattle.lrconflicts.specs.declared.knowledge.Knowledge.TheVariants.{Ambiguous};
ghost use Rattle.lrconflicts.specs.Entries.{entry_of, entries_of, one_of, other_of, token_of, lists_in, IsListed, IsRealAfter, IsNowhereReal};
ghost use Rattle.lrreasons.specs.Examples.{list_of, IsTextOf, IsOutlook, IsExampleOf};
ghost use Rattle.lrreasons.specs.Ambiguities.{IsProofOf};
ghost use Rattle.lrreasons.specs.Reasons.{IsReason};
ghost use Rattle.lrreasons.specs.StoredTexts.{reason_text, reasons_text};

use crate::ambiguities::{ProvedAmbiguity, prove, prove_by};
use crate::examples::{Example, input, outlook};
use crate::groups::push_reasons;
use crate::texts::push_reason;
use lrambiguity::Move;
use lrconflicts::{Conflict, Knowledge, entries, other_move};
use lrcontests::Contests;
use lrforms::Forms;
use lrgrammar::grammar::YaccGrammar;
use lrgrammar::idx::{Symbol, TIdx};
use lrsearches::Ways;
use lrtable::StateGraph;
use lrtable::statetable::Conflicts;
use std::alloc::AllocError;
use std::marker::Model;

/// For which conflicts it is told after what they are real.
#[derive(Clone, Copy, Debug, PartialEq, Eq)]
pub enum Examples {
    /// For those at which no ambiguity was found.
    WhereNotAmbiguous,
    /// For all.
    Everywhere,
}

/// Why there is a conflict.
#[derive(Debug, Drop)]
pub struct Reason {
    /// The conflict.
    pub conflict: Conflict<u32>,
    /// That the grammar is ambiguous there, where a text is found that shows it.
    pub ambiguity: Option<ProvedAmbiguity>,
    /// After what the conflict is real; there at least where no such text is found.
    pub example: Option<Example>,
}

impl Reason {
    /// Whether it is known that the grammar is ambiguous at the conflict.
    pub fn knowledge(&self) -> Knowledge
        ensures { (result ≡ Ambiguous) ↔ IsSome self.now.ambiguity }
    {
        Knowledge::of(self.ambiguity.is_some())
    }

    /// Its text, under the line of its conflict as the texts of a table's conflicts have it. The grammar is the table's. The
    /// error says that memory was refused.
    pub fn pp(&self, grm: &YaccGrammar<u32>) -> Result<String, AllocError>
        ensures text { IfOk result
            (λ s. string_bytes s ≡ reason_text grm.now self.now) }
    {
        let mut text = String::new(grm.allocator());
        push_reason(&mut text, grm, self)?;
        Ok(text)
    }

    /// Lets go of it, by a loop that takes no memory, however deep the trees are.
    pub fn take_apart(self) {
        let Reason { ambiguity, .. } = self;
        if let Some(ambiguity) = ambiguity {
            ambiguity.take_apart();
        }
    }
}

/// Lets go of reasons, by a loop that takes no memory, however deep their trees are.
pub fn take_apart(reasons: Vec<Reason>) {
    for reason in reasons {
        reason.take_apart();
    }
}

/// What gives the reasons for the conflicts of a grammar's table: what all its searches share is made once.
#[derive(Drop)]
pub struct Reasons<'a> {
    grm: &'a YaccGrammar<u32>,
    graph: &'a StateGraph<u32>,
    /// What is shared by the searches for where a conflict is real; None where none is asked for.
    contests: Option<Contests<'a, u32>>,
    forms: Forms<'a>,
}

impl<'a> Model for Reasons<'a> {
    ghost use Rattle.std.specs.Prelude.{◌≡◌, IfSome};
    ghost use Rattle.lrspec.specs.merging.Graph.{IsGraphOf};
    ghost use Rattle.lrcontests.specs.Contests.{Contested};

    ghost Value = { Contested };

    ghost view = { λ r. record { grammar = r.grm.now; graph = r.graph.now } };

    ghost invariant = { λ r. IsGraphOf r.grm.now r.graph.now
        × IfSome r.contests (λ c. (c.grammar ≡ r.grm.now) × (c.graph ≡ r.graph.now)) };
}

/// A shortest list of symbols after which the conflict is real, and the token on which it is.
fn list_by(
    contests: &Contests<'_, u32>,
    conflict: Conflict<u32>,
) -> Result<(Vec<Symbol<u32>>, TIdx<u32>), AllocError>
    requires listed { IsListed contests.now.grammar contests.now.graph
        (entry_of number_of conflict) }
    requires contested { AreReductionsContested contests.now.grammar contests.now.graph }
    ensures real { IfOk result (λ x. IsRealAfter contests.now.grammar contests.now.graph
        x.1.0 (entry_of number_of conflict) (map (symbol_of number_of) x.0.items)) }
    ensures own { IfOk result (λ x. (x.1.0 ≡ conflict.token.0)
        ⊎ IsNowhereReal contests.now.grammar contests.now.graph
        conflict.token.0 (entry_of number_of conflict)) }
    ensures least { IfOk result (λ x. (x.1.0 ≡ conflict.token.0)
        ⊎ ((t : ℕ) → t < x.1.0
        → IsNowhereReal contests.now.grammar contests.now.graph
        t (entry_of number_of conflict))) }
{
    let Conflict {
        state,
        token,
        production,
        other,
    } = conflict;
    let Some(other) = other else {
        let list = contests.of_shift(token, production, state)?;
        return Ok((list, token));
    };
    let found = contests.of_reductions(token, production, other, state)?;
    Ok(found)
}

impl<'a> Reasons<'a> {
    /// Those of the grammar and its graph. The error says that memory was refused.
    pub fn new(
        grm: &'a YaccGrammar<u32>,
        graph: &'a StateGraph<u32>,
    ) -> Result<Reasons<'a>, AllocError>
        requires { IsGraphOf grm.now graph.now }
        ensures grammar { IfOk result (λ r. r.grammar ≡ grm.entry.now) }
        ensures graph { IfOk result (λ r. r.graph ≡ graph.entry.now) }
    {
        let contests = Contests::new(grm, graph)?;
        let forms = Forms::new(grm.allocator(), grm, graph)?;
        Ok(Reasons {
            grm,
            graph,
            contests: Some(contests),
            forms,
        })
    }

    /// The same for a caller who asks for no example: what searches for examples share is made for each by itself.
    pub fn without_examples(
        grm: &'a YaccGrammar<u32>,
        graph: &'a StateGraph<u32>,
    ) -> Result<Reasons<'a>, AllocError>
        requires { IsGraphOf grm.now graph.now }
        ensures grammar { IfOk result (λ r. r.grammar ≡ grm.entry.now) }
        ensures graph { IfOk result (λ r. r.graph ≡ graph.entry.now) }
    {
        let forms = Forms::new(grm.allocator(), grm, graph)?;
        Ok(Reasons {
            grm,
            graph,
            contests: None,
            forms,
        })
    }

    /// Makes what searches for examples share, where it isn't made yet.
    pub fn prepare_examples(&mut self) -> Result<(), AllocError>
        ensures { self.new ≡ self.old }
    {
        if self.contests.is_none() {
            self.contests = Some(Contests::new(self.grm, self.graph)?);
        }
        Ok(())
    }

    /// The ways into the states of the graph, where what searches for examples share is made.
    pub fn ways(&self) -> Option<&Ways<u32>>
        ensures { IfSome result (λ ways.
            AreWaysOf number_of self.now.grammar self.now.graph ways.now) }
    {
        Some(self.contests.as_ref()?.ways())
    }

    /// Lets all further searches together do so much work, or a little more: to try a step, to look at an item of a state, and to
    /// write a step of a tree are pieces of work. Before the first call there is no bound.
    pub fn allow(&self, work: usize) {
        self.forms.allow(work);
    }

    /// Whether the work that is allowed was done, so that nothing is searched any more.
    pub fn is_used_up(&self) -> bool {
        self.forms.is_used_up()
    }

    /// A text with two trees which part at the conflict, or at two others of the candidates of its cell. None where none is
    /// found in so many steps for the conflict's own candidates, and as many for all other pairs of the cell together, of which
    /// fifteen are tried at the most, nor before the allowed work was done: that says nothing. It need not be a conflict that a table lists: it may be one that
    /// precedences settled. The error says that memory was refused.
    pub fn ambiguity(
        &self,
        conflict: Conflict<u32>,
        steps: usize,
    ) -> Result<Option<ProvedAmbiguity>, AllocError>
        ensures proof { IfOk result (λ o. IfSome o
            (IsProofOf self.now.grammar self.now.graph conflict)) }
        ensures one { IfOk result (λ o. IfSome o (λ a. IsTreeOfText self.now.grammar
            (tokens_of number_of a.ambiguity.text.items) (tree_of number_of a.ambiguity.one_tree))) }
        ensures other { IfOk result (λ o. IfSome o (λ a. IsTreeOfText self.now.grammar
            (tokens_of number_of a.ambiguity.text.items)
            (tree_of number_of a.ambiguity.other_tree))) }
        ensures differ { IfOk result (λ o. IfSome o (λ a.
            tree_of number_of a.ambiguity.one_tree ≢ tree_of number_of a.ambiguity.other_tree)) }
        ensures ambiguous { IfOk result (λ o. IsSome o → ¬ (IsUnambiguous self.now.grammar)) }
        ensures conflicts { IfOk result (λ o. IsSome o → HasNoPrecedences self.now.grammar
            → (b : Table) → IsTableFor self.now.grammar b → ¬ (ListsNothing b)) }
    {
        self.grm.in_order();
        if usize::from(conflict.state) >= usize::from(self.graph.all_states_len()) {
            return Ok(None);
        }
        let proved = prove(&self.forms, self.grm, self.graph, &conflict, steps)?;
        Ok(proved)
    }

    /// That the grammar is ambiguous at the conflict, as a text shows that these moves read to two trees, if they part in its state
    /// at its token. The form is the innermost node that both trees have around there. None says nothing. The error says that
    /// memory was refused.
    pub fn ambiguity_by(
        &self,
        conflict: Conflict<u32>,
        text: &[TIdx<u32>],
        one: &[Move<u32>],
        other: &[Move<u32>],
    ) -> Result<Option<ProvedAmbiguity>, AllocError>
        ensures proof { IfOk result (λ o. IfSome o
            (IsProofOf self.now.grammar self.now.graph conflict)) }
        ensures differ { IfOk result (λ o. IfSome o (λ a.
            tree_of number_of a.ambiguity.one_tree ≢ tree_of number_of a.ambiguity.other_tree)) }
    {
        if usize::from(conflict.state) >= usize::from(self.graph.all_states_len()) {
            return Ok(None);
        }
        let proved = prove_by(self.grm, self.graph, &conflict, text, one, other)?;
        Ok(proved)
    }

    /// A shortest list of symbols after which the conflict is real, and the token on which it is.
    fn list(&self, conflict: Conflict<u32>) -> Result<(Vec<Symbol<u32>>, TIdx<u32>), AllocError>
        requires listed { IsListed self.now.grammar self.now.graph (entry_of number_of conflict) }
        requires contested { AreReductionsContested self.now.grammar self.now.graph }
        ensures real { IfOk result (λ x. IsRealAfter self.now.grammar self.now.graph
            x.1.0 (entry_of number_of conflict) (map (symbol_of number_of) x.0.items)) }
        ensures own { IfOk result (λ x. (x.1.0 ≡ conflict.token.0)
            ⊎ IsNowhereReal self.now.grammar self.now.graph
            conflict.token.0 (entry_of number_of conflict)) }
        ensures least { IfOk result (λ x. (x.1.0 ≡ conflict.token.0)
            ⊎ ((t : ℕ) → t < x.1.0
            → IsNowhereReal self.now.grammar self.now.graph t (entry_of number_of conflict))) }
    {
        match &self.contests {
            Some(contests) => list_by(contests, conflict),
            None => list_by(&Contests::new(self.grm, self.graph)?, conflict),
        }
    }

    /// After what the conflict, which the table lists, is real. The error says that memory was refused.
    pub fn example(&self, conflict: Conflict<u32>) -> Result<Example, AllocError>
        requires listed { IsListed self.now.grammar self.now.graph (entry_of number_of conflict) }
        requires contested { AreReductionsContested self.now.grammar self.now.graph }
        ensures real { IfOk result (λ x. IsRealAfter self.now.grammar self.now.graph
            x.token.0 (entry_of number_of conflict) (list_of x)) }
        ensures own { IfOk result (λ x. (x.token.0 ≡ conflict.token.0)
            ⊎ IsNowhereReal self.now.grammar self.now.graph
            conflict.token.0 (entry_of number_of conflict)) }
        ensures least { IfOk result (λ x. (x.token.0 ≡ conflict.token.0)
            ⊎ ((t : ℕ) → t < x.token.0
            → IsNowhereReal self.now.grammar self.now.graph t (entry_of number_of conflict))) }
        ensures input { IfOk result (λ x. IfSome x.input
            (IsTextOf self.now.grammar (list_of x))) }
        ensures one { IfOk result (λ x. IfSome x.one
            (IsOutlook self.now.grammar (list_of x) x.token.0
            (one_of (entry_of number_of conflict)) x.input)) }
        ensures other { IfOk result (λ x. IfSome x.other
            (IsOutlook self.now.grammar (list_of x) x.token.0
            (other_of (entry_of number_of conflict)) x.input)) }
    {
        let (list, token) = self.list(conflict)?;
        let (forms, grm) = (&self.forms, self.grm);
        let input = input(forms, grm, list.as_slice())?;
        let read = input.as_ref();
        let reduce = Move::Reduce(conflict.production);
        let one = outlook(forms, grm, list.as_slice(), token, reduce, read)?;
        let action = other_move(&conflict);
        let other = outlook(forms, grm, list.as_slice(), token, action, read)?;
        Ok(Example {
            list,
            token,
            input,
            one,
            other,
        })
    }

    /// Why there is the conflict, which the table lists: an ambiguity, where one is found in so many steps, as `ambiguity` takes
    /// them; and after what it is real, as the last argument says. The error says that memory was refused.
    pub fn reason(
        &self,
        conflict: Conflict<u32>,
        steps: usize,
        examples: Examples,
    ) -> Result<Reason, AllocError>
        requires listed { IsListed self.now.grammar self.now.graph (entry_of number_of conflict) }
        requires contested { AreReductionsContested self.now.grammar self.now.graph }
        ensures conflict { IfOk result (λ r. r.conflict ≡ conflict) }
        ensures reason { IfOk result (IsReason self.now.grammar self.now.graph) }
        ensures ambiguous { IfOk result (λ r. IsSome r.ambiguity
            → ¬ (IsUnambiguous self.now.grammar)) }
    {
        let ambiguity = self.ambiguity(conflict, steps)?;
        if ambiguity.is_some() && examples == Examples::WhereNotAmbiguous {
            return Ok(Reason {
                conflict,
                ambiguity,
                example: None,
            });
        }
        match self.example(conflict) {
            Ok(example) => Ok(Reason {
                conflict,
                ambiguity,
                example: Some(example),
            }),
            Err(refused) => {
                if let Some(ambiguity) = ambiguity {
                    ambiguity.take_apart();
                }
                Err(refused)
            }
        }
    }

    /// The reasons for all conflicts of the table, shift/reduce conflicts first, in the order of its lists. The error says that
    /// memory was refused.
    pub fn reasons(
        &self,
        conflicts: &Conflicts<u32>,
        steps: usize,
        examples: Examples,
    ) -> Result<Vec<Reason>, AllocError>
        requires lists { conflicts.now ≡ lists_in self.now.grammar self.now.graph }
        requires contested { AreReductionsContested self.now.grammar self.now.graph }
        ensures entries { IfOk result (λ v.
            map (λ r. entry_of number_of r.conflict) v.items ≡ entries_of conflicts.now) }
        ensures reasons { IfOk result (λ v.
            All (IsReason self.now.grammar self.now.graph) v.items) }
        ensures ambiguous { IfOk result (λ v.
            All (λ r. IsSome r.ambiguity → ¬ (IsUnambiguous self.now.grammar)) v.items) }
    {
        let alloc = self.grm.allocator();
        let mut reasons = Vec::new(alloc);
        let entries = entries(alloc, conflicts)?;
        for conflict in entries.as_slice() {
            if let Err(refused) = self.push_reason(&mut reasons, *conflict, steps, examples) {
                take_apart(reasons);
                return Err(refused);
            }
        }
        Ok(reasons)
    }

    /// Adds the reason for the conflict.
    fn push_reason(
        &self,
        reasons: &mut Vec<Reason>,
        conflict: Conflict<u32>,
        steps: usize,
        examples: Examples,
    ) -> Result<(), AllocError>
        requires listed { IsListed self.now.grammar self.now.graph (entry_of number_of conflict) }
        requires contested { AreReductionsContested self.now.grammar self.now.graph }
        ensures { OnOk result ((r : Reason) × (reasons.new.items ≡ reasons.old.items ++ r ∷ [])
            × (r.conflict ≡ conflict) × IsReason self.now.grammar self.now.graph r) }
    {
        let reason = self.reason(conflict, steps, examples)?;
        match reasons.push(reason) {
            Ok(()) => Ok(()),
            Err(refused) => {
                refused.value.take_apart();
                Err(AllocError)
            }
        }
    }

    /// The texts of the reasons; what those of one state and the same candidates share is told once, with their tokens. The
    /// error says that memory was refused.
    pub fn pp(&self, reasons: &[Reason]) -> Result<String, AllocError>
        ensures text { IfOk result
            (λ s. string_bytes s ≡ reasons_text self.now.grammar [] reasons.now) }
    {
        let mut text = String::new(self.grm.allocator());
        push_reasons(&mut text, self.grm, reasons)?;
        Ok(text)
    }
}
