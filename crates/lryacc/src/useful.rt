//! What of a grammar is useful: the productions that derive a text and are reached from the start. The searches are those for
//! generating and for reachable symbols (Hopcroft, Motwani and Ullman, "Introduction to Automata Theory", section 7.1): what
//! they find is checked, and where it lacks a rule, that is found too.

ghost use Rattle.std.specs.Prelude.{◌≡◌, [], ◌∷◌, ◌++◌, true, false, map, All, IsSome, IsTrue, IfOk, IfSome, OnOk, None, is_some, replicate, slice_set, vec_len};
ghost use Rattle.std.specs.List.{filter};
ghost use Rattle.lrgrammar.specs.StoredParts.{part_production_of, part_symbol_of};
ghost use Rattle.lryacc.specs.KeptProductions.{AreInOrder, IsWithout, new_number, new_placed, new_symbol, with_numbers};
ghost use Rattle.lryacc.specs.PlacedProductions.{placed, placed_at, placed_in};
ghost use Rattle.lryacc.specs.ProductionPlaces.{Adds, ArePlaced, IsPlaced};
ghost use Rattle.lryacc.specs.UsefulRules.{AreProductive, AreReached, HasProductive, HasReached, has, has_all, is_useful, productions_in};
ghost use Rattle.lryacc.specs.UsefulRules.{FindsProductive, FindsReached, IsRuleAmong};

use crate::faults::{Fault, FaultKind};
use crate::numbering::FileGrammar;
use crate::places::Span;
use crate::productions::Productions;
use lrgrammar::grammar::{GrammarParts, PartProd, PartSymbol};
use std::alloc::{AllocError, Global};

/// What is known of the rules of a grammar so far.
#[derive(Drop)]
struct Search {
    /// By rule, whether it is found.
    found: Vec<bool>,
    /// Rules that were found, and whose consequences are to be looked at.
    todo: Vec<usize>,
}

impl Search {
    /// No rule is found.
    fn new(alloc: Global, rules: usize) -> Result<Search, AllocError>
        ensures { IfOk result (λ search. search.found.items ≡ replicate rules false) }
    {
        Ok(Search {
            found: vec![in alloc; false; rules]?,
            todo: Vec::new(alloc),
        })
    }

    /// Finds a rule.
    fn find(&mut self, rule: usize) -> Result<(), AllocError>
        ensures { OnOk result (self.new.found.items ≡ slice_set self.old.found.items rule true) }
    {
        let mut is_new = false;
        if let Some(found) = self.found.get_mut(rule) {
            is_new = !*found;
            *found = true;
        }
        if is_new {
            self.todo.push(rule)?;
        }
        Ok(())
    }

    /// Whether a rule is found. A number of no rule is in each set.
    fn has(&self, rule: usize) -> bool
        ensures { result ≡ has self.now.found.items rule }
    {
        self.found.get(rule).copied().unwrap_or(true)
    }

    /// Whether all rules among the symbols are found.
    fn has_all(&self, symbols: &[PartSymbol]) -> bool
        ensures { result ≡ has_all self.now.found.items (map part_symbol_of symbols.now) }
    {
        self.lacking_among(symbols).is_none()
    }

    /// Whether a production is useful where the rules that are found are those that are reached: it is of one of them, and all
    /// rules in its body are productive.
    fn is_useful(&self, productive: &Search, prod: &PartProd) -> bool
        ensures { result ≡ is_useful productive.now.found.items self.now.found.items
            (part_production_of prod.now) }
    {
        self.has(prod.rule) && productive.has_all(prod.symbols.as_slice())
    }

    /// A rule that is lacking though it derives a text: all rules in the body of a production of it are found.
    fn lacking(&self, parts: &GrammarParts) -> Option<usize>
        ensures none { result ≡ None
            → HasProductive self.now.found.items (productions_in parts.now) }
        ensures gone { IfSome result (λ rule. has self.now.found.items rule ≡ false) }
        ensures finds { IfSome result (λ rule. FindsProductive (productions_in parts.now)
            self.now.found.items (slice_set self.now.found.items rule true)) }
    {
        for prod in &parts.prods {
            if self.has_all(prod.symbols.as_slice()) {
                if !self.has(prod.rule) {
                    return Some(prod.rule);
                }
            }
        }
        None
    }

    /// A rule among the symbols that is not found.
    fn lacking_among(&self, symbols: &[PartSymbol]) -> Option<usize>
        ensures none { result ≡ None
            → IsTrue (has_all self.now.found.items (map part_symbol_of symbols.now)) }
        ensures gone { IfSome result (λ rule. has self.now.found.items rule ≡ false) }
        ensures among { IfSome result (λ rule. IsRuleAmong (map part_symbol_of symbols.now) rule) }
    {
        for symbol in symbols {
            if let PartSymbol::Rule(rule) = symbol {
                if !self.has(*rule) {
                    return Some(*rule);
                }
            }
        }
        None
    }

    /// A rule that is lacking though it is reached: rule 0, or one behind a rule that is found.
    fn lacking_reached(&self, parts: &GrammarParts, productive: &Search) -> Option<usize>
        ensures none { result ≡ None → HasReached productive.now.found.items
            self.now.found.items (productions_in parts.now) }
        ensures gone { IfSome result (λ rule. has self.now.found.items rule ≡ false) }
        ensures finds { IfSome result (λ rule. FindsReached productive.now.found.items
            (productions_in parts.now) self.now.found.items
            (slice_set self.now.found.items rule true)) }
    {
        for prod in &parts.prods {
            if self.is_useful(productive, prod) {
                if let Some(rule) = self.lacking_among(prod.symbols.as_slice()) {
                    return Some(rule);
                }
            }
        }
        if self.has(0) { None } else { Some(0) }
    }

    /// Finds the rule of a production if all rules in its body are found.
    fn find_of(&mut self, parts: &GrammarParts, prod: usize) -> Result<(), AllocError>
        ensures { OnOk result (FindsProductive (productions_in parts.now) self.old.found.items
            self.new.found.items) }
    {
        if let Some(found) = parts.prods.get(prod) {
            if self.has_all(found.symbols.as_slice()) {
                self.find(found.rule)?;
            }
        }
        Ok(())
    }

    /// Finds the rules in the body of a production if it is useful.
    fn find_behind(
        &mut self,
        parts: &GrammarParts,
        prod: usize,
        productive: &Search,
    ) -> Result<(), AllocError>
        ensures { OnOk result (FindsReached productive.now.found.items (productions_in parts.now)
            self.old.found.items self.new.found.items) }
    {
        let Some(production) = parts.prods.get(prod) else {
            return Ok(());
        };
        if !self.is_useful(productive, production) {
            return Ok(());
        }
        for symbol in &production.symbols {
            if let PartSymbol::Rule(rule) = symbol {
                self.find(*rule)?;
            }
        }
        Ok(())
    }
}

/// Adds a production to those of a rule.
fn add_to(lists: &mut Vec<Vec<usize>>, rule: usize, prod: usize) -> Result<(), AllocError> {
    if let Some(list) = lists.get_mut(rule) {
        list.push(prod)?;
    }
    Ok(())
}

/// So many empty lists.
fn empty_lists(alloc: Global, count: usize) -> Result<Vec<Vec<usize>>, AllocError> {
    let mut lists = Vec::new(alloc);
    for _ in 0..count {
        lists.push(Vec::new(alloc))?;
    }
    Ok(lists)
}

/// Where the bodies of productions have rules.
#[derive(Drop)]
struct Uses {
    /// By rule, the productions whose bodies have it, as often as they do.
    by_rule: Vec<Vec<usize>>,
    /// By production, how often it has a rule that is not found yet.
    counts: Vec<usize>,
}

/// Where the bodies of a grammar have rules. Finds the rules of those that have none.
#[tactic(auto, using(crate::proofs::LeastSets::finds_again, crate::proofs::LeastSets::finds_nothing))]
fn uses_of(alloc: Global, parts: &GrammarParts, search: &mut Search) -> Result<Uses, AllocError>
    ensures { OnOk result (FindsProductive (productions_in parts.now) search.old.found.items
        search.new.found.items) }
{
    let mut uses = Uses {
        by_rule: empty_lists(alloc, parts.rules.len())?,
        counts: Vec::new(alloc),
    };
    for prod in 0..parts.prods.len() {
        let count = add_uses(
            &mut uses.by_rule,
            prod,
            parts.prods[prod].symbols.as_slice(),
        )?;
        uses.counts.push(count)?;
        if count == 0 {
            search.find_of(parts, prod)?;
        }
    }
    Ok(uses)
}

/// Adds a production to those of the rules among the symbols of its body, and answers how many these are.
fn add_uses(
    by_rule: &mut Vec<Vec<usize>>,
    prod: usize,
    symbols: &[PartSymbol],
) -> Result<usize, AllocError> {
    let mut count: usize = 0;
    for symbol in symbols {
        if let PartSymbol::Rule(rule) = symbol {
            add_to(by_rule, *rule, prod)?;
            count = count.saturating_add(1);
        }
    }
    Ok(count)
}

/// Finds the rules that derive a text by those that are found.
#[tactic(auto, using(crate::proofs::LeastSets::finds_again, crate::proofs::LeastSets::finds_nothing))]
fn find_productive(
    search: &mut Search,
    uses: &mut Uses,
    parts: &GrammarParts,
) -> Result<(), AllocError>
    ensures { OnOk result (FindsProductive (productions_in parts.now) search.old.found.items
        search.new.found.items) }
{
    for _ in 0..parts.rules.len() {
        let Some(rule) = search.todo.pop() else {
            break;
        };
        if let Some(prods) = uses.by_rule.get(rule) {
            count_down(search, &mut uses.counts, parts, prods.as_slice())?;
        }
    }
    Ok(())
}

/// Notes that a rule of these productions derives a text.
#[tactic(auto, using(crate::proofs::LeastSets::finds_again, crate::proofs::LeastSets::finds_nothing))]
fn count_down(
    search: &mut Search,
    counts: &mut Vec<usize>,
    parts: &GrammarParts,
    prods: &[usize],
) -> Result<(), AllocError>
    ensures { OnOk result (FindsProductive (productions_in parts.now) search.old.found.items
        search.new.found.items) }
{
    for prod in prods {
        let mut is_last = false;
        if let Some(count) = counts.get_mut(*prod) {
            is_last = *count == 1;
            *count = count.saturating_sub(1);
        }
        if is_last {
            search.find_of(parts, *prod)?;
        }
    }
    Ok(())
}

/// Which rules derive a text.
fn productive(alloc: Global, parts: &GrammarParts) -> Result<Search, AllocError>
    ensures productive { IfOk result (λ search.
        HasProductive search.found.items (productions_in parts.now)) }
    ensures least { IfOk result (λ search. AreProductive (vec_len parts.now.rules)
        (productions_in parts.now) search.found.items) }
{
    let mut search = Search::new(alloc, parts.rules.len())?;
    let mut uses = uses_of(alloc, parts, &mut search)?;
    find_productive(&mut search, &mut uses, parts)?;
    while let Some(rule) = search.lacking(parts) {
        search.find(rule)?;
    }
    Ok(search)
}

/// By rule, its productions.
fn prods_of_rules(alloc: Global, parts: &GrammarParts) -> Result<Vec<Vec<usize>>, AllocError> {
    let mut by_rule = empty_lists(alloc, parts.rules.len())?;
    for prod in 0..parts.prods.len() {
        add_to(&mut by_rule, parts.prods[prod].rule, prod)?;
    }
    Ok(by_rule)
}

/// Finds the rules that are reached from rule 0 over productions that derive a text.
#[tactic(auto, using(crate::proofs::LeastSets::reaches_again, crate::proofs::LeastSets::reaches_nothing))]
fn find_reached(
    search: &mut Search,
    by_rule: &[Vec<usize>],
    parts: &GrammarParts,
    productive: &Search,
) -> Result<(), AllocError>
    ensures { OnOk result (FindsReached productive.now.found.items (productions_in parts.now)
        search.old.found.items search.new.found.items) }
{
    search.find(0)?;
    for _ in 0..parts.rules.len() {
        let Some(rule) = search.todo.pop() else {
            break;
        };
        if let Some(prods) = by_rule.get(rule) {
            find_behind(search, parts, prods.as_slice(), productive)?;
        }
    }
    Ok(())
}

/// Finds the rules in the bodies of those of the productions that derive a text.
#[tactic(auto, using(crate::proofs::LeastSets::reaches_again, crate::proofs::LeastSets::reaches_nothing))]
fn find_behind(
    search: &mut Search,
    parts: &GrammarParts,
    prods: &[usize],
    productive: &Search,
) -> Result<(), AllocError>
    ensures { OnOk result (FindsReached productive.now.found.items (productions_in parts.now)
        search.old.found.items search.new.found.items) }
{
    for prod in prods {
        search.find_behind(parts, *prod, productive)?;
    }
    Ok(())
}

/// Which rules are reached from rule 0 over productions that derive a text.
fn reached(alloc: Global, parts: &GrammarParts, productive: &Search) -> Result<Search, AllocError>
    ensures many { IfOk result (λ search. vec_len search.found ≡ vec_len parts.now.rules) }
    ensures reached { IfOk result (λ search.
        HasReached productive.now.found.items search.found.items (productions_in parts.now)) }
    ensures least { IfOk result (λ search. AreReached productive.now.found.items
        (vec_len parts.now.rules) (productions_in parts.now) search.found.items) }
{
    let by_rule = prods_of_rules(alloc, parts)?;
    let mut search = Search::new(alloc, parts.rules.len())?;
    find_reached(&mut search, by_rule.as_slice(), parts, productive)?;
    while let Some(rule) = search.lacking_reached(parts, productive) {
        search.find(rule)?;
    }
    Ok(search)
}

/// The new number of each rule that stays.
fn new_numbers(alloc: Global, kept: &Search) -> Result<Vec<Option<usize>>, AllocError>
    ensures order { IfOk result (λ numbers. AreInOrder numbers.items) }
    ensures rules { IfOk result (λ numbers. map is_some numbers.items ≡ kept.now.found.items) }
{
    let mut numbers = Vec::new(alloc);
    let mut next: usize = 0;
    for is_kept in &kept.found {
        if *is_kept {
            numbers.push(Some(next))?;
            next = next.saturating_add(1);
        } else {
            numbers.push(None)?;
        }
    }
    Ok(numbers)
}

/// A symbol, if it is a rule by its new number.
fn renumbered_symbol(symbol: PartSymbol, numbers: &[Option<usize>]) -> PartSymbol
    ensures { part_symbol_of result ≡ new_symbol numbers.now (part_symbol_of symbol) }
{
    match symbol {
        PartSymbol::Rule(rule) => match numbers.get(rule) {
            Some(Some(number)) => PartSymbol::Rule(*number),
            _ => PartSymbol::Rule(0),
        },
        PartSymbol::Token(_) => symbol,
    }
}

/// The symbols with the rules by their new numbers.
fn renumbered(
    alloc: Global,
    symbols: &[PartSymbol],
    numbers: &[Option<usize>],
) -> Result<Vec<PartSymbol>, AllocError>
    ensures { IfOk result (λ list. map part_symbol_of list.items
        ≡ map (new_symbol numbers.now) (map part_symbol_of symbols.now)) }
{
    let mut list = Vec::new(alloc);
    for symbol in symbols {
        list.push(renumbered_symbol(*symbol, numbers))?;
    }
    Ok(list)
}

/// Which rules derive a text, and which of them stay.
#[derive(Drop)]
struct Selection {
    productive: Search,
    /// The new number of each rule that stays.
    numbers: Vec<Option<usize>>,
}

impl Selection {
    /// Of the rules of a grammar those stay that derive a text and are reached.
    fn new(alloc: Global, parts: &GrammarParts) -> Result<Selection, AllocError>
        ensures order { IfOk result (λ selection. AreInOrder selection.numbers.items) }
        ensures many { IfOk result (λ selection.
            vec_len selection.numbers ≡ vec_len parts.now.rules) }
        ensures productive { IfOk result (λ selection.
            HasProductive selection.productive.found.items (productions_in parts.now)) }
        ensures least_productive { IfOk result (λ selection. AreProductive
            (vec_len parts.now.rules) (productions_in parts.now)
            selection.productive.found.items) }
        ensures reached { IfOk result (λ selection.
            HasReached selection.productive.found.items (map is_some selection.numbers.items)
            (productions_in parts.now)) }
        ensures least_reached { IfOk result (λ selection. AreReached
            selection.productive.found.items (vec_len parts.now.rules) (productions_in parts.now)
            (map is_some selection.numbers.items)) }
    {
        let productive = productive(alloc, parts)?;
        let kept = reached(alloc, parts, &productive)?;
        let numbers = new_numbers(alloc, &kept)?;
        Ok(Selection {
            productive,
            numbers,
        })
    }

    /// The memory that it takes.
    fn allocator(&self) -> Global {
        *self.numbers.allocator()
    }

    /// The new number of a rule; None where it is gone.
    fn number(&self, rule: usize) -> Option<usize>
        ensures stays { All (λ number. IsSome number) self.now.numbers.items → IsSome result }
        ensures number { IfSome result (λ number.
            number ≡ new_number self.now.numbers.items rule) }
        ensures has { is_some result ≡ has (map is_some self.now.numbers.items) rule }
    {
        self.numbers.get(rule).copied().unwrap_or(Some(0))
    }

    /// Adds a production with the new number of its rule, and rules in its body by their new numbers.
    fn keep(
        &self,
        kept: &mut Productions,
        rule: usize,
        prod: &PartProd,
        place: Span,
        symbol_places: &[Span],
    ) -> Result<(), AllocError>
        ensures places { OnOk result (Adds kept.old kept.new (place ∷ [])) }
        ensures added { OnOk result (ArePlaced kept.old
            → rule ≡ new_number self.now.numbers.items prod.now.rule
            → placed kept.new ≡ placed kept.old ++ new_placed self.now.numbers.items
            (placed_at prod.now place symbol_places.now) ∷ []) }
    {
        let alloc = self.allocator();
        let prod = PartProd {
            rule,
            symbols: renumbered(alloc, prod.symbols.as_slice(), self.numbers.as_slice())?,
            precedence: prod.precedence,
        };
        kept.add(prod, place, Vec::from_slice(alloc, symbol_places)?)?;
        Ok(())
    }

    /// The productions that stay. Notes where the others of the rules that stay stand.
    fn productions(
        &self,
        whole: &FileGrammar,
        useless: &mut Vec<Span>,
    ) -> Result<Productions, AllocError>
        requires { IsPlaced whole.now }
        ensures stay { IfOk result (λ kept.
            let stays = is_useful self.now.productive.found.items
            (map is_some self.now.numbers.items) in
            placed kept ≡ map (new_placed self.now.numbers.items)
            (filter (λ at. stays at.production) (placed_in whole.now))) }
        ensures placed { IfOk result ArePlaced }
        ensures all { IfOk result (λ kept.
            All (λ number. IsSome number) self.now.numbers.items → useless.new.items ≡ []
            → placed kept ≡ map (new_placed self.now.numbers.items) (placed_in whole.now)) }
    {
        let mut kept = Productions::new(self.allocator());
        for at in 0..whole.parts.prods.len() {
            let prod = &whole.parts.prods[at];
            let place = whole.production_places[at];
            let symbol_places = &whole.symbol_places[at];
            let Some(rule) = self.number(prod.rule) else {
                continue;
            };
            if !self.productive.has_all(prod.symbols.as_slice()) {
                useless.push(place)?;
                continue;
            }
            self.keep(&mut kept, rule, prod, place, symbol_places.as_slice())?;
        }
        Ok(kept)
    }

    /// By token, whether a production that does not stay has it, or names it by `%prec`.
    fn useless_tokens(&self, whole: &FileGrammar) -> Result<Vec<bool>, AllocError> {
        let mut tokens = vec![in self.allocator(); false; whole.parts.tokens.len()]?;
        for (production, prod) in whole.parts.prods.iter().enumerate() {
            if self.number(prod.rule).is_none()
                || !self.productive.has_all(prod.symbols.as_slice())
            {
                whole.mark_tokens(&mut tokens, production);
            }
        }
        Ok(tokens)
    }

    /// Where the start symbols are named that derive no text.
    fn unproductive_starts(&self, whole: &FileGrammar) -> Result<Vec<Span>, AllocError>
        requires { IsPlaced whole.now }
    {
        let mut starts = Vec::new(self.allocator());
        for at in 0..whole.parts.prods.len() {
            let prod = &whole.parts.prods[at];
            if prod.rule == 0 && !self.productive.has_all(prod.symbols.as_slice()) {
                starts.push(whole.production_places[at])?;
            }
        }
        Ok(starts)
    }

    /// Why the other rules do not stay, and where they stand.
    fn useless_rules(&self, places: &[Span]) -> Result<Vec<Fault>, AllocError>
        ensures { IfOk result (λ useless. useless.items ≡ []
            → All (λ number. IsSome number) self.now.numbers.items) }
    {
        let mut useless = Vec::new(self.allocator());
        for (rule, number) in self.numbers.iter().enumerate() {
            if number.is_some() {
                continue;
            }
            let kind = if self.productive.has(rule) {
                FaultKind::UnreachedRule
            } else {
                FaultKind::UnproductiveRule
            };
            let span = places.get(rule).copied().unwrap_or(Span::new(0, 0));
            useless.push(Fault { kind, span })?;
        }
        Ok(useless)
    }

    /// Of a list by rule, what it has of the rules that stay.
    fn with_numbers<T: Drop>(&self, list: Vec<T>) -> Result<Vec<T>, AllocError>
        ensures { IfOk result (λ kept.
            kept.items ≡ with_numbers self.now.numbers.items list.items) }
    {
        let mut kept = Vec::new(self.allocator());
        for (number, item) in self.numbers.iter().zip(list) {
            if number.is_some() {
                kept.push(item)?;
            }
        }
        Ok(kept)
    }

    /// The rules that stay, and the tokens, with no production.
    fn rules(&self, parts: GrammarParts, places: Vec<Span>) -> Result<FileGrammar, AllocError>
        ensures names { IfOk result (λ kept. kept.parts.rules.items
            ≡ with_numbers self.now.numbers.items parts.rules.items) }
        ensures places { IfOk result (λ kept. kept.rule_places.items
            ≡ with_numbers self.now.numbers.items places.items) }
        ensures tokens { IfOk result (λ kept. kept.parts.tokens.items ≡ parts.tokens.items) }
        ensures start { IfOk result (λ kept. kept.parts.start ≡ 0) }
    {
        let GrammarParts { rules, tokens, .. } = parts;
        let rules = self.with_numbers(rules)?;
        let rule_places = self.with_numbers(places)?;
        let alloc = self.allocator();
        Ok(FileGrammar {
            parts: GrammarParts {
                rules,
                tokens,
                prods: Vec::new(alloc),
                start: 0,
            },
            rule_places,
            ..FileGrammar::empty(alloc)
        })
    }

    /// The productions that stay, and what is taken out.
    fn parted(&self, whole: &FileGrammar) -> Result<Parted, AllocError>
        requires { IsPlaced whole.now }
        ensures stay { IfOk result (λ parted.
            let stays = is_useful self.now.productive.found.items
            (map is_some self.now.numbers.items) in
            placed parted.productions ≡ map (new_placed self.now.numbers.items)
            (filter (λ at. stays at.production) (placed_in whole.now))) }
        ensures placed { IfOk result (λ parted. ArePlaced parted.productions) }
        ensures all { IfOk result (λ parted.
            parted.useless.rules.items ≡ [] → parted.useless.productions.items ≡ []
            → placed parted.productions
            ≡ map (new_placed self.now.numbers.items) (placed_in whole.now)) }
    {
        let mut useless = Useless {
            rules: self.useless_rules(whole.rule_places.as_slice())?,
            productions: Vec::new(self.allocator()),
            starts: self.unproductive_starts(whole)?,
        };
        let productions = self.productions(whole, &mut useless.productions)?;
        let useless_tokens = self.useless_tokens(whole)?;
        Ok(Parted {
            productions,
            useless,
            useless_tokens,
        })
    }
}

/// What was taken out of a grammar.
#[derive(Drop)]
pub(crate) struct Useless {
    /// Why rules were taken out, and where they are named.
    pub(crate) rules: Vec<Fault>,
    /// Where the other productions stand that derive no text.
    pub(crate) productions: Vec<Span>,
    /// Where the start symbols are named that derive no text: each has a production of rule 0.
    pub(crate) starts: Vec<Span>,
}

/// The productions of a grammar, parted by whether they are useful.
#[derive(Drop)]
struct Parted {
    /// Those that stay.
    productions: Productions,
    useless: Useless,
    /// By token, whether a production that does not stay has it, or names it by `%prec`.
    useless_tokens: Vec<bool>,
}

/// The grammar without the rules and productions that are not reached or derive no text, and what was taken out.
pub(crate) fn without_useless(
    alloc: Global,
    whole: FileGrammar,
) -> Result<(FileGrammar, Useless), AllocError>
    requires { IsPlaced whole }
    ensures without { IfOk result (λ r. IsWithout r.1 whole r.0) }
    ensures placed { IfOk result (λ r. IsPlaced r.0) }
{
    let selection = Selection::new(alloc, &whole.parts)?;
    let Parted {
        productions,
        useless,
        useless_tokens,
    } = selection.parted(&whole)?;
    let FileGrammar {
        parts,
        rule_places,
        mut token_places,
        ..
    } = whole;
    token_places.useless = useless_tokens;
    let rules = selection.rules(parts, rule_places)?;
    Ok((rules.with_productions(token_places, productions), useless))
}
