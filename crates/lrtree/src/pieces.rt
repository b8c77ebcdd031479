//! The texts of trees, written from their last byte to their first.

ghost use Rattle.std.specs.Prelude.{◌≡◌, [], ◌<◌, ◌≤◌, ◌++◌, length, map, take, drop, reverse, OnOk, IfOk};
ghost use Rattle.std.specs.String.{string_bytes};
ghost use Rattle.lrgrammar.specs.Symbols.{symbol_of};
ghost use Rattle.lrspec.specs.grammars.Grammar.{end_token, AreBodySymbols, IsBodySymbol};
ghost use Rattle.lrspec.specs.texts.PrintedTexts.{token_text};
ghost use Rattle.lrspec.specs.texts.TreeTexts.{tree_text};
ghost use Rattle.lrtree.specs.Pieces.{draft_of, with_gap, with_symbol, pieces_of, node_text};
ghost use Rattle.lrtree.specs.StoredPieces.{ArePieces, texts_of, pieces_at, stored_draft};
ghost use Rattle.lrtree.specs.TreesOf.{HasTreeOf, IsOfTree};

use crate::texts::push_token;
use lrgrammar::grammar::YaccGrammar;
use lrgrammar::idx::{IndexStorage, PIdx, Symbol, TIdx};
use lrtable::machine::production_label;
use std::alloc::AllocError;
use std::mem;

/// What is written of the nodes of a grammar's trees.
#[derive(Drop)]
pub(crate) struct Pieces {
    /// Of each production the texts that stand before, between and behind those children of a node that are nodes: the last one
    /// first, and each from its last byte to its first.
    nodes: Vec<Vec<Vec<u8>>>,
}

impl Pieces {
    /// The pieces of all productions of the grammar.
    pub(crate) fn new<T: IndexStorage>(grm: &YaccGrammar<T>) -> Result<Pieces, AllocError>
        ensures { IfOk result (λ pieces. ArePieces grm.now pieces.nodes.items) }
    {
        let mut nodes = Vec::new(grm.allocator());
        for prod in 0..usize::from(grm.prods_len()) {
            nodes.push(node_pieces(grm, PIdx(T::from_usize(prod).unwrap()))?)?;
        }
        Ok(Pieces { nodes })
    }

    /// The pieces of a production.
    fn of<T: IndexStorage>(&self, pidx: PIdx<T>) -> &[Vec<u8>]
        requires { T.number pidx.0 < length self.now.nodes.items }
        ensures { texts_of result.now ≡ pieces_at self.now.nodes.items (T.number pidx.0) }
    {
        self.nodes[usize::from(pidx)].as_slice()
    }

    /// Writes the text of the tree of these productions in order behind `out`. The tree is not made.
    pub(crate) fn push_tree<T: IndexStorage>(
        &self,
        grm: &YaccGrammar<T>,
        productions: Vec<PIdx<T>>,
        out: &mut Vec<u8>,
    ) -> Result<(), AllocError>
        requires pieces { ArePieces grm.now self.now.nodes.items }
        requires tree { HasTreeOf T.number grm.now productions.items }
        ensures { OnOk result (IsOfTree T.number grm.now productions.items (λ t.
            out.new.items ≡ out.old.items ++ tree_text grm.now t)) }
    {
        let start = out.len();
        self.push_turned(grm, productions, out)?;
        turn_behind(out.as_mut_slice(), start);
        Ok(())
    }

    /// Writes that text from its last byte to its first. The last production that is left is that of the last node whose end
    /// was not written yet.
    fn push_turned<T: IndexStorage>(
        &self,
        grm: &YaccGrammar<T>,
        productions: Vec<PIdx<T>>,
        out: &mut Vec<u8>,
    ) -> Result<(), AllocError>
        requires pieces { ArePieces grm.now self.now.nodes.items }
        requires tree { HasTreeOf T.number grm.now productions.items }
        ensures { OnOk result (IsOfTree T.number grm.now productions.items (λ t.
            out.new.items ≡ out.old.items ++ reverse (tree_text grm.now t))) }
    {
        let mut left = productions;
        // the pieces of the nodes that are written in part, those of the innermost one last
        let mut open = Vec::new(grm.allocator());
        let root = left.pop().unwrap();
        open.push(self.of(root))?;
        while let Some(pieces) = open.pop() {
            let (piece, others) = pieces.split_first().unwrap();
            out.extend_from_slice(piece.as_slice())?;
            if !others.is_empty() {
                open.push(others)?;
                let child = left.pop().unwrap();
                open.push(self.of(child))?;
            }
        }
        Ok(())
    }
}

/// Turns the bytes from this place on round.
fn turn_behind(bytes: &mut [u8], start: usize)
    requires { start ≤ length bytes.old }
    ensures { bytes.new ≡ take start bytes.old ++ reverse (drop start bytes.old) }
{
    let (_, behind) = bytes.split_at_mut(start);
    behind.reverse();
}

/// The text from its last byte to its first.
fn turned(text: String) -> Vec<u8>
    ensures { result.items ≡ reverse (string_bytes text) }
{
    let mut bytes = text.into_bytes();
    bytes.as_mut_slice().reverse();
    bytes
}

/// A token's name between quotes, from its last byte to its first.
fn turned_token<T: IndexStorage>(grm: &YaccGrammar<T>, tidx: TIdx<T>) -> Result<Vec<u8>, AllocError>
    requires { T.number tidx.0 < end_token grm.now }
    ensures { IfOk result (λ v. v.items ≡ reverse (token_text grm.now (T.number tidx.0))) }
{
    let mut text = String::new(grm.allocator());
    push_token(&mut text, grm, tidx)?;
    Ok(turned(text))
}

/// A production's label with the bracket behind it, from its last byte to its first.
fn turned_node<T: IndexStorage>(grm: &YaccGrammar<T>, pidx: PIdx<T>) -> Result<Vec<u8>, AllocError>
    requires { T.number pidx.0 < length grm.now.productions }
    ensures { IfOk result (λ v. v.items ≡ reverse (node_text grm.now (T.number pidx.0))) }
{
    let mut text = production_label(grm, pidx)?;
    text.push('(')?;
    Ok(turned(text))
}

/// Pieces of a production in the making, from the end of a node on.
#[derive(Drop)]
struct Draft {
    /// Those that are whole.
    pieces: Vec<Vec<u8>>,
    /// The one in work.
    text: Vec<u8>,
}

impl Draft {
    /// The bracket at the end of a node.
    fn new<T: IndexStorage>(grm: &YaccGrammar<T>) -> Result<Draft, AllocError>
        ensures { IfOk result (λ draft. stored_draft draft ≡ draft_of grm.now []) }
    {
        let alloc = grm.allocator();
        let mut text = Vec::new(alloc);
        text.push(b')')?;
        Ok(Draft {
            pieces: Vec::new(alloc),
            text,
        })
    }

    /// Adds a space before so many symbols, if there are any.
    fn push_gap(&mut self, symbols: usize) -> Result<(), AllocError>
        ensures { OnOk result
            (stored_draft self.new ≡ with_gap symbols (stored_draft self.old)) }
    {
        if symbols > 0 {
            self.text.push(b' ')?;
        }
        Ok(())
    }

    /// Adds a symbol: the text of a token, or a node, behind which a piece is whole.
    fn push_symbol<T: IndexStorage>(
        &mut self,
        grm: &YaccGrammar<T>,
        symbol: Symbol<T>,
    ) -> Result<(), AllocError>
        requires { IsBodySymbol grm.now (symbol_of T.number symbol) }
        ensures { OnOk result (stored_draft self.new
            ≡ with_symbol grm.now (symbol_of T.number symbol) (stored_draft self.old)) }
    {
        match symbol {
            Symbol::Token(tidx) => {
                let text = turned_token(grm, tidx)?;
                self.text.extend_from_slice(text.as_slice())
            }
            Symbol::Rule(_) => {
                let piece = mem::replace(&mut self.text, Vec::new(grm.allocator()));
                self.pieces.push(piece)?;
                Ok(())
            }
        }
    }
}

/// What is written of a node behind its label, by the symbols of its body.
fn body_draft<T: IndexStorage>(
    grm: &YaccGrammar<T>,
    body: &[Symbol<T>],
) -> Result<Draft, AllocError>
    requires { AreBodySymbols grm.now (map (symbol_of T.number) body.now) }
    ensures { IfOk result (λ draft.
        stored_draft draft ≡ draft_of grm.now (map (symbol_of T.number) body.now)) }
{
    let mut draft = Draft::new(grm)?;
    let mut place = body.len();
    while place > 0 {
        draft.push_gap(body.len() - place)?;
        place -= 1;
        draft.push_symbol(grm, body[place])?;
    }
    Ok(draft)
}

/// The pieces of a production.
fn node_pieces<T: IndexStorage>(
    grm: &YaccGrammar<T>,
    pidx: PIdx<T>,
) -> Result<Vec<Vec<u8>>, AllocError>
    requires { T.number pidx.0 < length grm.now.productions }
    ensures { IfOk result (λ v. texts_of v.items ≡ pieces_of grm.now (T.number pidx.0)) }
{
    let Draft {
        mut pieces,
        mut text,
    } = body_draft(grm, grm.prod(pidx))?;
    let node = turned_node(grm, pidx)?;
    text.extend_from_slice(node.as_slice())?;
    pieces.push(text)?;
    Ok(pieces)
}
