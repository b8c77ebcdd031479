//! The game for a cell: positions that are looked at, breadth first, with the answers that were tried and those that wait.

ghost use Rattle.std.specs.Prelude.{◌<◌, length};
ghost use Rattle.lrspec.specs.merging.Graph.{IsGraphOf};
ghost use Rattle.lrsearches.specs.StoredWays.{AreWaysOf};
ghost use Rattle.lrgrammar.specs.Symbols.{number_of};

use crate::answers::Answer;
use crate::listing::{Listing, is_same};
use crate::positions::Position;
use crate::possible::{our_top, possible};
use crate::proceeding::proceeding;
use crate::retreating::retreating;
use crate::sinking::sunk;
use crate::winning::{Node, Tried, Won, all_won, are_set, places_won, used};
use lrgrammar::grammar::YaccGrammar;
use lrgraphs::stategraph::StateGraph;
use lrsearches::Ways;
use std::alloc::{AllocError, Global};

/// Positions with more symbols above their states are not looked at.
const LONGEST: usize = 14;

/// Where the game is played.
#[derive(Clone, Copy)]
pub struct Board<'a> {
    pub grm: &'a YaccGrammar<u32>,
    pub graph: &'a StateGraph<u32>,
    pub ways: &'a Ways<u32>,
    /// Positions that were won before.
    pub won: &'a Listing,
}

impl Board<'_> {
    /// Whether the position needs no answer: they have just what we have there, or it was won before.
    fn is_won(self, position: &Position) -> bool {
        is_same(position) || self.won.find(position).is_some()
    }
}

/// The same answer.
fn same(answer: &Answer) -> Answer {
    match answer {
        Answer::Moves => Answer::Moves,
        Answer::Mirror => Answer::Mirror,
        Answer::Release => Answer::Release,
        Answer::Step => Answer::Step,
        Answer::Read => Answer::Read,
        Answer::Own(production) => Answer::Own(*production),
        Answer::Unmark => Answer::Unmark,
    }
}

/// What is asked by the answer; None where it can't be given.
fn asked(
    board: Board<'_>,
    position: &Position,
    answer: Answer,
) -> Result<Option<Vec<Position>>, AllocError>
    requires { AreWaysOf number_of board.grm.now board.graph.now board.ways.now }
{
    match answer {
        Answer::Own(_) | Answer::Unmark => {
            retreating(board.grm, board.graph, board.ways, position, answer)
        }
        _ => proceeding(board.grm, board.graph, board.ways, position, answer),
    }
}

/// An answer that may be given.
#[derive(Drop)]
struct Choice {
    /// The answer.
    answer: Answer,
    /// The greatest size of what it asks.
    size: usize,
    /// What it asks that is not won.
    open: Vec<Position>,
}

/// The position, sunk; None where it needs no answer.
fn open_one(board: Board<'_>, position: Position) -> Result<Option<Position>, AllocError> {
    let low = match sunk(board.grm, board.graph, &position)? {
        Some(low) => low,
        None => position,
    };
    if board.is_won(&low) {
        return Ok(None);
    }
    Ok(Some(low))
}

/// Those of the positions that need an answer, sunk.
pub fn open_ones(board: Board<'_>, asked: Vec<Position>) -> Result<Vec<Position>, AllocError> {
    let mut open = Vec::new(board.grm.allocator());
    for position in asked {
        if let Some(low) = open_one(board, position)? {
            open.push(low)?;
        }
    }
    Ok(open)
}

/// Whether nothing is done with our stack by the answer: it leads somewhere if it did before.
fn leaves_ours(answer: Answer) -> bool {
    match answer {
        Answer::Moves | Answer::Release => true,
        _ => false,
    }
}

/// How many symbols the longer stack of the position has above what both have, and one more, where the answer leads to it; None
/// where that is not looked at: the stack is too long, or ours leads nowhere.
fn size_of(board: Board<'_>, answer: Answer, low: &Position) -> Option<usize> {
    let longer = low.theirs.len().max(low.ours.symbols.len());
    if longer > LONGEST {
        return None;
    }
    if !leaves_ours(answer) && our_top(board.graph, low).is_none() {
        return None;
    }
    Some(longer.saturating_add(1))
}

/// The choice of the answer that asks this; None where one of these is not looked at.
fn choice_of(
    board: Board<'_>,
    answer: Answer,
    asked: Vec<Position>,
) -> Result<Option<Choice>, AllocError> {
    let mut size = 0;
    let mut open = Vec::new(board.grm.allocator());
    for position in asked {
        let Some(low) = open_one(board, position)? else {
            continue;
        };
        let Some(of_this) = size_of(board, same(&answer), &low) else {
            return Ok(None);
        };
        size = of_this.max(size);
        open.push(low)?;
    }
    Ok(Some(Choice { answer, size, open }))
}

/// The choice of the answer; None where it can't be given, or something that it asks is not looked at.
fn choice_by(
    board: Board<'_>,
    position: &Position,
    answer: Answer,
) -> Result<Option<Choice>, AllocError>
    requires { AreWaysOf number_of board.grm.now board.graph.now board.ways.now }
{
    match asked(board, position, same(&answer))? {
        Some(asked) => choice_of(board, answer, asked),
        None => Ok(None),
    }
}

/// Whether nothing is chosen, or something larger than this.
fn is_smaller(size: usize, chosen: &Option<Choice>) -> bool {
    match chosen {
        Some(choice) => size < choice.size,
        None => true,
    }
}

/// The choice at the position that asks for the shortest stacks, if there is one, and the other answers that may be given there,
/// the likeliest last. There are none where the first one asks nothing.
fn choices(
    board: Board<'_>,
    position: &Position,
) -> Result<(Option<Choice>, Vec<Answer>), AllocError>
    requires { AreWaysOf number_of board.grm.now board.graph.now board.ways.now }
{
    let alloc = board.grm.allocator();
    let answers = possible(board.grm, board.graph, position)?;
    let mut sizes: Vec<(usize, usize)> = Vec::new(alloc);
    let mut chosen = None;
    for number in (0..answers.len()).rev() {
        let Some(choice) = choice_by(board, position, answers[number])? else {
            continue;
        };
        if choice.size == 0 {
            return Ok((Some(choice), Vec::new(alloc)));
        }
        sizes.push((choice.size, answers.len() - number))?;
        if is_smaller(choice.size, &chosen) {
            chosen = Some(choice);
        }
    }
    sizes.sort()?;
    let mut others = by_sizes(alloc, answers.as_slice(), sizes.as_slice())?;
    others.pop();
    Ok((chosen, others))
}

/// Those of the answers that have sizes, by these and how far they are from the end, the greatest first.
fn by_sizes(
    alloc: Global,
    answers: &[Answer],
    sizes: &[(usize, usize)],
) -> Result<Vec<Answer>, AllocError> {
    let mut sorted = Vec::new(alloc);
    for size in sizes.iter().rev() {
        if let Some(answer) = answers.get(answers.len().saturating_sub(size.1)) {
            sorted.push(*answer)?;
        }
    }
    Ok(sorted)
}

/// The place of the position, which is added if it is not listed.
fn place_of(listing: &mut Listing, position: Position) -> Result<usize, AllocError> {
    if let Some(place) = listing.find(&position) {
        return Ok(place);
    }
    let place = listing.positions.len();
    listing.add(position)?;
    Ok(place)
}

/// The places of the positions; those that were not listed are added.
pub fn places_of(
    listing: &mut Listing,
    alloc: Global,
    positions: Vec<Position>,
) -> Result<Vec<usize>, AllocError> {
    let mut places = Vec::with_capacity(alloc, positions.len())?;
    for position in positions {
        let place = place_of(listing, position)?;
        places.push(place)?;
    }
    Ok(places)
}

/// The choice, of which the places of what it asks are known: those that were not listed are added.
fn tried_by(listing: &mut Listing, alloc: Global, choice: Choice) -> Result<Tried, AllocError> {
    let Choice { answer, open, .. } = choice;
    let asks = places_of(listing, alloc, open)?;
    Ok(Tried { answer, asks })
}

/// Gives the next answer at the place; answers whether there is one.
fn give_next(
    listing: &mut Listing,
    nodes: &mut Vec<Node>,
    board: Board<'_>,
    place: usize,
) -> Result<bool, AllocError>
    requires { AreWaysOf number_of board.grm.now board.graph.now board.ways.now }
{
    if place >= nodes.len() || place >= listing.positions.len() {
        return Ok(false);
    }
    let Some(answer) = nodes[place].waiting.pop() else {
        return Ok(false);
    };
    let Some(asked) = asked(board, &listing.positions[place], same(&answer))? else {
        return Ok(false);
    };
    let open = open_ones(board, asked)?;
    let asks = places_of(listing, board.grm.allocator(), open)?;
    nodes[place].tried.push(Tried { answer, asks })?;
    Ok(true)
}

/// Looks at the next position, if there is one, and gives the first answer there.
fn look_at_next(
    listing: &mut Listing,
    nodes: &mut Vec<Node>,
    board: Board<'_>,
) -> Result<(), AllocError>
    requires { AreWaysOf number_of board.grm.now board.graph.now board.ways.now }
{
    let place = nodes.len();
    if place >= listing.positions.len() {
        return Ok(());
    }
    let alloc = board.grm.allocator();
    let (first, waiting) = choices(board, &listing.positions[place])?;
    let mut tried = Vec::new(alloc);
    if let Some(choice) = first {
        tried.push(tried_by(listing, alloc, choice)?)?;
    }
    nodes.push(Node { waiting, tried })?;
    Ok(())
}

/// Looks at all positions, but at no more than so many; answers whether these are all.
fn look_at_all(
    listing: &mut Listing,
    nodes: &mut Vec<Node>,
    board: Board<'_>,
    most: usize,
) -> Result<bool, AllocError>
    requires { AreWaysOf number_of board.grm.now board.graph.now board.ways.now }
{
    for _turn in 0..most {
        if nodes.len() >= listing.positions.len() {
            return Ok(true);
        }
        look_at_next(listing, nodes, board)?;
    }
    Ok(nodes.len() >= listing.positions.len())
}

/// Gives the next answer at each position that is not won; answers whether there is one.
fn give_others(
    listing: &mut Listing,
    nodes: &mut Vec<Node>,
    board: Board<'_>,
    are_won: &[bool],
) -> Result<bool, AllocError>
    requires { AreWaysOf number_of board.grm.now board.graph.now board.ways.now }
{
    let mut some = false;
    for place in 0..are_won.len() {
        if are_won[place] {
            continue;
        }
        let given = give_next(listing, nodes, board, place)?;
        some = some || given;
    }
    Ok(some)
}

/// Plays until the positions at the places are won, or no answers are left, or as many positions were looked at; the positions by
/// which they are, each behind those to which we come by reductions alone.
pub fn play(
    listing: &mut Listing,
    nodes: &mut Vec<Node>,
    board: Board<'_>,
    roots: &[usize],
    most: usize,
) -> Result<Option<Vec<Won>>, AllocError>
    requires { AreWaysOf number_of board.grm.now board.graph.now board.ways.now }
{
    let alloc = board.grm.allocator();
    for _round in 0..most {
        let left = most.saturating_sub(nodes.len());
        if !look_at_all(listing, nodes, board, left)? {
            return Ok(None);
        }
        let won = all_won(alloc, nodes.as_slice())?;
        let are_won = places_won(alloc, nodes.len(), won.as_slice())?;
        if are_set(roots, are_won.as_slice()) {
            let used = used(alloc, nodes.as_slice(), won.as_slice(), roots)?;
            return Ok(Some(used));
        }
        if !give_others(listing, nodes, board, are_won.as_slice())? {
            return Ok(None);
        }
    }
    Ok(None)
}
