//! Which of the positions that were looked at are won, and in which order: the greatest fixed point over all that they do, and in
//! each of its rounds the least one over what we do alone, so that an answer of ours leads to an earlier position.

use crate::answers::Answer;
use std::alloc::{AllocError, Global};

/// An answer that was tried.
#[derive(Drop)]
pub struct Tried {
    /// The answer.
    pub answer: Answer,
    /// The places of the positions for which it asks.
    pub(crate) asks: Vec<usize>,
}

/// The answers of a position that was looked at.
#[derive(Drop)]
pub struct Node {
    /// Those that were not tried, the likeliest last.
    pub(crate) waiting: Vec<Answer>,
    /// Those that were.
    pub tried: Vec<Tried>,
}

/// Whether by the answer we alone do something.
pub(crate) fn is_own(answer: Answer) -> bool {
    match answer {
        Answer::Own(_) | Answer::Unmark => true,
        _ => false,
    }
}

/// A position that is won, by its place, and the number of the answer by which it is.
#[derive(Clone, Copy)]
pub struct Won {
    pub place: usize,
    pub answer: usize,
}

/// Whether each place is set.
pub(crate) fn are_set(places: &[usize], set: &[bool]) -> bool {
    for place in places {
        match set.get(*place) {
            Some(true) => {}
            _ => return false,
        }
    }
    true
}

/// The first of the answers for which all is won, and in order where we alone do something.
fn winning(tried: &[Tried], won: &[bool], in_order: &[bool]) -> Option<usize> {
    for number in 0..tried.len() {
        let answer = &tried[number];
        let set = if is_own(answer.answer) { in_order } else { won };
        if are_set(answer.asks.as_slice(), set) {
            return Some(number);
        }
    }
    None
}

/// Sets the place, if there is one.
fn set(places: &mut Vec<bool>, place: usize) {
    if place < places.len() {
        places[place] = true;
    }
}

/// Whether the place is set.
fn is_set(places: &[bool], place: usize) -> bool {
    match places.get(place) {
        Some(is) => *is,
        None => false,
    }
}

/// Adds the positions that are won where these are, and stand not yet in order.
fn add_won(
    order: &mut Vec<Won>,
    in_order: &mut Vec<bool>,
    nodes: &[Node],
    won: &[bool],
) -> Result<(), AllocError> {
    for place in 0..nodes.len() {
        if !is_set(won, place) || is_set(in_order.as_slice(), place) {
            continue;
        }
        let Some(answer) = winning(nodes[place].tried.as_slice(), won, in_order.as_slice()) else {
            continue;
        };
        order.push(Won { place, answer })?;
        set(in_order, place);
    }
    Ok(())
}

/// The positions that are won where these are, in order.
fn in_order(
    alloc: Global,
    nodes: &[Node],
    won: &[bool],
) -> Result<(Vec<Won>, Vec<bool>), AllocError> {
    let mut order = Vec::new(alloc);
    let mut set: Vec<bool> = vec![in alloc; false; nodes.len()]?;
    for _turn in 0..nodes.len() {
        let before = order.len();
        add_won(&mut order, &mut set, nodes, won)?;
        if order.len() == before {
            break;
        }
    }
    Ok((order, set))
}

/// Takes the positions away that no answer wins, the last first; answers whether there were some.
fn drop_lost(won: &mut Vec<bool>, nodes: &[Node]) -> bool {
    let mut some = false;
    for place in (0..nodes.len()).rev() {
        if !is_set(won.as_slice(), place) {
            continue;
        }
        let answers = nodes[place].tried.as_slice();
        if winning(answers, won.as_slice(), won.as_slice()).is_some() {
            continue;
        }
        if place < won.len() {
            won[place] = false;
            some = true;
        }
    }
    some
}

/// Takes all positions away that are lost, as others are.
fn drop_all_lost(won: &mut Vec<bool>, nodes: &[Node]) {
    for _turn in 0..nodes.len() {
        if !drop_lost(won, nodes) {
            return;
        }
    }
}

/// How many are set.
fn count_set(places: &[bool]) -> usize {
    let mut count = 0usize;
    for is in places {
        if *is {
            count = count.saturating_add(1);
        }
    }
    count
}

/// The positions that are won by these answers, in order.
pub(crate) fn all_won(alloc: Global, nodes: &[Node]) -> Result<Vec<Won>, AllocError> {
    let mut won: Vec<bool> = vec![in alloc; true; nodes.len()]?;
    for _turn in 0..nodes.len() {
        drop_all_lost(&mut won, nodes);
        let (order, ordered) = in_order(alloc, nodes, won.as_slice())?;
        if order.len() == count_set(won.as_slice()) {
            return Ok(order);
        }
        won = ordered;
    }
    Ok(Vec::new(alloc))
}

/// For each of so many positions whether it is won.
pub(crate) fn places_won(
    alloc: Global,
    count: usize,
    won: &[Won],
) -> Result<Vec<bool>, AllocError> {
    let mut places: Vec<bool> = vec![in alloc; false; count]?;
    for one in won {
        set(&mut places, one.place);
    }
    Ok(places)
}

/// By which answers the positions at places are won.
fn answers_won(alloc: Global, count: usize, won: &[Won]) -> Result<Vec<Option<usize>>, AllocError> {
    let mut answers: Vec<Option<usize>> = vec![in alloc; None; count]?;
    for one in won {
        if one.place < answers.len() {
            answers[one.place] = Some(one.answer);
        }
    }
    Ok(answers)
}

/// Adds the places that were not added.
fn add_new(
    places: &mut Vec<usize>,
    are_added: &mut Vec<bool>,
    others: &[usize],
) -> Result<(), AllocError> {
    for place in others {
        if !is_set(are_added.as_slice(), *place) {
            set(are_added, *place);
            places.push(*place)?;
        }
    }
    Ok(())
}

/// What the answer asks by which the position at the place is won.
fn asks_of<'a>(nodes: &'a [Node], answers: &[Option<usize>], place: usize) -> &'a [usize] {
    let Some(Some(answer)) = answers.get(place) else {
        return &[];
    };
    let Some(node) = nodes.get(place) else {
        return &[];
    };
    match node.tried.get(*answer) {
        Some(tried) => tried.asks.as_slice(),
        None => &[],
    }
}

/// For each position whether the first ones are won by it, or by what its answer asks.
fn are_used(
    alloc: Global,
    nodes: &[Node],
    won: &[Won],
    firsts: &[usize],
) -> Result<Vec<bool>, AllocError> {
    let answers = answers_won(alloc, nodes.len(), won)?;
    let mut are_used: Vec<bool> = vec![in alloc; false; nodes.len()]?;
    let mut places = Vec::new(alloc);
    add_new(&mut places, &mut are_used, firsts)?;
    for turn in 0..nodes.len() {
        if turn >= places.len() {
            break;
        }
        let asks = asks_of(nodes, answers.as_slice(), places[turn]);
        add_new(&mut places, &mut are_used, asks)?;
    }
    Ok(are_used)
}

/// Those of the positions that are won by which the first ones are.
pub(crate) fn used(
    alloc: Global,
    nodes: &[Node],
    won: &[Won],
    firsts: &[usize],
) -> Result<Vec<Won>, AllocError> {
    let are_used = are_used(alloc, nodes, won, firsts)?;
    let mut used = Vec::new(alloc);
    for one in won {
        if is_set(are_used.as_slice(), one.place) {
            used.push(*one)?;
        }
    }
    Ok(used)
}
