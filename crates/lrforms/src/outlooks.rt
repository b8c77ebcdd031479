//! How a parse goes on from a conflict.

use crate::around::Around;
use crate::items::Item;
use crate::layers::{Layer, write_behind};
use crate::shared::Shared;
use crate::states::Way;
use crate::writing::Writer;
use lrconflicts::{Move, Written};
use lrgrammar::idx::{PIdx, SIdx, Symbol, TIdx};
use std::alloc::{AllocError, Global};

/// How a parse goes on from a conflict by one of its candidates.
#[derive(Debug, Drop)]
pub struct Outlook {
    /// The items in which the candidate stands, the start production's first: each further one is of a production of the rule
    /// that stands behind the dot of the one before it. The symbols before their dots, one item after another, are the list.
    /// The last one is the candidate's: complete for a reduction, with the token behind its dot for a shift.
    pub items: Vec<(PIdx<u32>, SIdx<u32>)>,
    /// A shortest rest of the text, from the token on, with the moves from the candidate's on to the start rule; None where a
    /// rule on the way has no text, or where it gets too long.
    pub rest: Option<Written<u32>>,
}

/// A least text of the symbols, one after another. None where one of them has no text or it gets too long.
pub(crate) fn text_of(
    alloc: Global,
    shared: &Shared,
    symbols: &[Symbol<u32>],
) -> Result<Option<Written<u32>>, AllocError> {
    let mut writer = Writer::new(alloc, shared, None);
    writer.push_all(symbols)?;
    Ok(writer.written())
}

/// What stands behind the way, in these layers. None where a rule has no text or it gets too long.
fn rest_of(
    alloc: Global,
    shared: &Shared,
    token: TIdx<u32>,
    candidate: Move<u32>,
    layers: &[Layer],
) -> Result<Option<Written<u32>>, AllocError> {
    let mut writer = Writer::new(alloc, shared, shared.beginnings(token)?);
    if candidate == Move::Shift {
        writer.push(Symbol::Token(token))?;
    }
    write_behind(&mut writer, &shared.rules, layers)?;
    Ok(writer.written())
}

/// The items of the layers.
fn items_of(alloc: Global, layers: &[Layer]) -> Result<Vec<(PIdx<u32>, SIdx<u32>)>, AllocError> {
    let mut items = Vec::new(alloc);
    for layer in layers {
        items.push((layer.item.production, layer.item.dot))?;
    }
    Ok(items)
}

/// How a parse goes on by the candidate behind the way, where the token comes next, and these are the items that the candidate
/// may be of. None where there is no way to go on.
pub(crate) fn outlook_of(
    alloc: Global,
    shared: &Shared,
    way: &Way,
    token: TIdx<u32>,
    candidate: Move<u32>,
    items: &[Item],
) -> Result<Option<Outlook>, AllocError> {
    let mut around = Around::new(alloc, shared, way, token)?;
    for item in items {
        around.add_item(*item, candidate == Move::Shift)?;
    }
    let Some(layers) = around.find(alloc)? else {
        return Ok(None);
    };
    let items = items_of(alloc, layers.as_slice())?;
    let rest = rest_of(alloc, shared, token, candidate, layers.as_slice())?;
    Ok(Some(Outlook { items, rest }))
}
