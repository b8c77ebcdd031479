//! The items around a place of a text.

use crate::items::Item;
use crate::rules::Rules;
use crate::writing::Writer;
use std::alloc::AllocError;

/// An item around a place of a text.
#[derive(Clone, Copy)]
pub(crate) struct Layer {
    pub(crate) item: Item,
    /// If the token that has to come next comes behind the symbol behind the dot: with which of the symbols there.
    pub(crate) begun: Option<usize>,
}

/// Writes what stands behind the place, with the reductions by the productions around it. The last layer is the innermost one.
pub(crate) fn write_behind(
    writer: &mut Writer<'_>,
    rules: &Rules,
    layers: &[Layer],
) -> Result<(), AllocError> {
    for layer in layers.iter().rev() {
        let rest = rules.rest(layer.item);
        match layer.begun {
            Some(place) => writer.push_begun(rest, place)?,
            None => writer.push_all(rest)?,
        }
        if layer.item.production != rules.start {
            writer.push_reduction(layer.item.production)?;
        }
    }
    Ok(())
}
