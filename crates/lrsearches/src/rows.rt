//! Rows of a table that is filled row by row.

ghost use Rattle.std.specs.Prelude.{◌≡◌, [], All, length, IfOk};

use std::alloc::{AllocError, Global};

/// So many empty rows.
pub(crate) fn empty_rows<X: Copy>(alloc: Global, count: usize) -> Result<Vec<Vec<X>>, AllocError>
    ensures count { IfOk result (λ v. length v.items ≡ count) }
    ensures empty { IfOk result (λ v. All (λ row. row.items ≡ []) v.items) }
{
    (0..count).map(|_row| Vec::new(alloc)).collect(alloc)
}
