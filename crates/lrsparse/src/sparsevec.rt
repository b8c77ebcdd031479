//! Matrices of numbers.

ghost use Rattle.std.specs.Prelude.{◌≡◌, ◌≤◌, ℕ, ◌*◌, length, IfOk};
ghost use Rattle.lrsparse.specs.Matrix.{value_at, HasRows};

pub(crate) mod entries;
mod owned;
pub(crate) mod places;
pub(crate) mod starts;

use crate::builder::MatrixBuilder;
use crate::sparsevec::entries::Entries;
use std::alloc::{AllocError, Global};
use std::marker::Model;

/// A matrix of numbers, in most of whose cells one number stands. The other cells are entries, which stand in one list: those
/// of a row from its displacement on, each as far behind it as its column says, beside the row that owns the place. In a place
/// that no row owns that number stands too, so that it doesn't matter which row stands beside it.
#[derive(Drop)]
pub struct SparseVec {
    pub(crate) list: Entries,
    pub(crate) displacements: Vec<usize>,
    pub(crate) empty: usize,
    pub(crate) cols: usize,
}

impl Model for SparseVec {
    ghost use Rattle.lrsparse.specs.Matrix.{Matrix};

    ghost Value = { Matrix };

    ghost use Rattle.std.specs.Prelude.{ℕ, ◌+◌, ◌<◌, ◌^◌};
    ghost use Rattle.std.specs.List.{All};
    ghost use Rattle.lrsparse.specs.Listed.{listed};
    ghost use Rattle.lrsparse.specs.Places.{rows_from};

    ghost view = { λ m. record {
      cols = m.cols;
      cells = rows_from (listed m.list) m.empty m.cols 0 m.displacements.items;
    } };

    ghost invariant = { λ m. All (λ d. d + m.cols < 2 ^ 64) m.displacements.items };
}

impl SparseVec {
    /// The matrix whose rows, of `cols` cells each, stand in the list one after another; `empty` is the number that stands in
    /// most cells. The error says that memory was refused.
    pub fn from(
        alloc: Global,
        cells: &[usize],
        empty: usize,
        cols: usize,
    ) -> Result<SparseVec, AllocError>
        requires { HasRows cols (length cells.now) }
        ensures cols { IfOk result (λ m. m.cols ≡ cols) }
        ensures cells { IfOk result (λ m. m.cells ≡ cells.now) }
    {
        let mut builder = MatrixBuilder::new(alloc, empty, cols);
        let mut rest = cells;
        while !rest.is_empty() {
            let (numbers, behind) = rest.split_at(cols);
            builder.push_row(numbers)?;
            rest = behind;
        }
        Ok(builder.finish())
    }

    /// The number in the row and the column; None outside of the matrix.
    pub fn get(&self, row: usize, col: usize) -> Option<usize>
        ensures { result ≡ value_at self.now row col }
    {
        if col >= self.cols {
            return None;
        }
        let displacement = *self.displacements.get(row)?;
        match self.list.get(displacement + col) {
            Some(entry) if entry.row == row => Some(entry.number),
            _ => Some(self.empty),
        }
    }
}
