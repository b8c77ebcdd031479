//! Matrices that are made row after row.

ghost use Rattle.std.specs.Prelude.{◌≡◌, ◌<◌, ◌^◌, [], ◌++◌, length, OnOk, IfOk};
ghost use Rattle.lrsparse.specs.Building.{so_far, empty_of, IsBuilt};
ghost use Rattle.lrsparse.specs.Entries.{row_with, AreEntries};

use crate::sparsevec::SparseVec;
use crate::sparsevec::places::{Places, place_row};
use crate::sparsevec::starts::Starts;
use std::alloc::{AllocError, Global};

/// The rows of a matrix so far, each of which is placed when it comes: no list has all of their cells.
#[derive(Drop)]
pub struct MatrixBuilder {
    places: Places,
    starts: Starts,
    displacements: Vec<usize>,
    cols: usize,
}

impl MatrixBuilder {
    /// No rows, of `cols` cells each; `empty` is the number that stands in most cells.
    pub fn new(alloc: Global, empty: usize, cols: usize) -> MatrixBuilder
        ensures built { IsBuilt result }
        ensures empty { empty_of result ≡ empty }
        ensures matrix { so_far result ≡ record { cols = cols; cells = [] } }
    {
        MatrixBuilder {
            places: Places::new(alloc, empty),
            starts: Starts::new(alloc),
            displacements: Vec::new(alloc),
            cols,
        }
    }

    /// Adds the row. The error says that memory was refused.
    pub fn push_row(&mut self, numbers: &[usize]) -> Result<(), AllocError>
        requires built { IsBuilt self.old }
        requires len { length numbers.now ≡ (so_far self.old).cols }
        ensures built { OnOk result (IsBuilt self.new) }
        ensures empty { OnOk result (empty_of self.new ≡ empty_of self.old) }
        ensures cols { OnOk result ((so_far self.new).cols ≡ (so_far self.old).cols) }
        ensures cells { OnOk result ((so_far self.new).cells
            ≡ (so_far self.old).cells ++ numbers.now) }
    {
        let entries = entries_of(*self.displacements.allocator(), numbers, self.places.empty)?;
        self.push_entries(entries.as_slice())?;
        Ok(())
    }

    /// Adds the row with these entries, each of which is a column and its number, upwards by column; in the other columns the
    /// empty number stands. The error says that memory was refused.
    pub fn push_entries(&mut self, entries: &[(usize, usize)]) -> Result<(), AllocError>
        requires built { IsBuilt self.old }
        requires cols { (so_far self.old).cols < 2 ^ 60 }
        requires entries { AreEntries (empty_of self.old) (so_far self.old).cols entries.now }
        ensures built { OnOk result (IsBuilt self.new) }
        ensures empty { OnOk result (empty_of self.new ≡ empty_of self.old) }
        ensures cols { OnOk result ((so_far self.new).cols ≡ (so_far self.old).cols) }
        ensures cells { OnOk result ((so_far self.new).cells
            ≡ (so_far self.old).cells
            ++ row_with (empty_of self.old) (so_far self.old).cols entries.now) }
    {
        let displacement = place_row(
            &mut self.places,
            &mut self.starts,
            self.displacements.len(),
            entries,
        )?;
        self.displacements.push(displacement)?;
        Ok(())
    }

    /// The matrix of the rows.
    pub fn finish(self) -> SparseVec
        requires { IsBuilt self }
        ensures { result ≡ so_far self }
    {
        let places = self.places;
        SparseVec {
            list: places.list,
            displacements: self.displacements,
            empty: places.empty,
            cols: self.cols,
        }
    }
}

/// The entries of a row of these numbers, which are all but the empty one, upwards by column.
fn entries_of(
    alloc: Global,
    numbers: &[usize],
    empty: usize,
) -> Result<Vec<(usize, usize)>, AllocError>
    ensures entries { IfOk result (λ v. AreEntries empty (length numbers.now) v.items) }
    ensures numbers { IfOk result (λ v. row_with empty (length numbers.now) v.items ≡ numbers.now) }
{
    let mut entries = Vec::new(alloc);
    for (column, number) in numbers.iter().enumerate() {
        if *number != empty {
            entries.push((column, *number))?;
        }
    }
    Ok(entries)
}
