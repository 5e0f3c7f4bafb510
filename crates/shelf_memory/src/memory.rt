//! The memory of a program's shelf.
ghost use Rattle.std.specs.Prelude.{IfOk};
ghost use Rattle.text_shelf.specs.Shelves.{parts, Fresh};
ghost use Rattle.shelf_memory.specs.Sizes.{Holds};

use monoid::Monoid;
use monoid::line_column::LineColumn;
use monoid::pair::Pair;
use rope::record::{Record, Root};
use shelf_view::marked::Marked;
use std::alloc::{AllocError, Global};
use text_shelf::named::MarkedShelf;
use text_shelf::shelf::Shelf;
use zemor::matrix::Entries;

/// How many records, added bytes and places there are.
#[derive(Clone, Copy)]
pub struct Sizes {
    pub records: usize,
    pub added: usize,
    pub places: usize,
}

/// Records, added bytes and places, for one shelf at a time.
#[derive(Drop)]
pub struct Memory {
    records: Vec<Record<Pair<Entries, LineColumn>>>,
    added: Vec<u8>,
    places: Vec<Root>,
}

impl Memory {
    /// So much memory from the heap. Takes time in its size.
    pub fn new(heap: Global, sizes: Sizes) -> Result<Memory, AllocError>
        ensures { IfOk result (Holds sizes) }
    {
        let Sizes {
            records,
            added,
            places,
        } = sizes;
        let blank = Record::blank(Marked::empty().to_row());
        Ok(Memory {
            records: vec![in heap; blank; records]?,
            added: vec![in heap; 0; added]?,
            places: vec![in heap; None; places]?,
        })
    }

    /// A fresh shelf over all of it and this build text. Takes constant time.
    pub fn shelf<'m>(&'m mut self, build: &'m [u8]) -> MarkedShelf<'m, 'm>
        ensures { Fresh (parts result) build.now self.old.added.items self.old.records.items self.old.places.items 0 }
    {
        Shelf::new(
            build,
            &mut self.added,
            &mut self.records,
            &mut self.places,
            0,
        )
    }
}
