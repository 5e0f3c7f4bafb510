//! The three shelves with names, and a shelf over a buyer's monoid.
use crate::every::every;
use crate::figures::{LINES, MARKS, RANGES, ROLLING};
use crate::marked::ask_marked;
use crate::texts::BUILD;
use byte_range::range::ByteRange;
use monoid::Monoid;
use monoid::karp_rabin::KarpRabin;
use monoid::line_column::LineColumn;
use rope::record::Record;
use shelf_view::marked::Marked;
use text_shelf::named::{MarkedShelf, PlainShelf, RollingShelf};
use text_shelf::shelf::Shelf;

const ADDED: usize = 490;

const RECORDS: usize = 1000;

const PLACES: usize = 11;

#[test]
fn plain(rt: HostRuntime) {
    let mut added = [0; ADDED];
    let mut records = [Record::blank(LineColumn::empty()); RECORDS];
    let mut places = [None; PLACES];
    let mut shelf: PlainShelf = Shelf::new(BUILD, &mut added, &mut records, &mut places, 7);
    every(&rt, &mut shelf, &LINES);
}

#[test]
fn rolling(rt: HostRuntime) {
    let mut added = [0; ADDED];
    let mut records = [Record::blank(KarpRabin::empty().to_row()); RECORDS];
    let mut places = [None; PLACES];
    let mut shelf: RollingShelf = Shelf::new(BUILD, &mut added, &mut records, &mut places, 7);
    every(&rt, &mut shelf, &ROLLING);
}

#[test]
fn marked(rt: HostRuntime) {
    let mut added = [0; ADDED];
    let mut records = [Record::blank(Marked::empty().to_row()); RECORDS];
    let mut places = [None; PLACES];
    let mut shelf: MarkedShelf = Shelf::new(BUILD, &mut added, &mut records, &mut places, 7);
    every(&rt, &mut shelf, &MARKS);
    ask_marked(&rt, shelf.view());
}

#[test]
fn byte_range(rt: HostRuntime) {
    let mut added = [0; ADDED];
    let mut records = [Record::blank(ByteRange::empty()); RECORDS];
    let mut places = [None; PLACES];
    let mut shelf: Shelf<ByteRange> = Shelf::new(BUILD, &mut added, &mut records, &mut places, 7);
    every(&rt, &mut shelf, &RANGES);
}
