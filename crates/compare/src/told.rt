//! What a marked shelf tells of its documents, for a reader.
ghost use Rattle.refusal.specs.Refusals.{Answers};
ghost use Rattle.shelf_view.specs.State.{strings_shown, text_at};
ghost use Rattle.shelf_view.specs.Questions.{of_document, of_part};
ghost use Rattle.compare.specs.Shown.{IsPlace, IsTold};

use anyhow::{Error, anyhow};
use monoid::line_column::LineColumn;
use refusal::Refusal;
use shelf_view::marked::Marked;
use shelf_view::view::View;
use std::fmt;

/// A shelf for reading, with fingerprints.
pub type MarkedView<'v> = View<'v, Marked>;

/// A refusal as an error.
pub fn refused(why: Refusal) -> Error {
    let number = why.number();
    anyhow!("the shelf refuses: {why:?}, number {number} of its refusals")
}

/// The place in a text, counted from 0, and the line and column there, counted from 1.
#[derive(Clone, Copy)]
pub struct Place {
    place: usize,
    front: Marked,
}

impl fmt::Display for Place {
    fn fmt<W: fmt::Write>(&self, f: &mut fmt::Formatter<W>) -> fmt::Result {
        let place = self.place;
        let LineColumn { lines, columns } = self.front.second;
        let line = lines as u64 + 1;
        let column = columns as u64 + 1;
        write!(f, "place {place} (line {line}, column {column})")
    }
}

/// A place in document `d`.
pub fn place_in<'v>(view: MarkedView<'v>, d: u32, place: usize) -> Result<Place, Refusal>
    ensures { Answers (of_part (strings_shown view.entry) d 0 place) (IsPlace (text_at (strings_shown view.entry) d) place) result }
{
    let front = view.part_summary(d, 0, place)?;
    Ok(Place { place, front })
}

/// The fingerprint of a document, and how long it is.
#[derive(Clone, Copy)]
pub struct Told {
    bytes: usize,
    summary: Marked,
}

impl fmt::Display for Told {
    fn fmt<W: fmt::Write>(&self, f: &mut fmt::Formatter<W>) -> fmt::Result {
        let Told { bytes, summary } = self;
        let fingerprint = summary.first;
        let LineColumn { lines, columns } = summary.second;
        write!(
            f,
            "{fingerprint}  {bytes} bytes, {lines} lines, {columns} columns"
        )
    }
}

/// What is told of document `d`.
pub fn tell<'v>(view: MarkedView<'v>, d: u32) -> Result<Told, Refusal>
    ensures { Answers (of_document (strings_shown view.entry) d) (IsTold (text_at (strings_shown view.entry) d)) result }
{
    let document = view.document(d)?;
    Ok(Told {
        bytes: document.len(),
        summary: document.summary(),
    })
}
