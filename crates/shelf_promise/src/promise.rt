//! The promise, whole, on one call.
ghost use Rattle.shelf_promise.specs.Promises.{Promise};

use crate::told;
use monoid::Monoid;
use refusal::Refusal;
use text_shelf::named::MarkedShelf;
use text_shelf::shelf::Shelf;
use zemor::matrix::Sl2;

/// A part of a document.
#[derive(Clone, Copy)]
pub struct DocumentPart {
    pub document: u32,
    pub from: usize,
    pub to: usize,
}

/// What is asked.
#[derive(Clone, Copy)]
pub struct Asked {
    /// A document of the shelf over any monoid, and a part of it.
    pub part: DocumentPart,
    /// A document of the one marked shelf, and the part of it that a window is to replace.
    pub window: DocumentPart,
    /// A document of the other marked shelf.
    pub other: u32,
}

/// What is told.
#[derive(Clone, Copy)]
pub struct Replies<M> {
    /// The summary of the document, and of its part.
    pub summary: Result<M, Refusal>,
    pub part: Result<M, Refusal>,
    /// The fingerprints of the documents of the one and of the other marked shelf.
    pub fingerprints: Result<(Sl2, Sl2), Refusal>,
    /// The length of the window that was read back.
    pub window: Result<usize, Refusal>,
}

/// Asks, of shelves that any lists of calls have reached, all that is promised of them: a summary and a part's summary, the
/// fingerprints of two documents, and the window that gives a fingerprint, which is written at the start of `out`. The two
/// marked shelves may be one. Each question is answered, or refused, as the call of its name in `told`. Takes time in the
/// heights of the documents of which a part is asked.
pub fn ask<'b, 'a, 'c, 'd, 'e, 'f, M: Monoid>(
    shelf: &Shelf<'b, 'a, M>,
    one: &MarkedShelf<'c, 'd>,
    other: &MarkedShelf<'e, 'f>,
    asked: Asked,
    fingerprint: &[u8],
    out: &mut [u8],
) -> Replies<M>
    ensures { Promise M.Monoid.model shelf.now one.now other.now asked fingerprint.now out.old out.new result }
{
    let Asked {
        part,
        window,
        other: e,
    } = asked;
    Replies {
        summary: told::summary(shelf, part.document),
        part: told::part_summary(shelf, part.document, part.from, part.to),
        fingerprints: told::fingerprints(one, window.document, other, e),
        window: told::read_back(
            one,
            window.document,
            window.from,
            window.to,
            fingerprint,
            out,
        ),
    }
}
