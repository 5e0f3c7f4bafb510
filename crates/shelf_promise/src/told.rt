//! What is told of shelves that any lists of calls have reached: each call asks the shelf's view.
ghost use Rattle.std.specs.Prelude.{⊤};
ghost use Rattle.text_shelf.specs.Calls.{every_shelf};
ghost use Rattle.shelf_view.specs.Marked.{ReadsBackIn};
ghost use Rattle.shelf_promise.specs.Promises.{HoldsAfter, KeptAfter, DocumentFolds, PartFolds, SlipsTold};

use monoid::Monoid;
use refusal::Refusal;
use text_shelf::named::MarkedShelf;
use text_shelf::shelf::Shelf;
use zemor::matrix::Sl2;

/// What is promised of every list of calls by which a shelf was reached. It does nothing: who has made the calls one by one
/// holds the promise.
pub fn calls<'b, 'a, M: Monoid>(_shelf: &Shelf<'b, 'a, M>)
    ensures { KeptAfter every_shelf M.Monoid.model _shelf.now (λ s. ⊤) }
{}

/// The summary of document `d`. Refused with NO DOCUMENT. Takes constant time.
pub fn summary<'b, 'a, M: Monoid>(shelf: &Shelf<'b, 'a, M>, d: u32) -> Result<M, Refusal>
    ensures { HoldsAfter every_shelf shelf.now (DocumentFolds M.Monoid.model d result) }
{
    Ok(shelf.view().document(d)?.summary())
}

/// The summary of the part `a` to `b` of document `d`. Refused with NO DOCUMENT, and then with BAD PART. Takes time in the
/// height of the document.
pub fn part_summary<'b, 'a, M: Monoid>(
    shelf: &Shelf<'b, 'a, M>,
    d: u32,
    a: usize,
    b: usize,
) -> Result<M, Refusal>
    ensures { HoldsAfter every_shelf shelf.now (PartFolds M.Monoid.model d a b result) }
{
    shelf.view().part_summary(d, a, b)
}

/// The fingerprints of document `d` of one marked shelf and of document `e` of another, or of the same. Refused with NO
/// DOCUMENT where either is not there. Takes constant time.
pub fn fingerprints<'b, 'a, 'c, 'd>(
    one: &MarkedShelf<'b, 'a>,
    d: u32,
    other: &MarkedShelf<'c, 'd>,
    e: u32,
) -> Result<(Sl2, Sl2), Refusal>
    ensures { HoldsAfter every_shelf one.now (λ s. HoldsAfter every_shelf other.now (SlipsTold d e result s)) }
{
    let x = summary(one, d)?;
    let y = summary(other, e)?;
    Ok((x.first, y.first))
}

/// The window of at most five bytes that, in the place of the part `a` to `b` of document `d`, gives this fingerprint, as
/// `View::read_back` tells it. Takes time in the height of the document.
pub fn read_back<'b, 'a>(
    shelf: &MarkedShelf<'b, 'a>,
    d: u32,
    a: usize,
    b: usize,
    fingerprint: &[u8],
    out: &mut [u8],
) -> Result<usize, Refusal>
    ensures { HoldsAfter every_shelf shelf.now (λ s. ReadsBackIn s d a b fingerprint.now out.old out.new result) }
{
    shelf.view().read_back(d, a, b, fingerprint, out)
}
