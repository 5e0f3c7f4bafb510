//! Calls made one by one, with the tokens that they hand out, and what that promises: an example.
ghost use Rattle.std.specs.Prelude.{◌≡◌, Err};
ghost use Rattle.refusal.specs.declared.Refusal.TheVariants.{NoDocument};
ghost use Rattle.text_shelf.specs.Reaches.{used_of, Untouched};
ghost use Rattle.text_shelf.specs.Shelves.{parts};
ghost use Rattle.shelf_promise.specs.Hands.{ReachedBy, IsOwn};

use monoid::Monoid;
use refusal::Refusal;
use rope::record::{Record, Root};
use shelf_view::draft_id::DraftId;
use text_shelf::draft::Draft;
use text_shelf::shelf::Shelf;

/// A shelf, and what the calls answered that it was reached by.
pub struct Made<'b, 'a, M: Monoid> {
    pub shelf: Shelf<'b, 'a, M>,
    pub opened: DraftId,
    pub added: Result<(), Refusal>,
    pub put: Result<u32, Refusal>,
    pub cut: Result<u32, Refusal>,
    pub sealed: Result<u32, (Refusal, Draft)>,
}

/// Opens a draft on a fresh shelf, adds `text` to it, puts `text`, cuts from a document that is not there, and seals the
/// draft. The shelf is one that this list of calls has reached, as the contract of each call says; so all that is told of
/// reached shelves is told of it. Of the memory, what is not used is as it was brought. Takes time in the length of `text`.
pub fn by_hand<'b, 'a, M: Monoid>(
    build: &'b [u8],
    added: &'a mut [u8],
    records: &'a mut [Record<M::Row>],
    places: &'a mut [Root],
    mark: u32,
    text: &[u8],
) -> Made<'b, 'a, M>
    ensures reached { ReachedBy (used_of build.now added.old records.old places.old mark) text.entry result }
    ensures untouched { Untouched (parts result.shelf) added.old records.old places.old }
    ensures refused { result.cut ≡ Err NoDocument }
    ensures back { IsOwn result.opened result.sealed }
{
    let mut shelf = Shelf::new(build, added, records, places, mark);
    let Ok(draft) = shelf.open() else {
        unreachable!()
    };
    let opened = draft.id();
    let added = draft.add(&mut shelf, text);
    let put = shelf.put(text);
    let cut = shelf.cut(u32::MAX, 0, 0);
    let sealed = draft.seal(&mut shelf);
    Made {
        shelf,
        opened,
        added,
        put,
        cut,
        sealed,
    }
}
