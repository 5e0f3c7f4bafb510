//! The shelf.
ghost use Rattle.std.specs.Prelude.{◌≡◌, true};
ghost use Rattle.rope.specs.Held.{held};
ghost use Rattle.rope.specs.Memory.{arena_of};
ghost use Rattle.shelf_view.specs.Documents.{fine, all_fine, root_in};

use monoid::Monoid;
use refusal::limits::MOST_PLACES;
use rope::lent::Lent;
use rope::record::Root;
use rope::store::Store;

mod apply;
mod base;
mod drafts;
mod edits;
mod reasons;

/// A shelf over lent memory: its documents, and its open draft.
#[derive(Drop)]
pub struct Shelf<'b, 'a, M: Monoid> {
    store: Store<'b, 'a, M>,
    places: Lent<'a, Root, MOST_PLACES>,
    draft: Option<Root>,
    mark: u32,
    opened: u32,
    ghost documents: { all_fine (arena_of store) (held places) ≡ true },
    ghost drafted: { fine (arena_of store) (root_in draft) ≡ true },
}
