//! A fresh shelf, and a shelf for reading.
ghost use Rattle.std.specs.Prelude.{◌≡◌};
ghost use Rattle.shelf_view.specs.State.{shown};
ghost use Rattle.text_shelf.specs.Shelves.{parts, shelved, Fresh};

use super::Shelf;
use monoid::Monoid;
use rope::lent::Lent;
use rope::record::{Record, Root};
use rope::store::Store;
use shelf_view::view::View;

impl<'b, 'a, M: Monoid> Shelf<'b, 'a, M> {
    /// A fresh shelf over a build text, memory for added text, for records and for documents, whatever is brought of each. It
    /// holds only document 0, the empty text. Takes constant time.
    pub fn new(
        build: &'b [u8],
        added: &'a mut [u8],
        records: &'a mut [Record<M::Row>],
        places: &'a mut [Root],
        mark: u32,
    ) -> Shelf<'b, 'a, M>
        ensures { Fresh (parts result) build.now added.old records.old places.old mark }
    {
        Shelf {
            store: Store::new(build, added, records),
            places: Lent::new(places),
            draft: None,
            mark,
            opened: 0,
        }
    }

    /// The shelf for reading: every question is asked of the view, or of what it hands out. Takes constant time.
    pub fn view(&self) -> View<'_, M>
        ensures { shown result ≡ shelved (parts self.now) }
    {
        View::over(
            self.store.view(),
            self.places.as_slice(),
            self.draft,
            self.mark,
            self.opened,
        )
    }
}
