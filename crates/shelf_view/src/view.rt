//! A shelf for reading.
ghost use Rattle.std.specs.Prelude.{◌≡◌, ⊤, true};
ghost use Rattle.rope.specs.Memory.{seen};
ghost use Rattle.shelf_view.specs.Documents.{fine, all_fine, root_in};

use monoid::Monoid;
use rope::record::Root;
use rope::view::RopeView;
use std::alloc::AllocError;

mod base;
mod marked;
mod places;
mod questions;

/// The used memory of a shelf, the roots of its documents from number 1 on, and its open draft.
pub struct View<'v, M: Monoid> {
    rope: RopeView<'v, M>,
    roots: &'v [Root],
    draft: Option<Root>,
    mark: u32,
    opened: u32,
    ghost documents: { all_fine (seen rope) roots.now ≡ true },
    ghost drafted: { fine (seen rope) (root_in draft) ≡ true },
}

// not derived, as for `RopeView`
impl<'v, M: Monoid> Clone for View<'v, M> {
    ghost is_clone = { λ x y. y ≡ x };

    ghost is_infallible = { λ _. ⊤ };

    fn clone(&self) -> Result<View<'v, M>, AllocError> {
        Ok(*self)
    }
}

impl<'v, M: Monoid> Copy for View<'v, M> {}
