//! A view as a shelf makes it.
ghost use Rattle.std.specs.Prelude.{◌≡◌, true};
ghost use Rattle.rope.specs.Memory.{seen};
ghost use Rattle.shelf_view.specs.Documents.{fine, all_fine, root_in};
ghost use Rattle.shelf_view.specs.State.{shown};

use super::View;
use monoid::Monoid;
use rope::record::Root;
use rope::view::RopeView;

impl<'v, M: Monoid> View<'v, M> {
    /// A view of these trees, for the shelf that they lie on. Takes constant time.
    pub fn over(
        rope: RopeView<'v, M>,
        roots: &'v [Root],
        draft: Option<Root>,
        mark: u32,
        opened: u32,
    ) -> View<'v, M>
        requires documents { all_fine (seen rope) roots.now ≡ true }
        requires drafted { fine (seen rope) (root_in draft) ≡ true }
        ensures { shown result ≡ record { arena = seen rope.entry; roots = roots.now; draft = draft; mark = mark; opened = opened } }
    {
        View {
            rope,
            roots,
            draft,
            mark,
            opened,
        }
    }
}
