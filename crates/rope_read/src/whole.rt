//! A whole text of a store, for reading.
ghost use Rattle.std.specs.Prelude.{◌≡◌, ⊤, true, false, length, None};
ghost use Rattle.refusal.specs.declared.limits.TheConstants.{MOST_TEXT};
ghost use Rattle.rope.specs.Tree.{Fewest};
ghost use Rattle.rope.specs.Arena.{rooted};

use crate::text::Text;
use monoid::Monoid;
use rope::record::Root;
use rope::view::RopeView;
use std::alloc::AllocError;

/// The whole text at a root, over the memory that a view shows: a document, or a draft. Beside its bytes it has a height, and
/// keeps its summary.
pub struct Whole<'v, M: Monoid> {
    view: RopeView<'v, M>,
    root: Root,
    ghost inside: { rooted (length view.slices.records.now) root ≡ true },
}

// not derived, as for `RopeView`
impl<'v, M: Monoid> Clone for Whole<'v, M> {
    ghost is_clone = { λ x y. y ≡ x };

    ghost is_infallible = { λ _. ⊤ };

    fn clone(&self) -> Result<Whole<'v, M>, AllocError> {
        Ok(*self)
    }
}

impl<'v, M: Monoid> Copy for Whole<'v, M> {}

impl<'v, M: Monoid> Whole<'v, M> {
    ghost use Rattle.std.specs.Prelude.{◌≤◌};
    ghost use Rattle.monoid.specs.Monoid.{fold_of};
    ghost use Rattle.rope.specs.Arena.{height_of, kept_of};
    ghost use Rattle.rope.specs.Memory.{seen};
    ghost use Rattle.rope_read.specs.Texts.{bytes_in, whole_bytes};

    /// The text at `root`. A root that is none of the records' counts as that of the empty text. Takes constant time.
    pub fn new(view: RopeView<'v, M>, root: Root) -> Whole<'v, M>
        ensures view { result.view ≡ view.entry }
        ensures there { rooted (length view.entry.slices.records.now) root ≡ true → result.root ≡ root }
        ensures other { rooted (length view.entry.slices.records.now) root ≡ false → result.root ≡ None }
    {
        match root {
            Some(i) if (i as usize) < view.records_used() => Whole { view, root },
            _ => Whole { view, root: None },
        }
    }

    /// Where it lies, for an edit. Takes constant time.
    pub fn root(self) -> Root
        ensures { result ≡ self.entry.root }
    {
        self.root
    }

    /// Its bytes: the slice that is all of it. Takes constant time.
    pub fn text(self) -> Text<'v, M>
        ensures place { (result.view ≡ self.entry.view) × (result.root ≡ self.entry.root) }
        ensures bounds { (result.from ≡ 0) × (result.to ≡ length (whole_bytes self.entry)) }
        ensures value { bytes_in result ≡ whole_bytes self.entry }
    {
        Text::front(self.view, self.root, self.length())
    }

    fn length(self) -> u32
        ensures { result ≡ length (whole_bytes self.entry) }
    {
        self.root.map_or(0, |i| self.view.record(i).length)
    }

    /// How many bytes it has. Takes constant time.
    pub fn len(self) -> usize
        ensures { result ≡ length (whole_bytes self.entry) }
    {
        self.length() as usize
    }

    /// How high its tree is, which is at most 28 for a text of at most 1,048,576 bytes. Takes constant time.
    pub fn height(self) -> u8
        ensures value { result ≡ height_of (seen self.entry.view) self.entry.root }
        ensures low { length (whole_bytes self.entry) ≤ MOST_TEXT → result ≤ 28 }
    {
        self.root.map_or(0, |i| self.view.record(i).height)
    }

    /// Its summary, which is kept at its root. Takes constant time.
    pub fn summary(self) -> M
        ensures kept { result ≡ kept_of M.Monoid.model (seen self.entry.view) self.entry.root }
        ensures value { result ≡ fold_of M.Monoid.model (whole_bytes self.entry) }
    {
        self.root
            .map_or(M::empty(), |i| M::from_row(self.view.record(i).row))
    }
}

/// The fewest bytes of a tree of each height: hence the bound of 28. It does nothing.
pub fn heights_stand()
    ensures { Fewest }
{}
