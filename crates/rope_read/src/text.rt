//! A slice of a text of a store, for reading.
ghost use Rattle.std.specs.Prelude.{◌≡◌, ◌≤◌, ⊤, true, length};
ghost use Rattle.rope.specs.Arena.{rooted, text_of};
ghost use Rattle.rope.specs.Memory.{seen};

use crate::tree::{byte_at, copy_at, fold_at};
use monoid::Monoid;
use refusal::Refusal;
use rope::record::Root;
use rope::view::RopeView;
use std::alloc::AllocError;

/// The bytes between two places of the text at a root, over the memory that a view shows: what `&str` is to a `String`. A
/// slice has no height.
pub struct Text<'v, M: Monoid> {
    view: RopeView<'v, M>,
    root: Root,
    from: u32,
    to: u32,
    ghost inside: { rooted (length view.slices.records.now) root ≡ true },
    ghost ordered: { from ≤ to },
    ghost within: { to ≤ length (text_of (seen view) root) },
}

/// Where a text lies, for an edit: a root, and two places of the text there.
#[derive(Clone, Copy)]
pub struct Span {
    pub root: Root,
    pub from: u32,
    pub to: u32,
}

// not derived, as for `RopeView`
impl<'v, M: Monoid> Clone for Text<'v, M> {
    ghost is_clone = { λ x y. y ≡ x };

    ghost is_infallible = { λ _. ⊤ };

    fn clone(&self) -> Result<Text<'v, M>, AllocError> {
        Ok(*self)
    }
}

impl<'v, M: Monoid> Copy for Text<'v, M> {}

impl<'v, M: Monoid> Text<'v, M> {
    ghost use Rattle.std.specs.Prelude.{◌+◌, slice_index};
    ghost use Rattle.monoid.specs.Monoid.{fold_of};
    ghost use Rattle.refusal.specs.Refusals.{Answers};
    ghost use Rattle.refusal.specs.Writing.{Writes, of_room};
    ghost use Rattle.rope_read.specs.Texts.{bytes_in, of_bounds, of_place, IsSlice, Sides};

    /// The first `len` bytes of the text at a root.
    pub(crate) fn front(view: RopeView<'v, M>, root: Root, len: u32) -> Text<'v, M>
        requires root { rooted (length view.slices.records.now) root ≡ true }
        requires within { len ≤ length (text_of (seen view) root) }
        ensures place { (result.view ≡ view.entry) × (result.root ≡ root) }
        ensures bounds { (result.from ≡ 0) × (result.to ≡ len) }
    {
        Text {
            view,
            root,
            from: 0,
            to: len,
        }
    }

    /// Where it lies, for an edit. Takes constant time.
    pub fn span(self) -> Span
        ensures { result ≡ record { root = self.entry.root; from = self.entry.from; to = self.entry.to } }
    {
        Span {
            root: self.root,
            from: self.from,
            to: self.to,
        }
    }

    /// How many bytes it has. Takes constant time.
    pub fn len(self) -> usize
        ensures { result ≡ length (bytes_in self.entry) }
    {
        (self.to - self.from) as usize
    }

    /// The part `a` to `b` of it. Refused with BAD PART exactly where a ≤ b ≤ length does not hold. Takes constant time.
    pub fn part(self, a: usize, b: usize) -> Result<Text<'v, M>, Refusal>
        ensures { Answers (of_bounds (bytes_in self.entry) a b) (IsSlice self.entry a b) result }
    {
        if a > b || b > self.len() {
            return Err(Refusal::BadPart);
        }
        Ok(Text {
            view: self.view,
            root: self.root,
            from: self.from + a as u32,
            to: self.from + b as u32,
        })
    }

    /// The `n` bytes from the place `a` on. Refused with BAD PART exactly where it has not so many, also where a + n fits no
    /// number. Takes constant time.
    pub fn bytes(self, a: usize, n: usize) -> Result<Text<'v, M>, Refusal>
        ensures { Answers (of_bounds (bytes_in self.entry) a (a + n)) (IsSlice self.entry a (a + n)) result }
    {
        let end = a.checked_add(n).ok_or(Refusal::BadPart)?;
        self.part(a, end)
    }

    /// What stands before its part `a` to `b`, and what stands behind it. Refused as that part. Takes constant time.
    pub fn around(self, a: usize, b: usize) -> Result<(Text<'v, M>, Text<'v, M>), Refusal>
        ensures { Answers (of_bounds (bytes_in self.entry) a b) (Sides self.entry a b) result }
    {
        self.part(a, b)?;
        let (a, b) = (a as u32, b as u32);
        let before = Text {
            view: self.view,
            root: self.root,
            from: self.from,
            to: self.from + a,
        };
        let behind = Text {
            view: self.view,
            root: self.root,
            from: self.from + b,
            to: self.to,
        };
        Ok((before, behind))
    }

    /// Its byte at the place `at`. Refused with BAD PART exactly where `at` is not below its length. Takes time in the height
    /// of its tree.
    pub fn byte(self, at: usize) -> Result<u8, Refusal>
        ensures { Answers (of_place (bytes_in self.entry) at) (λ b. b ≡ slice_index (bytes_in self.entry) at) result }
    {
        if at >= self.len() {
            return Err(Refusal::BadPart);
        }
        match self.root {
            None => unreachable!(),
            Some(i) => Ok(byte_at(self.view, i, self.from + at as u32)),
        }
    }

    /// The fold of its bytes. Takes time in the height of its tree.
    pub fn summary(self) -> M
        ensures { result ≡ fold_of M.Monoid.model (bytes_in self.entry) }
    {
        match self.root {
            None => M::empty(),
            Some(i) => fold_at(self.view, i, self.from, self.to),
        }
    }

    /// Writes it at the start of `out` and leaves what lies behind; answers its length. Refused with SMALL BUFFER,
    /// and `out` as it was, exactly where `out` is shorter. Takes time in its length and the height of its tree.
    pub fn copy(self, out: &mut [u8]) -> Result<usize, Refusal>
        ensures { Writes (of_room (length (bytes_in self.entry)) (length out.old)) (bytes_in self.entry) out.old out.new result }
    {
        if out.len() < self.len() {
            return Err(Refusal::SmallBuffer);
        }
        if let Some(i) = self.root {
            copy_at(self.view, i, self.from, self.to, out);
        }
        Ok(self.len())
    }
}
