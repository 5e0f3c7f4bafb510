//! The used memory, for reading.
ghost use Rattle.std.specs.Prelude.{◌≡◌, ◌+◌, ◌<◌, ◌≤◌, ⊤, length};
ghost use Rattle.rope.specs.Arena.{Sound, Summed, part, origin_text};
ghost use Rattle.rope.specs.Held.{seen_in};

use crate::record::{Origin, Piece, Record};
use monoid::Monoid;
use std::alloc::AllocError;

/// Slices of both texts and of the records, of which nothing need be known.
#[derive(Clone, Copy)]
pub struct View<'v, M: Monoid> {
    build: &'v [u8],
    added: &'v [u8],
    records: &'v [Record<M::Row>],
}

impl<'v, M: Monoid> View<'v, M> {
    ghost use Rattle.rope.specs.Arena.{Reads};

    /// A view of any texts and records, whoever lends them. Takes constant time.
    pub fn new(build: &'v [u8], added: &'v [u8], records: &'v [Record<M::Row>]) -> View<'v, M>
        ensures { (result.build.now ≡ build.now) × (result.added.now ≡ added.now) × (result.records.now ≡ records.now) }
    {
        View {
            build,
            added,
            records,
        }
    }

    /// How many records there are. Takes constant time.
    pub fn records_used(self) -> usize
        ensures { result ≡ length self.entry.records.now }
    {
        self.records.len()
    }

    /// Record `i` of sound memory, which tells the length and the height of its tree, and the summary where summaries are
    /// kept. Takes constant time.
    pub fn record(self, i: u32) -> Record<M::Row>
        requires sound { Sound (seen_in self) }
        requires below { i < length self.records.now }
        ensures { Reads M.Monoid.model (seen_in self.entry) i result }
    {
        self.records[i as usize]
    }

    /// The bytes of a piece, which lies within its text. Takes constant time.
    pub fn bytes(self, piece: Piece) -> &'v [u8]
        requires { piece.start + piece.len ≤ length (origin_text (seen_in self) piece.origin) }
        ensures { result.now ≡ part (seen_in self.entry) piece.origin piece.start piece.len }
    {
        let from = piece.start as usize;
        let to = from + piece.len as usize;
        match piece.origin {
            Origin::Build => &self.build[from..to],
            Origin::Added => &self.added[from..to],
        }
    }
}

/// What is used of both texts and of the records. All that only reads goes by a view.
pub struct RopeView<'v, M: Monoid> {
    slices: View<'v, M>,
    ghost sound: { Sound (seen_in slices) },
    ghost summed: { Summed M.Monoid.model (seen_in slices) },
}

// `derive(Clone, Copy)` does not take a generic struct with ghost fields
impl<'v, M: Monoid> Clone for RopeView<'v, M> {
    ghost is_clone = { λ x y. y ≡ x };

    ghost is_infallible = { λ _. ⊤ };

    fn clone(&self) -> Result<RopeView<'v, M>, AllocError> {
        Ok(*self)
    }
}

impl<'v, M: Monoid> Copy for RopeView<'v, M> {}

impl<'v, M: Monoid> RopeView<'v, M> {
    ghost use Rattle.rope.specs.Arena.{IsRecord, arena};
    ghost use Rattle.rope.specs.Memory.{seen};

    /// A view of used texts and records, whoever lends them. Takes constant time.
    pub fn new(build: &'v [u8], added: &'v [u8], records: &'v [Record<M::Row>]) -> RopeView<'v, M>
        requires sound { Sound (arena build.now added.now records.now) }
        requires summed { Summed M.Monoid.model (arena build.now added.now records.now) }
        ensures { seen result ≡ arena build.now added.now records.now }
    {
        RopeView {
            slices: View::new(build, added, records),
        }
    }

    /// How many records are used. Takes constant time.
    pub fn records_used(self) -> usize
        ensures { result ≡ length self.entry.slices.records.now }
    {
        self.slices.records_used()
    }

    /// Record `i`, which tells the length, the height and the summary of its tree. Takes constant time.
    pub fn record(self, i: u32) -> Record<M::Row>
        requires { i < length self.slices.records.now }
        ensures { IsRecord M.Monoid.model (seen self.entry) i result }
    {
        self.slices.record(i)
    }

    /// The bytes of a piece. Takes constant time.
    pub fn bytes(self, piece: Piece) -> &'v [u8]
        requires { piece.start + piece.len ≤ length (origin_text (seen self) piece.origin) }
        ensures { result.now ≡ part (seen self.entry) piece.origin piece.start piece.len }
    {
        self.slices.bytes(piece)
    }
}
