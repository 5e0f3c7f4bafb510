//! A store and what it tells of itself.
ghost use Rattle.std.specs.Prelude.{◌≡◌, ◌-◌, ◌<◌, min, length, take};
ghost use Rattle.refusal.specs.declared.limits.TheConstants.{MOST_BYTES, MOST_RECORDS};
ghost use Rattle.rope.specs.Arena.{IsRecord};
ghost use Rattle.rope.specs.Memory.{arena_of, seen};
ghost use Rattle.rope.specs.Steps.{Fine, Pushed, tree_for};

use super::Store;
use crate::lent::Lent;
use crate::record::Record;
use crate::view::RopeView;
use monoid::Monoid;
use refusal::limits::MOST_BYTES;

/// The part of a build text that is used.
fn capped(build: &[u8]) -> &[u8]
    ensures { result.now ≡ take MOST_BYTES build.now }
{
    &build[..MOST_BYTES.min(build.len())]
}

impl<'b, 'a, M: Monoid> Store<'b, 'a, M> {
    /// A store with no record and no added text, over the first 16,777,216 bytes of the build text. Takes constant time.
    pub fn new(
        build: &'b [u8],
        added: &'a mut [u8],
        records: &'a mut [Record<M::Row>],
    ) -> Store<'b, 'a, M>
        ensures used { (result.records.used ≡ 0) × (result.added.used ≡ 0) }
        ensures build_text { result.build.now ≡ take MOST_BYTES build.now }
        ensures memory { (result.added.memory.now ≡ added.old) × (result.records.memory.now ≡ records.old) }
    {
        Store {
            build: capped(build),
            added: Lent::new(added),
            records: Lent::new(records),
        }
    }

    /// What is used, for reading. Takes constant time.
    pub fn view(&self) -> RopeView<'_, M>
        ensures { seen result ≡ arena_of self.now }
    {
        RopeView::new(self.build, self.added.as_slice(), self.records.as_slice())
    }

    /// How many bytes the build text has. Takes constant time.
    pub fn build_len(&self) -> usize
        ensures { result ≡ length self.now.build.now }
    {
        self.build.len()
    }

    /// How many records more there is room for. Takes constant time.
    pub fn free_records(&self) -> usize
        ensures { result ≡ min (length self.now.records.memory.now) MOST_RECORDS - self.now.records.used }
    {
        self.records.room()
    }

    /// How many bytes of added text are used. Takes constant time.
    pub fn added(&self) -> usize
        ensures { result ≡ self.now.added.used }
    {
        self.added.as_slice().len()
    }

    /// How many bytes of added text there is room for, those that are used among them. Takes constant time.
    pub fn added_room(&self) -> usize
        ensures { result ≡ min (length self.now.added.memory.now) MOST_BYTES }
    {
        self.added() + self.free_bytes()
    }

    /// How many bytes more of added text there is room for. Takes constant time.
    pub fn free_bytes(&self) -> usize
        ensures { result ≡ min (length self.now.added.memory.now) MOST_BYTES - self.now.added.used }
    {
        self.added.room()
    }

    /// Record `i`, which tells the length, the height and the summary of its tree. Takes constant time.
    pub fn record(&self, i: u32) -> Record<M::Row>
        requires { i < self.now.records.used }
        ensures { IsRecord M.Monoid.model (arena_of self.now) i result }
    {
        self.view().record(i)
    }

    /// Writes a record behind the used ones, and tells its place.
    pub(super) fn push(&mut self, record: Record<M::Row>) -> u32
        requires { Fine M.Monoid.model self.old «record» }
        ensures { Pushed self.old self.new result (tree_for self.old «record») }
    {
        (self.records.push(record) - 1) as u32
    }
}
