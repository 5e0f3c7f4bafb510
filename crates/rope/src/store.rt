//! Trees over lent memory, which grow at their end.
ghost use Rattle.rope.specs.Arena.{Sound, Summed};
ghost use Rattle.rope.specs.Held.{arena_in};

use crate::lent::Lent;
use crate::record::Record;
use monoid::Monoid;
use refusal::limits::{MOST_BYTES, MOST_RECORDS};

mod append;
mod base;
mod build;
mod push;

/// The lent memory: its trees are lawful, and each record keeps the summary of its text.
#[derive(Drop)]
pub struct Store<'b, 'a, M: Monoid> {
    build: &'b [u8],
    added: Lent<'a, u8, MOST_BYTES>,
    records: Lent<'a, Record<M::Row>, MOST_RECORDS>,
    ghost sound: { Sound (arena_in build.now added records) },
    ghost summed: { Summed M.Monoid.model (arena_in build.now added records) },
}
