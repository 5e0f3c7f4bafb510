//! Splices, one on what the other made.
ghost use Rattle.std.specs.Prelude.{◌≡◌, IfOk};
ghost use Rattle.shelf_view.specs.Marked.{fingerprint};
ghost use Rattle.measured.specs.Stamps.{stamped, IsStamped, WritesBytes};

use refusal::limits::{MOST_PLACES, MOST_RECORDS};
use refusal::{Refusal, write_start};
use shelf_memory::memory::{Memory, Sizes};
use std::alloc::Global;
use text_shelf::named::MarkedShelf;
use zemor::matrix::Sl2;

/// What each splice writes, in the place of as many bytes.
const STAMP: &[u8] = b"gatsomev";

/// The most that a shelf uses.
const SIZES: Sizes = Sizes {
    records: MOST_RECORDS,
    added: 8,
    places: MOST_PLACES,
};

/// Takes the first `len` bytes of the build text as a document, and writes the stamp at each place of it, each time on the
/// newest document. Answers the newest document's number.
fn stamp_all<'b, 'a>(
    shelf: &mut MarkedShelf<'b, 'a>,
    len: usize,
    places: &[usize],
) -> Result<u32, Refusal>
    ensures { IfOk result (IsStamped shelf.old.store.build.now len places.now shelf.new) }
{
    let stamp = shelf.put(STAMP)?;
    let mut newest = shelf.take(0, len)?;
    for a in places {
        newest = shelf.splice(newest, *a, a.saturating_add(STAMP.len()), stamp)?;
    }
    Ok(newest)
}

/// The fingerprint of the build text with the stamp at each place, told by a fresh shelf.
fn round(memory: &mut Memory, build: &[u8], places: &[usize]) -> Result<Sl2, Refusal>
    ensures { IfOk result (λ x. x ≡ fingerprint (stamped build.now places.now)) }
{
    let mut shelf = memory.shelf(build);
    let newest = stamp_all(&mut shelf, build.len(), places)?;
    Ok(shelf.view().document(newest)?.summary().first)
}

/// The same, as often as there are rounds, and once at least; each time on a fresh shelf over the same memory.
fn rounds_of(
    memory: &mut Memory,
    build: &[u8],
    places: &[usize],
    rounds: usize,
) -> Result<Sl2, Refusal>
    ensures { IfOk result (λ x. x ≡ fingerprint (stamped build.now places.now)) }
{
    let mut told = round(memory, build, places)?;
    for _ in 1..rounds {
        told = round(memory, build, places)?;
    }
    Ok(told)
}

/// Writes the sixteen bytes of that fingerprint at the start of `out`. Answers 0 where every call of every round was accepted
/// and `out` has room, else the number of the first refusal; 255 where there is no memory for the shelf. Takes time in the
/// length of the build text and the size of the memory, and each round in the number of places.
#[unsafe(no_mangle)]
pub extern "C" fn measured_splices(
    heap: Global,
    build: &[u8],
    places: &[usize],
    rounds: usize,
    out: &mut [u8],
) -> u32
    ensures { WritesBytes (fingerprint (stamped build.now places.now)) out.old out.new result }
{
    let Ok(mut memory) = Memory::new(heap, SIZES) else {
        return 255;
    };
    match rounds_of(&mut memory, build, places, rounds) {
        Err(why) => why.number() as u32,
        Ok(told) => write(told, out),
    }
}

/// Writes the sixteen bytes of a fingerprint at the start of `out`, and answers 0; or a refusal's number, where they do not fit.
fn write(told: Sl2, out: &mut [u8]) -> u32
    ensures { WritesBytes told out.old out.new result }
{
    match write_start(&told.to_bytes(), out) {
        Ok(_) => 0,
        Err(why) => why.number() as u32,
    }
}
