//! How much memory the program's shelf has.
ghost use Rattle.std.specs.Prelude.{IfOk};
ghost use Rattle.refusal.specs.declared.limits.TheConstants.{MOST_RECORDS};
ghost use Rattle.shelf_memory.specs.Sizes.{Holds};
ghost use Rattle.compare.specs.declared.memory.TheConstants.{ADDED, PLACES};

use refusal::limits::MOST_RECORDS;
use shelf_memory::memory::{Memory, Sizes};
use std::alloc::{AllocError, Global};

/// Bytes for the added text of edits.
const ADDED: usize = 4_096;

/// Places for the documents that are compared, and for those of edits.
const PLACES: usize = 8;

/// So much memory from the heap: as many records as are used at most, and for added text and documents as above. Takes time
/// in its size.
pub fn memory(heap: Global) -> Result<Memory, AllocError>
    ensures { IfOk result (Holds (record { records = MOST_RECORDS; added = ADDED; places = PLACES })) }
{
    // two of the longest documents take all the records
    let sizes = Sizes {
        records: MOST_RECORDS,
        added: ADDED,
        places: PLACES,
    };
    Memory::new(heap, sizes)
}
