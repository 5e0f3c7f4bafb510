//! How much memory the program's shelf has.
ghost use Rattle.std.specs.Prelude.{IfOk};
ghost use Rattle.script.specs.declared.limits.TheConstants.{RECORDS, ADDED, PLACES};
ghost use Rattle.shelf_memory.specs.Sizes.{Holds};

use script::limits::{ADDED, PLACES, RECORDS};
use shelf_memory::memory::{Memory, Sizes};
use std::alloc::{AllocError, Global};

/// So much memory from the heap: 1,024 records, 16,384 added bytes, 64 places. Takes time in its size.
pub fn memory(heap: Global) -> Result<Memory, AllocError>
    ensures { IfOk result (Holds (record { records = RECORDS; added = ADDED; places = PLACES })) }
{
    let sizes = Sizes {
        records: RECORDS,
        added: ADDED,
        places: PLACES,
    };
    Memory::new(heap, sizes)
}
