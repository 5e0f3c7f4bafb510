//! A script from a reader, its answers to a writer.
ghost use Rattle.std.specs.Prelude.{◌≢◌, IfErr};
ghost use Rattle.std.specs.IoError.{error_kind};
ghost use Rattle.shelf.specs.Serving.{Served};

use script::limits::MOST_SCRIPT;
use script::run::run_all;
use std::alloc::Global;
use std::io;
use std::io::{ErrorKind, Read, Write};
use text_shelf::named::MarkedShelf;

/// Runs the script that `input` gives, its first `MOST_SCRIPT` bytes, and writes the answers to `out`. Where it cannot be read, or
/// there is no memory to hold it, nothing is run; where a write fails, the last command was run, and not all of its answer
/// written. Takes the time of its commands, and of the reading and writing.
pub fn serve<'b, 'a, R: Read + Drop, W: Write>(
    heap: Global,
    input: R,
    shelf: &mut MarkedShelf<'b, 'a>,
    out: &mut W,
) -> io::Result<()>
    ensures served { Served W.Write.contents (R.Read.remaining input) shelf.old out.old shelf.new out.new result }
    ensures retried { IfErr result (λ e. error_kind e ≢ ErrorKind.Interrupted) }
{
    let mut script = Vec::new(heap);
    input.take(MOST_SCRIPT as u64).read_to_end(&mut script)?;
    run_all(shelf, &script, 0, out)
}
