//! Files that are read whole.
ghost use Rattle.std.specs.Prelude.{IfOk, IfSome};
ghost use Rattle.std.specs.Option.{option_map};
ghost use Rattle.compare.specs.Files.{IsWhole};

use anyhow::{Context, Result, bail};
use refusal::limits::MOST_TEXT;
use std::alloc::Global;
use std::fs::File;
use std::io;
use std::io::Read;
use std::rt::Files;

/// All that `input` has, or none of it where it is longer than a document.
fn whole<R: Read + Drop>(heap: Global, input: R) -> io::Result<Option<Vec<u8>>>
    ensures { IfOk result (λ text. IfSome (R.Read.remaining input) (IsWhole (option_map (λ v. v.items) text))) }
{
    let mut text = Vec::new(heap);
    // one byte more tells whether there are too many
    input.take(MOST_TEXT as u64 + 1).read_to_end(&mut text)?;
    if text.len() > MOST_TEXT {
        return Ok(None);
    }
    Ok(Some(text))
}

/// The text of the file at `path`, where it is no longer than a document.
pub fn read<R: Files + AllocGlobal>(rt: &R, path: &str) -> Result<Vec<u8>> {
    let file = File::open(rt, path).context(format_args!("opening {path}"))?;
    match whole(rt.alloc(), file).context(format_args!("reading {path}"))? {
        Some(text) => Ok(text),
        None => bail!("{path} has more than {MOST_TEXT} bytes, the most of a document"),
    }
}
