//! The lines of a change side by side, as `diff` writes them in two columns.
ghost use Rattle.std.specs.Prelude.{◌≤◌, length};

use crate::change::{Change, Part, lines_of};
use anyhow::Result;
use std::alloc::{AllocError, Global};
use std::io::Write;

/// The whole lines that a part of the text touches.
fn touched<'t>(heap: Global, text: &'t [u8], part: Part) -> Result<Vec<&'t [u8]>, AllocError>
    requires ordered { part.from ≤ part.to }
    requires within { part.to ≤ length text.now }
{
    let Part { from, to } = lines_of(text, part);
    // behind the last newline of a text stands no line
    if from == text.len() {
        return Ok(Vec::new(heap));
    }
    let lines = &text[from..to];
    let lines = match lines.strip_suffix(b"\n") {
        Some(front) if to == text.len() => front,
        _ => lines,
    };
    lines.split(|b| *b == b'\n').collect(heap)
}

/// Writes the lines that the change touches, those of the old text to the left.
pub(crate) fn write_lines<W: Write>(
    heap: Global,
    old: &[u8],
    new: &[u8],
    change: Change,
    out: &mut W,
) -> Result<()>
    requires old_ordered { change.old.from ≤ change.old.to }
    requires old_within { change.old.to ≤ length old.now }
    requires new_ordered { change.new.from ≤ change.new.to }
    requires new_within { change.new.to ≤ length new.now }
{
    let old = touched(heap, old, change.old)?;
    let new = touched(heap, new, change.new)?;
    let width = old.iter().map(|line| line.len()).max().unwrap_or(0);
    for i in 0..old.len().max(new.len()) {
        write_pair(old.get(i).copied(), new.get(i).copied(), width, out)?;
    }
    Ok(())
}

/// Writes one line: `|` between lines that differ, `<` behind one of the old text alone, `>` before one of the new text alone.
fn write_pair<'t, W: Write>(
    old: Option<&'t [u8]>,
    new: Option<&'t [u8]>,
    width: usize,
    out: &mut W,
) -> Result<()> {
    let sign = match (old, new) {
        (Some(old), Some(new)) if old == new => "   ",
        (Some(_), Some(_)) => " | ",
        (Some(_), None) => " <",
        (None, _) => " > ",
    };
    let left = old.unwrap_or(b"");
    out.write_all(left)?;
    for _ in left.len()..width {
        out.write_all(b" ")?;
    }
    out.write_all(sign.as_bytes())?;
    out.write_all(new.unwrap_or(b""))?;
    out.write_all(b"\n")?;
    Ok(())
}
