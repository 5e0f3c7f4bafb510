//! Two files compared: what the person who releases a build does by hand.
ghost use Rattle.std.specs.Prelude.{◌≤◌};

use crate::change::{Change, Part, difference};
use crate::files::read;
use crate::lines::write_lines;
use crate::memory::memory;
use crate::told::{MarkedView, place_in, refused, tell};
use anyhow::Result;
use std::alloc::Global;
use std::io::Write;
use std::rt::Files;

/// A file's text, and its document on the shelf.
#[derive(Clone, Copy)]
struct Document<'t> {
    name: &'t str,
    text: &'t [u8],
    number: u32,
}

/// The longest text that is read back.
const MOST_WINDOW: usize = 5;

/// Puts both files on one shelf, and writes how they differ.
pub fn run<R: Files + AllocGlobal, W: Write>(
    rt: &R,
    old: &str,
    new: &str,
    out: &mut W,
) -> Result<()> {
    let old_text = read(rt, old)?;
    let new_text = read(rt, new)?;
    // both lie one behind the other in the build text
    let mut build = old_text.clone()?;
    build.extend_from_slice(&new_text)?;
    let mut memory = memory(rt.alloc())?;
    let mut shelf = memory.shelf(&build);
    let first = shelf.take(0, old_text.len()).map_err(refused)?;
    let second = shelf.take(old_text.len(), build.len()).map_err(refused)?;
    let old = Document {
        name: old,
        text: &old_text,
        number: first,
    };
    let new = Document {
        name: new,
        text: &new_text,
        number: second,
    };
    report(rt.alloc(), shelf.view(), old, new, out)
}

/// Writes how two documents differ.
fn report<'v, 't, W: Write>(
    heap: Global,
    view: MarkedView<'v>,
    old: Document<'t>,
    new: Document<'t>,
    out: &mut W,
) -> Result<()> {
    write_document(view, old, out)?;
    write_document(view, new, out)?;
    match difference(old.text, new.text) {
        None => Ok(writeln!(out, "equal texts")?),
        Some(change) => {
            write_places(view, old, new, change, out)?;
            write_lines(heap, old.text, new.text, change, out)?;
            write_read_back(view, old, new, change, out)
        }
    }
}

/// Writes a document's fingerprint, and how long it is.
fn write_document<'v, 't, W: Write>(
    view: MarkedView<'v>,
    document: Document<'t>,
    out: &mut W,
) -> Result<()> {
    let told = tell(view, document.number).map_err(refused)?;
    let name = document.name;
    writeln!(out, "{told}  {name}")?;
    Ok(())
}

/// Writes where two documents first part, and where they last do.
fn write_places<'v, 't, W: Write>(
    view: MarkedView<'v>,
    old: Document<'t>,
    new: Document<'t>,
    change: Change,
    out: &mut W,
) -> Result<()> {
    let first = place_in(view, old.number, change.old.from).map_err(refused)?;
    let old_last = place_in(view, old.number, change.old.to).map_err(refused)?;
    let new_last = place_in(view, new.number, change.new.to).map_err(refused)?;
    writeln!(out, "they first part at {first}")?;
    let (old, new) = (old.name, new.name);
    writeln!(
        out,
        "and last part before {old_last} of {old}, {new_last} of {new}"
    )?;
    Ok(())
}

/// Writes what was put in the place of the old part, as the old text and the new fingerprint tell it.
fn write_read_back<'v, 't, W: Write>(
    view: MarkedView<'v>,
    old: Document<'t>,
    new: Document<'t>,
    change: Change,
    out: &mut W,
) -> Result<()>
    requires { change.new.from ≤ change.new.to }
{
    let Change {
        old: Part { from, to },
        new: written,
    } = change;
    if written.to - written.from > MOST_WINDOW {
        writeln!(
            out,
            "more than {MOST_WINDOW} bytes were written, so they are not read back"
        )?;
        return Ok(());
    }
    let told = view.document(new.number).map_err(refused)?.summary();
    let fingerprint = told.first.to_hex();
    let mut window = [0; MOST_WINDOW];
    let n = view
        .read_back(old.number, from, to, &fingerprint, &mut window)
        .map_err(refused)?;
    let (old, window) = (old.name, window[..n].escape_ascii());
    writeln!(
        out,
        "written there, as {old} and the second fingerprint alone tell: \"{window}\""
    )?;
    Ok(())
}
