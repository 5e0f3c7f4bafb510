//! Edits to a number in one file, call by call.
use crate::change::{Part, digits_in, other_digits};
use crate::files::read;
use crate::memory::memory;
use crate::told::{MarkedView, place_in, refused, tell};
use anyhow::{Context, Result};
use shelf_view::sameness::Sameness;
use std::fmt::Display;
use std::io::Write;
use std::rt::Files;
use text_shelf::named::MarkedShelf;

/// At most so many digits are edited, as five bytes can be read back.
const MOST_DIGITS: usize = 5;

/// Puts the file on a shelf, and writes what edits to its first number make.
pub fn run<R: Files + AllocGlobal, W: Write>(rt: &R, file: &str, out: &mut W) -> Result<()> {
    let text = read(rt, file)?;
    let part = digits_in(&text, MOST_DIGITS).context(format_args!("{file} has no digits to edit"))?;
    let mut memory = memory(rt.alloc())?;
    let mut shelf = memory.shelf(&text);
    let other = other_digits(rt.alloc(), &text[part.from..part.to])?;
    edit(&mut shelf, text.len(), part, &other, out)
}

/// Runs the edits, each a call of the shelf, and writes what each makes.
fn edit<'b, 'a, W: Write>(
    shelf: &mut MarkedShelf<'b, 'a>,
    len: usize,
    part: Part,
    digits: &[u8],
    out: &mut W,
) -> Result<()> {
    let Part { from, to } = part;
    let whole = shelf.take(0, len).map_err(refused)?;
    write_made(shelf.view(), whole, "take: the whole file", out)?;
    let old = shelf.cut(whole, from, to).map_err(refused)?;
    let at = place_in(shelf.view(), whole, from).map_err(refused)?;
    write_made(
        shelf.view(),
        old,
        format_args!("cut: the digits at {at}"),
        out,
    )?;
    let new = shelf.put(digits).map_err(refused)?;
    write_made(shelf.view(), new, "put: other digits", out)?;
    let edited = shelf.splice(whole, from, to, new).map_err(refused)?;
    write_made(
        shelf.view(),
        edited,
        format_args!("splice: {whole} with {new} in their place"),
        out,
    )?;
    let back = shelf.splice(edited, from, to, old).map_err(refused)?;
    write_made(
        shelf.view(),
        back,
        format_args!("splice: {edited} with {old} there again"),
        out,
    )?;
    write_same(shelf.view(), whole, edited, len, out)?;
    write_same(shelf.view(), whole, back, len, out)?;
    write_same(shelf.view(), old, new, digits.len(), out)?;
    write_read_back(shelf.view(), whole, part, edited, out)
}

/// Writes what is told of a document that was made.
fn write_made<'v, D: Display + Drop, W: Write>(
    view: MarkedView<'v>,
    number: u32,
    how: D,
    out: &mut W,
) -> Result<()> {
    let told = tell(view, number).map_err(refused)?;
    writeln!(out, "{number}  {told}  {how}")?;
    Ok(())
}

/// Writes how the first bytes of two documents compare.
fn write_same<'v, W: Write>(
    view: MarkedView<'v>,
    d: u32,
    e: u32,
    n: usize,
    out: &mut W,
) -> Result<()> {
    let how = match view.same(d, 0, e, 0, n).map_err(refused)? {
        Sameness::Different => "different",
        Sameness::Equal => "equal",
        Sameness::Alike => "alike: one fingerprint",
    };
    writeln!(out, "same: {d} and {e} are {how}")?;
    Ok(())
}

/// Writes what stands in document `e` in the place of a part of `d`, as the rest of `d` and the fingerprint of `e` tell it.
fn write_read_back<'v, W: Write>(
    view: MarkedView<'v>,
    d: u32,
    part: Part,
    e: u32,
    out: &mut W,
) -> Result<()> {
    let told = view.document(e).map_err(refused)?.summary();
    let fingerprint = told.first.to_hex();
    let mut window = [0; MOST_DIGITS];
    let n = view
        .read_back(d, part.from, part.to, &fingerprint, &mut window)
        .map_err(refused)?;
    let window = window[..n].escape_ascii();
    writeln!(
        out,
        "read back: \"{window}\" was written, as {d} and the fingerprint of {e} alone tell"
    )?;
    Ok(())
}
