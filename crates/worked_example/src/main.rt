//! A lease is changed on a shelf over lent memory, and read back from the fingerprint that the change makes.
#![tactic(auto)]

use monoid::Monoid;
use refusal::Refusal;
use rope::record::Record;
use shelf_view::marked::Marked;
use std::io;
use text_shelf::named::MarkedShelf;
use text_shelf::shelf::Shelf;
use zemor::matrix::Sl2;

/// The new text's fingerprint; and what was written into the old one, as that and the fingerprint tell.
fn change<'w>(window: &'w mut [u8; 5]) -> Result<(Sl2, &'w [u8]), Refusal> {
    let mut added = [0; 64];
    let mut records = [Record::blank(Marked::empty().to_row()); 40];
    let mut places = [None; 3];
    let mut shelf: MarkedShelf = Shelf::new(b"", &mut added, &mut records, &mut places, 1);
    let old = shelf.put(b"lease = 3600\n")?;
    let digits = shelf.put(b"86400")?;
    let new = shelf.splice(old, 8, 12, digits)?;
    let view = shelf.view();
    let fingerprint = view.document(new)?.summary().first;
    let n = view.read_back(old, 8, 12, &fingerprint.to_hex(), window)?;
    Ok((fingerprint, &window[..n]))
}

fn main(rt: HostRuntime) -> io::Result<()> {
    match change(&mut [0; 5]) {
        Ok((told, written)) => println!(rt; "{told}: \"{}\" was written", written.escape_ascii()),
        Err(why) => println!(rt; "refused with {}", why.number()),
    }
}
