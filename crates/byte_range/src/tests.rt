//! A shelf over the least and the greatest byte, run.
use crate::range::ByteRange;
use monoid::Monoid;
use refusal::Refusal;
use rope::record::Record;
use std::test::Fail;
use text_shelf::shelf::Shelf;

fn range(least: u8, greatest: u8) -> ByteRange {
    ByteRange { least, greatest }
}

// Puts `text` on the shelf, and tells the summary of the new document.
fn put_and_tell<'b, 'a>(
    shelf: &mut Shelf<'b, 'a, ByteRange>,
    text: &[u8],
) -> Result<ByteRange, Refusal> {
    let d = shelf.put(text)?;
    Ok(shelf.view().document(d)?.summary())
}

#[test]
fn tells_least_and_greatest(rt: HostRuntime) -> Result<(), Fail> {
    let mut added = [0u8; 100];
    let mut records = [Record::blank(ByteRange::empty()); 8];
    let mut places = [None; 4];
    let mut shelf: Shelf<ByteRange> = Shelf::new(b"", &mut added, &mut records, &mut places, 1);
    assert_eq!(rt; put_and_tell(&mut shelf, b"")?, range(255, 0));
    assert_eq!(rt; put_and_tell(&mut shelf, b"port")?, range(b'o', b't'));
    let mut text = [b'm'; 90];
    text[0] = b'z';
    text[89] = b'a';
    assert_eq!(rt; put_and_tell(&mut shelf, &text)?, range(b'a', b'z'));
    Ok(())
}
