//! Slices of a document's or a draft's text: parts of parts, and what stands around one.
use crate::memory::LINE;
use monoid::Monoid;
use monoid::line_column::LineColumn;
use refusal::Refusal;
use rope::record::Record;
use rope_read::text::Text;
use shelf_view::draft_id::DraftId;
use std::process::Abort;
use std::test::Fail;
use text_shelf::draft::Draft;
use text_shelf::named::PlainShelf;
use text_shelf::shelf::Shelf;

// From a slice to a slice of it: a part, or one side of what stands around a part.
#[derive(Clone, Copy)]
enum Way {
    Part(usize, usize),
    Bytes(usize, usize),
    Before(usize, usize),
    Behind(usize, usize),
}

fn slice_of<'v, M: Monoid>(text: Text<'v, M>, way: Way) -> Result<Text<'v, M>, Refusal> {
    match way {
        Way::Part(a, b) => text.part(a, b),
        Way::Bytes(a, n) => text.bytes(a, n),
        Way::Before(a, b) => text.around(a, b).map(|around| around.0),
        Way::Behind(a, b) => text.around(a, b).map(|around| around.1),
    }
}

// The slice at the end of the ways.
fn reached<'v, M: Monoid>(text: Text<'v, M>, ways: &[Way]) -> Result<Text<'v, M>, Refusal> {
    let mut here = text;
    for way in ways {
        here = slice_of(here, *way)?;
    }
    Ok(here)
}

// The bytes of a text, and their lines and columns.
type Wanted = (&'static [u8], u32, u32);

// Whether the slice is copied to the start of a buffer of nines, whose other bytes stay, and not at all where there is too
// little room.
fn copies<'v, M: Monoid>(slice: Text<'v, M>, bytes: &[u8]) -> bool {
    let mut out = [9; 32];
    let copied = slice.copy(&mut out) == Ok(bytes.len());
    let stands = out
        .strip_prefix(bytes)
        .is_some_and(|rest| rest.iter().all(|b| *b == 9));
    let mut small = [9; 32];
    let room = bytes.len().saturating_sub(1).min(32);
    let refused = slice.copy(&mut small[0..room]) == Err(Refusal::SmallBuffer);
    copied && stands && (bytes.is_empty() || refused && small == [9; 32])
}

// Whether the slice has these bytes and no more, as its length, its copy, each byte and its summary tell it.
fn is_text<'v>(slice: Text<'v, LineColumn>, wanted: Wanted) -> bool {
    let (bytes, lines, columns) = wanted;
    let each = bytes
        .iter()
        .enumerate()
        .all(|(i, byte)| slice.byte(i) == Ok(*byte));
    let ends = [bytes.len(), usize::MAX]
        .iter()
        .all(|i| slice.byte(*i) == Err(Refusal::BadPart));
    slice.len() == bytes.len()
        && each
        && ends
        && copies(slice, bytes)
        && slice.summary() == LineColumn { lines, columns }
}

// The ways from a text, and the slice that they reach, or the refusal's number.
type Row = (&'static [Way], Result<Wanted, u8>);

// The first row that is answered otherwise.
fn wrong<'v>(text: Text<'v, LineColumn>, table: &[Row]) -> Option<usize> {
    table.iter().position(|(ways, wanted)| match (reached(text, ways), *wanted) {
        (Ok(slice), Ok(wanted)) => !is_text(slice, wanted),
        (Err(why), Err(number)) => why.number() != number,
        _ => true,
    })
}

// Of "ho\nna\nmeport".
static SLICES: [Row; 36] = [
    (&[], Ok((b"ho\nna\nmeport", 2, 6))),
    (&[Way::Part(0, 12)], Ok((b"ho\nna\nmeport", 2, 6))),
    (&[Way::Part(1, 8)], Ok((b"o\nna\nme", 2, 2))),
    (&[Way::Part(1, 8), Way::Part(2, 6)], Ok((b"na\nm", 1, 1))),
    (
        &[Way::Part(1, 8), Way::Part(2, 6), Way::Part(1, 3)],
        Ok((b"a\n", 1, 0)),
    ),
    (
        &[Way::Part(1, 8), Way::Part(0, 7)],
        Ok((b"o\nna\nme", 2, 2)),
    ),
    // beyond the slice, though not beyond the document
    (&[Way::Part(1, 8), Way::Part(0, 8)], Err(6)),
    (&[Way::Part(1, 8), Way::Part(4, 3)], Err(6)),
    (&[Way::Part(1, 8), Way::Part(7, 7)], Ok((b"", 0, 0))),
    (&[Way::Part(1, 8), Way::Part(8, 8)], Err(6)),
    (&[Way::Part(0, 13)], Err(6)),
    (&[Way::Part(usize::MAX, usize::MAX)], Err(6)),
    // of an empty slice
    (&[Way::Part(5, 5), Way::Part(0, 0)], Ok((b"", 0, 0))),
    (&[Way::Part(5, 5), Way::Part(0, 1)], Err(6)),
    (&[Way::Part(5, 5), Way::Bytes(0, 0)], Ok((b"", 0, 0))),
    (&[Way::Part(5, 5), Way::Before(0, 0)], Ok((b"", 0, 0))),
    (&[Way::Part(5, 5), Way::Behind(0, 0)], Ok((b"", 0, 0))),
    // so many bytes
    (&[Way::Bytes(3, 5)], Ok((b"na\nme", 1, 2))),
    (&[Way::Bytes(12, 0)], Ok((b"", 0, 0))),
    (&[Way::Bytes(3, 10)], Err(6)),
    (&[Way::Bytes(13, 0)], Err(6)),
    (&[Way::Bytes(0, usize::MAX)], Err(6)),
    (&[Way::Bytes(3, usize::MAX)], Err(6)),
    (&[Way::Bytes(usize::MAX, 3)], Err(6)),
    (&[Way::Part(1, 8), Way::Bytes(2, 4)], Ok((b"na\nm", 1, 1))),
    (&[Way::Part(1, 8), Way::Bytes(2, 6)], Err(6)),
    // around a part
    (&[Way::Before(3, 5)], Ok((b"ho\n", 1, 0))),
    (&[Way::Behind(3, 5)], Ok((b"\nmeport", 1, 6))),
    (&[Way::Before(0, 12)], Ok((b"", 0, 0))),
    (&[Way::Behind(0, 12)], Ok((b"", 0, 0))),
    (&[Way::Behind(0, 0)], Ok((b"ho\nna\nmeport", 2, 6))),
    (&[Way::Part(1, 8), Way::Before(2, 4)], Ok((b"o\n", 1, 0))),
    (&[Way::Part(1, 8), Way::Behind(2, 4)], Ok((b"\nme", 1, 2))),
    (
        &[Way::Behind(2, 4), Way::Before(2, 3), Way::Part(1, 2)],
        Ok((b"\n", 1, 0)),
    ),
    (&[Way::Part(1, 8), Way::Before(4, 2)], Err(6)),
    (&[Way::Part(1, 8), Way::Behind(2, 8)], Err(6)),
];

// Of the empty text.
static OF_NONE: [Row; 6] = [
    (&[], Ok((b"", 0, 0))),
    (&[Way::Part(0, 0), Way::Bytes(0, 0)], Ok((b"", 0, 0))),
    (&[Way::Before(0, 0)], Ok((b"", 0, 0))),
    (&[Way::Behind(0, 0)], Ok((b"", 0, 0))),
    (&[Way::Bytes(0, 1)], Err(6)),
    (&[Way::Before(1, 1)], Err(6)),
];

// Of "one\ntwo".
static OF_DRAFT: [Row; 5] = [
    (&[], Ok((b"one\ntwo", 1, 3))),
    (&[Way::Part(2, 6), Way::Part(1, 3)], Ok((b"\nt", 1, 1))),
    (&[Way::Before(2, 6)], Ok((b"on", 0, 2))),
    (&[Way::Bytes(7, usize::MAX)], Err(6)),
    (&[Way::Part(0, 8)], Err(6)),
];

// The first row that is answered otherwise of a document's text.
fn wrong_of<'b, 'a>(
    shelf: &PlainShelf<'b, 'a>,
    d: u32,
    table: &[Row],
) -> Result<Option<usize>, Refusal> {
    Ok(wrong(shelf.view().document(d)?.text(), table))
}

// The first row that is answered otherwise of the draft's text.
fn wrong_of_draft<'b, 'a>(
    shelf: &PlainShelf<'b, 'a>,
    id: DraftId,
    table: &[Row],
) -> Result<Option<usize>, Refusal> {
    Ok(wrong(shelf.view().draft(id)?.text(), table))
}

// Asks about a draft while it is open, and gives it up.
fn ask_draft<'b, 'a>(rt: &impl Abort, shelf: &mut PlainShelf<'b, 'a>, draft: Draft) {
    let id = draft.id();
    assert_eq!(rt; wrong_of_draft(shelf, id, &OF_NONE), Ok(None));
    assert_eq!(rt; draft.add(shelf, b"one\n"), Ok(()));
    assert_eq!(rt; draft.add(shelf, b"two"), Ok(()));
    assert_eq!(rt; wrong_of_draft(shelf, id, &OF_DRAFT), Ok(None));
    match draft.give_up(shelf) {
        Ok(()) => (),
        Err((_why, _draft)) => panic!(rt; "the draft is not given up"),
    }
    assert_eq!(rt; wrong_of_draft(shelf, id, &[]), Err(Refusal::StrangeDraft));
}

#[test]
fn slices_are_asked(rt: HostRuntime) -> Result<(), Fail> {
    let mut added = [0u8; 30];
    let mut records = [Record::blank(LINE); 300];
    let mut places = [None; 3];
    let mut shelf: PlainShelf = Shelf::new(b"", &mut added, &mut records, &mut places, 5);
    shelf.put(b"ho\nport")?;
    shelf.put(b"na\nme")?;
    shelf.splice(1, 3, 3, 2)?;
    let high = shelf.view().document(3)?.height();
    assert_ne!(rt; high, 0, "the slices are of several leaves");
    let draft = shelf.open()?;
    ask_draft(&rt, &mut shelf, draft);
    assert_eq!(rt; wrong_of(&shelf, 3, &SLICES), Ok(None));
    assert_eq!(rt; wrong_of(&shelf, 0, &OF_NONE), Ok(None));
    assert_eq!(rt; wrong_of(&shelf, 4, &[]), Err(Refusal::NoDocument));
    Ok(())
}
