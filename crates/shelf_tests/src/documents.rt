//! Documents and drafts on a plain shelf.
use crate::memory::LINE;
use monoid::Monoid;
use monoid::line_column::LineColumn;
use refusal::Refusal;
use rope::record::Record;
use shelf_view::draft_id::DraftId;
use std::process::Abort;
use std::test::Fail;
use text_shelf::draft::Draft;
use text_shelf::named::PlainShelf;
use text_shelf::shelf::Shelf;

// Whether document `d` is `text`, as it is copied to the start of a buffer whose other bytes stay.
fn holds<'b, 'a, M: Monoid>(shelf: &Shelf<'b, 'a, M>, d: u32, text: &[u8]) -> bool {
    let n = text.len();
    let mut out = [9u8; 32];
    if n >= 32 {
        return false;
    }
    match (
        shelf.view().document(d),
        shelf.view().copy(d, 0, n, &mut out),
    ) {
        (Ok(whole), Ok(_)) => whole.len() == n && &out[0..n] == text && out[n] == 9,
        _ => false,
    }
}

// How many bytes the draft has, or the refusal's number.
fn draft_len<'b, 'a, M: Monoid>(shelf: &Shelf<'b, 'a, M>, id: DraftId) -> Result<usize, u8> {
    let draft = shelf.view().draft(id).map_err(Refusal::number)?;
    Ok(draft.len())
}

// The first document that is not its text.
fn other_text<'b, 'a, M: Monoid>(
    shelf: &Shelf<'b, 'a, M>,
    texts: &[(u32, &'static [u8])],
) -> Option<u32> {
    texts
        .iter()
        .find(|(d, text)| !holds(shelf, *d, text))
        .map(|(d, _)| *d)
}

const TEXTS: [(u32, &[u8]); 6] = [
    (0, b""),
    (1, b"host\nport"),
    (2, b"name"),
    (3, b"honameport"),
    (4, b"onamep"),
    (5, b"one\ntwo"),
];

// The number that a seal answers.
fn sealed(rt: &impl Abort, answer: Result<u32, (Refusal, Draft)>) -> u32 {
    match answer {
        Ok(d) => d,
        Err((_why, _draft)) => panic!(rt; "the draft is not sealed"),
    }
}

#[test]
fn documents_stay(rt: HostRuntime) -> Result<(), Fail> {
    let mut added = [0u8; 20];
    let mut records = [Record::blank(LINE); 300];
    let mut places = [None; 5];
    let mut shelf: PlainShelf = Shelf::new(b"", &mut added, &mut records, &mut places, 5);
    shelf.put(b"host\nport")?;
    shelf.put(b"name")?;
    shelf.splice(1, 2, 5, 2)?;
    shelf.cut(3, 1, 7)?;
    let draft = shelf.open()?;
    let id = draft.id();
    assert_eq!(rt; draft.add(&mut shelf, b"one\n"), Ok(()));
    assert_eq!(rt; draft_len(&shelf, id), Ok(4));
    assert_eq!(rt; draft.add(&mut shelf, b"two"), Ok(()));
    assert_eq!(rt; sealed(&rt, draft.seal(&mut shelf)), 5);
    assert_eq!(rt; other_text(&shelf, &TEXTS), None);
    assert_eq!(rt; draft_len(&shelf, id), Err(3));
    assert_eq!(rt;
        shelf.view().part_summary(1, 2, 7),
        Ok(LineColumn {
            lines: 1,
            columns: 2
        })
    );
    Ok(())
}
