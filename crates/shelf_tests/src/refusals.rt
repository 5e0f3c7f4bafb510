//! Every call's refusals at their edges.
use crate::calls::{Row, add, cut, first_wrong, first_wrong_on, splice, take};
use crate::memory::LINE;
use monoid::line_column::LineColumn;
use refusal::Refusal;
use rope::record::Record;
use shelf_view::draft_id::DraftId;
use std::process::Abort;
use std::test::Fail;
use text_shelf::call::Call;
use text_shelf::named::PlainShelf;
use text_shelf::shelf::Shelf;

const BUILD: &[u8; 10] = b"0123456789";

// The longest text that may be put, and one byte more.
static LONGEST: [u8; 4096] = [b'x'; 4096];

static LONGER: [u8; 4097] = [b'x'; 4097];

// Calls on a fresh shelf with so much memory and mark 7.
#[derive(Drop)]
struct Case<'c> {
    records: usize,
    added: usize,
    places: usize,
    calls: &'c [Row],
}

// Each call of each case is answered as its row says.
fn check<'c>(rt: &impl Abort, cases: &[Case<'c>]) {
    for (i, case) in cases.iter().enumerate() {
        assert_eq!(rt; wrong_row(rt, case), None, "case {i}");
    }
}

// The row of the first call that is answered otherwise.
fn wrong_row<'c>(rt: &impl Abort, case: &Case<'c>) -> Option<usize> {
    let mut records = [Record::blank(LINE); 200];
    let mut added = [0u8; 4096];
    let mut places = [None; 8];
    first_wrong::<LineColumn>(
        rt,
        BUILD,
        &mut added[0..case.added.min(4096)],
        &mut records[0..case.records.min(200)],
        &mut places[0..case.places.min(8)],
        7,
        case.calls,
    )
}

// Long texts; memory for text and records and places, each exactly used up; 7 before 11 before 12 before 13.
#[test]
fn puts_are_refused(rt: HostRuntime) {
    let cases = [
        Case {
            records: 128,
            added: 4096,
            places: 1,
            calls: &[
                (Call::Put(&LONGER), Err(7)),
                (Call::Put(&LONGEST), Ok(())),
                (Call::Put(b"x"), Err(11)),
                (take(0, 1), Err(12)),
                (take(0, 0), Err(13)),
                (Call::Put(b""), Err(13)),
            ],
        },
        Case {
            records: 127,
            added: 4096,
            places: 1,
            calls: &[(Call::Put(&LONGEST), Err(12))],
        },
        Case {
            records: 1,
            added: 1,
            places: 1,
            calls: &[(Call::Put(b"x"), Err(12)), (Call::Put(b""), Ok(()))],
        },
        Case {
            records: 2,
            added: 1,
            places: 1,
            calls: &[(Call::Put(b"x"), Ok(()))],
        },
        Case {
            records: 2,
            added: 1,
            places: 0,
            calls: &[(Call::Put(b"xx"), Err(11)), (Call::Put(b"x"), Err(13))],
        },
        Case {
            records: 2,
            added: 0,
            places: 8,
            calls: &[
                (take(11, 11), Err(6)),
                (take(4, 3), Err(6)),
                (take(0, 11), Err(6)),
                (take(usize::MAX, usize::MAX), Err(6)),
                (take(10, 10), Ok(())),
                (take(0, 10), Ok(())),
                (take(0, 1), Err(12)),
            ],
        },
    ];
    check(&rt, &cases);
}

// Unknown documents, unlawful parts, and the need of an edit of the empty text.
#[test]
fn edits_are_refused(rt: HostRuntime) {
    let cases = [
        Case {
            records: 200,
            added: 0,
            places: 4,
            calls: &[
                (cut(1, 4, 3), Err(5)),
                (splice(0, 4, 3, 1), Err(5)),
                (splice(1, 0, 0, 0), Err(5)),
                (cut(0, 0, 1), Err(6)),
                (take(0, 10), Ok(())),
                (cut(1, 4, 3), Err(6)),
                (cut(1, 0, 11), Err(6)),
                (splice(1, 0, 11, 1), Err(6)),
                (splice(1, 11, 10, 1), Err(6)),
                (cut(1, 10, 10), Ok(())),
                (splice(1, 0, 10, 1), Ok(())),
                (cut(4, 0, 0), Err(5)),
                (cut(3, 0, 10), Ok(())),
                (cut(1, 0, 0), Err(13)),
            ],
        },
        Case {
            records: 31,
            added: 0,
            places: 1,
            calls: &[(cut(0, 0, 0), Err(12)), (splice(0, 0, 0, 0), Err(12))],
        },
        Case {
            records: 32,
            added: 0,
            places: 1,
            calls: &[(cut(0, 0, 0), Ok(())), (splice(0, 0, 0, 0), Err(13))],
        },
    ];
    check(&rt, &cases);
}

// The shelf's drafts, by their count.
fn own(count: u32) -> DraftId {
    DraftId { mark: 7, count }
}

const STRANGE: DraftId = DraftId { mark: 8, count: 1 };

// Strange drafts, and the need of an add. A draft that is given up does not return its added bytes.
#[test]
fn drafts_are_refused(rt: HostRuntime) {
    let cases = [
        Case {
            records: 200,
            added: 3,
            places: 1,
            calls: &[
                (add(own(0), b""), Err(3)),
                (Call::GiveUp(own(0)), Err(3)),
                (Call::Open, Ok(())),
                (Call::Open, Err(4)),
                (add(STRANGE, &LONGER), Err(3)),
                (add(own(2), b"x"), Err(3)),
                (Call::Seal(STRANGE), Err(3)),
                (Call::GiveUp(own(0)), Err(3)),
                (add(own(1), &LONGER), Err(7)),
                (add(own(1), b"xxxx"), Err(11)),
                (add(own(1), b"xxx"), Ok(())),
                (Call::Seal(own(1)), Ok(())),
                (Call::Seal(own(1)), Err(3)),
                (Call::Open, Ok(())),
                (Call::GiveUp(own(1)), Err(3)),
                (Call::Seal(own(2)), Err(13)),
                (Call::GiveUp(own(2)), Ok(())),
            ],
        },
        Case {
            records: 33,
            added: 1,
            places: 1,
            calls: &[(Call::Open, Ok(())), (add(own(1), b"x"), Err(12))],
        },
        Case {
            records: 34,
            added: 1,
            places: 1,
            calls: &[(Call::Open, Ok(())), (add(own(1), b"x"), Ok(()))],
        },
        Case {
            records: 31,
            added: 1,
            places: 1,
            calls: &[(Call::Open, Ok(())), (add(own(1), b""), Err(12))],
        },
        Case {
            records: 200,
            added: 4,
            places: 8,
            calls: &[
                (Call::Open, Ok(())),
                (add(own(1), b"abc"), Ok(())),
                (Call::GiveUp(own(1)), Ok(())),
                (Call::Put(b"de"), Err(11)),
                (Call::Put(b"d"), Ok(())),
            ],
        },
    ];
    check(&rt, &cases);
}

// A number that the proof does not compute with.
fn plain(n: usize) -> usize {
    n
}

// The longest document, and the most records and places that are used, of more that are brought.
#[test]
fn most_is_used(rt: HostRuntime) -> Result<(), Fail> {
    let heap = rt.alloc();
    let build = vec![in heap; b'x'; plain(1048577)]?;
    let mut records = vec![in heap; Record::blank(LINE); plain(65540)]?;
    let mut places = vec![in heap; None; plain(4096)]?;
    let mut shelf: PlainShelf = Shelf::new(&build, &mut [], &mut records, &mut places, 7);
    let most = [
        (take(0, 1048577), Err(7)),
        (take(0, 1048576), Ok(())),
        (take(1, 1048577), Ok(())),
        (take(0, 1), Ok(())),
        (take(0, 1), Err(12)),
        (splice(1, 0, 0, 3), Err(7)),
        (splice(1, 0, 1, 3), Err(12)),
        (Call::Put(b""), Ok(())),
    ];
    assert_eq!(rt; first_wrong_on(&rt, &mut shelf, &most), None);
    // That was document 4, and there are 4,095 places.
    for _ in 4..4095 {
        shelf.put(b"")?;
    }
    assert_eq!(rt; shelf.put(b""), Err(Refusal::NumbersSpent));
    Ok(())
}
