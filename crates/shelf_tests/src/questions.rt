//! Questions, on a marked shelf.
use crate::memory::MARKED;
use refusal::Refusal;
use rope::record::Record;
use shelf_view::marked::Marked;
use shelf_view::sameness::Sameness;
use shelf_view::view::View;
use std::test::Fail;
use text_shelf::named::MarkedShelf;
use text_shelf::shelf::Shelf;

// A read-back, a copy or a byte of a document.
#[derive(Clone, Copy)]
enum Ask<'t> {
    Back(u32, usize, usize, &'t [u8]),
    Copy(u32, usize, usize),
    Byte(u32, usize),
}

fn byte_of<'v>(view: View<'v, Marked>, d: u32, i: usize) -> Result<u8, Refusal> {
    view.document(d)?.text().byte(i)
}

// The number answered, or the number of the refusal.
fn asked<'b, 'a, 't>(
    shelf: &MarkedShelf<'b, 'a>,
    ask: Ask<'t>,
    out: &mut [u8],
) -> Result<usize, u8> {
    let view = shelf.view();
    let answer = match ask {
        Ask::Back(d, a, b, fingerprint) => view.read_back(d, a, b, fingerprint, out),
        Ask::Copy(d, a, b) => view.copy(d, a, b, out),
        Ask::Byte(d, i) => byte_of(view, d, i).map(usize::from),
    };
    answer.map_err(Refusal::number)
}

// A question, its answer, and the buffer's first byte afterwards.
type Row = (Ask<'static>, Result<usize, u8>, u8);

// The first question that is answered otherwise, with a buffer of `room` nines.
fn wrong_row<'b, 'a>(shelf: &MarkedShelf<'b, 'a>, room: usize, table: &[Row]) -> Option<usize> {
    table.iter().position(|(ask, answer, first)| {
        let mut out = [9u8; 8];
        asked(shelf, *ask, &mut out[0..room.min(8)]) != *answer || out[0] != *first
    })
}

// The case and the row of the first such question. A case has the buffer's length.
fn wrong<'b, 'a>(
    shelf: &MarkedShelf<'b, 'a>,
    cases: &[(usize, &'static [Row])],
) -> Option<(usize, usize)> {
    cases.iter().enumerate().find_map(|(i, (room, table))| {
        let row = wrong_row(shelf, *room, table)?;
        Some((i, row))
    })
}

// Fingerprints of texts, and what is none: too few digits, a capital, an entry of p, and a determinant of 400.
const OF_AA: &[u8] = b"0000018f0000014500000113000000e0";

const OF_EMPTY: &[u8] = b"00000001000000000000000000000001";

const ONE_SHORT: &[u8] = b"0000000100000000000000000000001";

const UPPER_CASE: &[u8] = b"0000018F0000014500000113000000e0";

const ENTRY_P: &[u8] = b"7fffffff000000017ffffffe00000000";

const DETERMINANT_400: &[u8] = b"0000018f0000014500000113000000e1";

// Document 1 is "ab".
static CASES: [(usize, &[Row]); 3] = [
    (
        5,
        &[
            (Ask::Back(1, 1, 2, OF_AA), Ok(1), b'a'),
            (Ask::Back(1, 0, 2, OF_EMPTY), Ok(0), 9),
            (Ask::Back(1, 1, 2, OF_EMPTY), Err(10), 9),
            (Ask::Back(1, 0, 2, ONE_SHORT), Err(9), 9),
            (Ask::Back(1, 1, 2, UPPER_CASE), Err(9), 9),
            (Ask::Back(1, 1, 2, ENTRY_P), Err(9), 9),
            (Ask::Back(1, 1, 2, DETERMINANT_400), Err(9), 9),
        ],
    ),
    (
        4,
        &[
            (Ask::Back(1, 0, 2, OF_EMPTY), Err(8), 9),
            (Ask::Back(1, 0, 2, b""), Err(8), 9),
            (Ask::Back(1, 0, 3, b""), Err(6), 9),
            (Ask::Back(2, 3, 0, b""), Err(5), 9),
        ],
    ),
    (
        1,
        &[
            (Ask::Copy(1, 1, 2), Ok(1), b'b'),
            (Ask::Copy(1, 0, 2), Err(8), 9),
            (Ask::Copy(1, 2, 0), Err(6), 9),
            (Ask::Copy(1, 0, 3), Err(6), 9),
            (Ask::Copy(2, 0, 3), Err(5), 9),
            (Ask::Copy(0, 0, 0), Ok(0), 9),
            (Ask::Byte(1, 1), Ok(98), 9),
            (Ask::Byte(1, 2), Err(6), 9),
            (Ask::Byte(0, 0), Err(6), 9),
            (Ask::Byte(2, 0), Err(5), 9),
        ],
    ),
];

#[test]
fn reads_back_and_copies(rt: HostRuntime) -> Result<(), Fail> {
    let mut added = [0u8; 2];
    let mut records = [Record::blank(MARKED); 2];
    let mut places = [None; 1];
    let mut shelf: MarkedShelf = Shelf::new(b"", &mut added, &mut records, &mut places, 1);
    shelf.put(b"ab")?;
    assert_eq!(rt; wrong(&shelf, &CASES), None);
    Ok(())
}

// The first row for which `same` answers otherwise: a in the first text put, e, b, n and the answer.
fn unlike<'b, 'a>(
    shelf: &MarkedShelf<'b, 'a>,
    table: &[(usize, u32, usize, usize, Result<Sameness, u8>)],
) -> Option<usize> {
    let view = shelf.view();
    table.iter().position(|(a, e, b, n, answer)| {
        view.same(1, *a, *e, *b, *n).map_err(Refusal::number) != *answer
    })
}

const COMPARED: [(usize, u32, usize, usize, Result<Sameness, u8>); 8] = [
    (0, 1, 6, 5, Ok(Sameness::Equal)),
    (0, 1, 0, 6, Ok(Sameness::Alike)),
    (0, 1, 6, 6, Ok(Sameness::Different)),
    (0, 1, 1, 1, Ok(Sameness::Different)),
    (12, 0, 0, 0, Ok(Sameness::Equal)),
    (0, 1, 7, 6, Err(6)),
    (1, 1, 0, usize::MAX, Err(6)),
    (13, 2, 0, 0, Err(5)),
];

#[test]
fn compares(rt: HostRuntime) -> Result<(), Fail> {
    let mut records = [Record::blank(MARKED); 2];
    let mut places = [None; 1];
    let mut shelf: MarkedShelf = Shelf::new(b"abcdefabcdeg", &mut [], &mut records, &mut places, 1);
    shelf.take(0, 12)?;
    assert_eq!(rt; unlike(&shelf, &COMPARED), None);
    Ok(())
}
