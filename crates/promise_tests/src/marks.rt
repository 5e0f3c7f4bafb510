//! What is told of marked shelves: the fingerprints of two documents, and windows.
use crate::figures::{OF_ONE, OF_TWO, WINDOWS};
use crate::reach::{reach_one, reach_other};
use monoid::Monoid;
use refusal::Refusal;
use rope::record::Record;
use shelf_promise::told;
use shelf_view::marked::Marked;
use text_shelf::named::MarkedShelf;
use zemor::matrix::Sl2;

/// The digits of two fingerprints.
pub(crate) type Digits = (&'static [u8; 32], &'static [u8; 32]);

/// Two documents, and their fingerprints, or the refusal's number.
pub(crate) type Compared = (u32, u32, Result<Digits, u8>);

/// A part of a document, a fingerprint, and the window, or the refusal's number.
pub(crate) type Window = (u32, usize, usize, &'static [u8], Result<&'static [u8], u8>);

/// Whether the answer is these fingerprints, or the refusal of this number.
pub(crate) fn are_told(answer: Result<(Sl2, Sl2), Refusal>, wanted: Result<Digits, u8>) -> bool {
    match (answer, wanted) {
        (Ok((x, y)), Ok((digits, others))) => x.to_hex() == *digits && y.to_hex() == *others,
        (Err(why), Err(number)) => why.number() == number,
        _ => false,
    }
}

/// The first two documents whose fingerprints are told otherwise.
fn unlike<'b, 'a, 'c, 'd>(
    one: &MarkedShelf<'b, 'a>,
    other: &MarkedShelf<'c, 'd>,
    table: &[Compared],
) -> Option<usize> {
    table.iter().position(|(d, e, wanted)| !are_told(
        told::fingerprints(one, *d, other, *e),
        *wanted,
    ))
}

/// Whether the window stands in a buffer of nines, whose other bytes are as they were; none where it is refused.
pub(crate) fn is_window(
    answer: Result<usize, Refusal>,
    out: &[u8],
    wanted: Result<&'static [u8], u8>,
) -> bool {
    let window = wanted.unwrap_or(b"");
    let told = match (answer, wanted) {
        (Ok(n), Ok(window)) => n == window.len(),
        (Err(why), Err(number)) => why.number() == number,
        _ => false,
    };
    told && out
        .strip_prefix(window)
        .is_some_and(|rest| rest.iter().all(|b| *b == 9))
}

/// Whether the window is told; and, where the part is lawful, not to a buffer of four bytes.
fn reads_back<'b, 'a>(shelf: &MarkedShelf<'b, 'a>, row: &Window) -> bool {
    let (d, a, b, digits, wanted) = *row;
    let (mut out, mut small) = ([9; 8], [9; 4]);
    let answer = told::read_back(shelf, d, a, b, digits, &mut out);
    let refused = told::read_back(shelf, d, a, b, digits, &mut small);
    let why = match wanted {
        Err(number) => number.min(8),
        Ok(_) => 8,
    };
    is_window(answer, &out, wanted) && is_window(refused, &small, Err(why))
}

/// The first window that is told otherwise.
fn unread<'b, 'a>(shelf: &MarkedShelf<'b, 'a>, table: &[Window]) -> Option<usize> {
    table.iter().position(|row| !reads_back(shelf, row))
}

#[test]
fn fingerprints_and_windows_are_told(rt: HostRuntime) {
    let (mut added, mut more) = ([0; 40], [0; 3]);
    let mut records = [Record::blank(Marked::empty().to_row()); 600];
    let mut others = records;
    let (mut places, mut other_places) = ([None; 9], [None; 4]);
    let one = reach_one(&rt, &mut added, &mut records, &mut places);
    let other = reach_other(&rt, &mut more, &mut others, &mut other_places);
    assert_eq!(rt; unlike(&one, &other, &OF_TWO), None);
    assert_eq!(rt; unlike(&one, &one, &OF_ONE), None);
    assert_eq!(rt; unread(&one, &WINDOWS), None);
}
