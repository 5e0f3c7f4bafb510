//! The promise, whole, on one call.
use crate::figures::{DIGITS_1, DIGITS_3, DIGITS_6, DIGITS_OTHER_3};
use crate::marks::{Digits, are_told, is_window};
use crate::reach::{reach_one, reach_other};
use crate::summaries::{All, Figures, is_told};
use monoid::Monoid;
use rope::record::Record;
use shelf_promise::promise::{Asked, DocumentPart, Replies, ask};
use shelf_view::marked::Marked;
use text_shelf::named::MarkedShelf;
use text_shelf::shelf::Shelf;

/// The summaries of a document and of its part, two fingerprints, and a window; of each a refusal's number.
type Wanted = (
    Result<Figures, u8>,
    Result<Figures, u8>,
    Result<Digits, u8>,
    Result<&'static [u8], u8>,
);

/// What is asked, with which fingerprint, and what is told.
type Row = (Asked, &'static [u8], Wanted);

/// Of the one shelf over every monoid, and of the marked ones.
static OF_TWO: [Row; 2] = [
    (
        Asked {
            part: DocumentPart {
                document: 6,
                from: 40,
                to: 90,
            },
            window: DocumentPart {
                document: 3,
                from: 46,
                to: 50,
            },
            other: 1,
        },
        DIGITS_1,
        (
            Ok((DIGITS_6, 9, 14, 1620787783, 996497972, 2081357974)),
            Ok((
                b"2113e02476d467061ab7266b0e2c6e00",
                3,
                24,
                118469598,
                937186357,
                21478616,
            )),
            Ok((DIGITS_3, DIGITS_3)),
            Ok(b"8080"),
        ),
    ),
    (
        Asked {
            part: DocumentPart {
                document: 10,
                from: 0,
                to: 0,
            },
            window: DocumentPart {
                document: 3,
                from: 50,
                to: 46,
            },
            other: 5,
        },
        b"",
        (Err(5), Err(5), Err(5), Err(6)),
    ),
];

/// And where the two marked ones are one.
static OF_ONE: [Row; 1] = [(
    Asked {
        part: DocumentPart {
            document: 6,
            from: 90,
            to: 40,
        },
        window: DocumentPart {
            document: 1,
            from: 46,
            to: 50,
        },
        other: 3,
    },
    DIGITS_OTHER_3,
    (
        Ok((DIGITS_6, 9, 14, 1620787783, 996497972, 2081357974)),
        Err(6),
        Ok((DIGITS_1, DIGITS_3)),
        Ok(b"808"),
    ),
)];

/// Whether each question of the row is answered so.
fn keeps<'b, 'a, 'c, 'd, 'e, 'f>(
    shelf: &Shelf<'b, 'a, All>,
    one: &MarkedShelf<'c, 'd>,
    other: &MarkedShelf<'e, 'f>,
    row: &Row,
) -> bool {
    let (asked, digits, wanted) = *row;
    let (whole, piece, marks, back) = wanted;
    let mut out = [9; 8];
    let Replies {
        summary,
        part,
        fingerprints,
        window,
    } = ask(shelf, one, other, asked, digits, &mut out);
    is_told(summary, whole)
        && is_told(part, piece)
        && are_told(fingerprints, marks)
        && is_window(window, &out, back)
}

/// The first row that is answered otherwise.
fn broken<'b, 'a, 'c, 'd, 'e, 'f>(
    shelf: &Shelf<'b, 'a, All>,
    one: &MarkedShelf<'c, 'd>,
    other: &MarkedShelf<'e, 'f>,
    table: &[Row],
) -> Option<usize> {
    table.iter().position(|row| !keeps(shelf, one, other, row))
}

#[test]
fn the_promise_is_asked(rt: HostRuntime) {
    let (mut added, mut records, mut places) = (
        [0; 40],
        [Record::blank(All::empty().to_row()); 600],
        [None; 9],
    );
    let shelf: Shelf<All> = reach_one(&rt, &mut added, &mut records, &mut places);
    let (mut added, mut records, mut places) = (
        [0; 40],
        [Record::blank(Marked::empty().to_row()); 600],
        [None; 9],
    );
    let (mut more, mut others, mut other_places) = ([0; 3], records, [None; 4]);
    let one: MarkedShelf = reach_one(&rt, &mut added, &mut records, &mut places);
    let other: MarkedShelf = reach_other(&rt, &mut more, &mut others, &mut other_places);
    assert_eq!(rt; broken(&shelf, &one, &other, &OF_TWO), None);
    assert_eq!(rt; broken(&shelf, &one, &one, &OF_ONE), None);
}
