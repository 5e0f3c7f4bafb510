//! The calls, and what they make.
use crate::run::{Row, Step};
use crate::texts::{BUILD, FIRST, LONGER, NAMES, SECOND};

/// The part of a text between two places.
pub(crate) type Piece = (&'static [u8], usize, usize);

/// Every call that makes a document, and refusals of each.
pub(crate) static DOCUMENTS: [Row; 19] = [
    (Step::Put(NAMES), Ok(1)),
    (Step::Put(LONGER), Err(7)),
    (Step::Take(0, 309), Ok(2)),
    (Step::Take(0, 310), Err(6)),
    (Step::Take(12, 11), Err(6)),
    (Step::Take(40, 300), Ok(3)),
    (Step::Cut(2, 50, 290), Ok(4)),
    (Step::Cut(12, 0, 0), Err(5)),
    (Step::Cut(2, 0, 310), Err(6)),
    (Step::Cut(2, 9, 8), Err(6)),
    (Step::Splice(2, 100, 131, 1), Ok(5)),
    (Step::Splice(5, 0, 0, 4), Ok(6)),
    (Step::Splice(6, 657, 657, 3), Ok(7)),
    (Step::Splice(1, 5, 10, 11), Err(5)),
    (Step::Splice(12, 0, 0, 1), Err(5)),
    (Step::Splice(1, 10, 5, 1), Err(6)),
    (Step::Splice(1, 0, 140, 1), Err(6)),
    (Step::Cut(7, 200, 800), Ok(8)),
    (Step::Splice(8, 10, 590, 0), Ok(9)),
];

/// A draft is opened and lengthened.
pub(crate) static BEGIN: [Row; 5] = [
    (Step::Open, Ok(0)),
    (Step::Open, Err(4)),
    (Step::Add(FIRST), Ok(0)),
    (Step::Add(LONGER), Err(7)),
    (Step::Add(SECOND), Ok(0)),
];

/// It is sealed. The next one is given up, and its bytes stay used.
pub(crate) static SEAL: [Row; 6] = [
    (Step::Seal, Ok(10)),
    (Step::Open, Ok(0)),
    (Step::Add(FIRST), Ok(0)),
    (Step::Add(SECOND), Err(11)),
    (Step::GiveUp, Ok(0)),
    (Step::Put(SECOND), Err(11)),
];

/// The last place is taken.
pub(crate) static LAST: [Row; 8] = [
    (Step::Put(b""), Ok(11)),
    (Step::Put(b""), Err(13)),
    (Step::Take(0, 1), Err(13)),
    (Step::Cut(1, 0, 1), Err(13)),
    (Step::Splice(1, 0, 0, 1), Err(13)),
    (Step::Open, Ok(0)),
    (Step::Seal, Err(13)),
    (Step::GiveUp, Ok(0)),
];

/// The draft's text before its seal.
pub(crate) static DRAFT: &[Piece] = &[(FIRST, 0, 101), (SECOND, 0, 75)];

/// Each document's text, as pieces of the texts that were brought, one behind the other.
pub(crate) static TEXTS: [&[Piece]; 12] = [
    &[],
    &[(NAMES, 0, 139)],
    &[(BUILD, 0, 309)],
    &[(BUILD, 40, 300)],
    &[(BUILD, 50, 290)],
    &[(BUILD, 0, 100), (NAMES, 0, 139), (BUILD, 131, 309)],
    &[
        (BUILD, 50, 290),
        (BUILD, 0, 100),
        (NAMES, 0, 139),
        (BUILD, 131, 309),
    ],
    &[
        (BUILD, 50, 290),
        (BUILD, 0, 100),
        (NAMES, 0, 139),
        (BUILD, 131, 309),
        (BUILD, 40, 300),
    ],
    &[
        (BUILD, 250, 290),
        (BUILD, 0, 100),
        (NAMES, 0, 139),
        (BUILD, 131, 309),
        (BUILD, 40, 183),
    ],
    &[(BUILD, 250, 260), (BUILD, 173, 183)],
    &[(FIRST, 0, 101), (SECOND, 0, 75)],
    &[],
];

/// Lawful parts: a document and two places.
pub(crate) static PARTS: [(u32, usize, usize); 8] = [
    (0, 0, 0),
    (1, 30, 120),
    (2, 63, 65),
    (5, 90, 260),
    (6, 200, 600),
    (7, 1, 916),
    (8, 599, 600),
    (10, 64, 140),
];

/// Parts, and bytes, that are not lawful: a document, two places, and the refusal's number.
pub(crate) static NO_PARTS: [(u32, usize, usize, u8); 5] = [
    (12, 1, 0, 5),
    (u32::MAX, 0, 0, 5),
    (0, 0, 1, 6),
    (7, 5, 4, 6),
    (7, usize::MAX, usize::MAX, 6),
];

/// On a shelf with no memory for texts and records, and one place.
pub(crate) static BARE: [Row; 9] = [
    (Step::Put(b"x"), Err(11)),
    (Step::Take(0, 1), Err(12)),
    (Step::Cut(0, 0, 0), Err(12)),
    (Step::Splice(0, 0, 0, 0), Err(12)),
    (Step::Take(0, 0), Ok(1)),
    (Step::Put(b""), Err(13)),
    (Step::Open, Ok(0)),
    (Step::Add(b""), Err(12)),
    (Step::Seal, Err(13)),
];

/// Of a draft of another shelf.
pub(crate) static STRANGE: [Row; 3] = [
    (Step::Add(LONGER), Err(3)),
    (Step::Seal, Err(3)),
    (Step::GiveUp, Err(3)),
];

pub(crate) static OPEN_AND_END: [Row; 2] = [(Step::Open, Ok(0)), (Step::GiveUp, Ok(0))];

pub(crate) static GIVE_UP: [Row; 1] = [(Step::GiveUp, Ok(0))];
