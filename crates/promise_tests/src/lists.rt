//! The lists of calls, each with its answer, or its refusal's number.
use crate::texts::LONGER;
use shelf_view::draft_id::DraftId;
use text_shelf::call::{Answer, Call};

/// A call and its answer.
pub(crate) type Row = (Call<'static>, Result<Answer, u8>);

/// The first draft of the shelf of mark 7.
const FIRST: DraftId = DraftId { mark: 7, count: 1 };

/// Its second, and its third.
const SECOND: DraftId = DraftId { mark: 7, count: 2 };

const THIRD: DraftId = DraftId { mark: 7, count: 3 };

/// A draft of another shelf.
const STRANGE: DraftId = DraftId { mark: 8, count: 1 };

/// The first draft of the shelf of mark 9.
const OTHER: DraftId = DraftId { mark: 9, count: 1 };

/// On a fresh shelf of mark 7. A draft is open at the end.
pub(crate) static BEGIN: [Row; 12] = [
    (Call::Take { from: 0, to: 136 }, Ok(Answer::Made(1))),
    (
        Call::Cut {
            document: 2,
            from: 0,
            to: 0,
        },
        Err(5),
    ),
    (Call::Put(b"8081"), Ok(Answer::Made(2))),
    (
        Call::Splice {
            document: 1,
            from: 46,
            to: 50,
            other: 2,
        },
        Ok(Answer::Made(3)),
    ),
    (
        Call::Splice {
            document: 1,
            from: 46,
            to: 50,
            other: 4,
        },
        Err(5),
    ),
    (Call::Take { from: 5, to: 4 }, Err(6)),
    (Call::Open, Ok(Answer::Opened(FIRST))),
    (Call::Open, Err(4)),
    (
        Call::Add {
            draft: FIRST,
            text: b"retries = 5\n",
        },
        Ok(Answer::Done),
    ),
    (
        Call::Add {
            draft: SECOND,
            text: b"x",
        },
        Err(3),
    ),
    (Call::Seal(STRANGE), Err(3)),
    (Call::GiveUp(THIRD), Err(3)),
];

/// On that shelf, with its draft. 40 bytes of added text and nine places are brought in all, and a draft is open at the end.
pub(crate) static GO_ON: [Row; 18] = [
    (
        Call::Add {
            draft: FIRST,
            text: b"[more]\n",
        },
        Ok(Answer::Done),
    ),
    (
        Call::Splice {
            document: 3,
            from: 46,
            to: 50,
            other: 0,
        },
        Ok(Answer::Made(4)),
    ),
    (Call::Seal(FIRST), Ok(Answer::Made(5))),
    (Call::Seal(FIRST), Err(3)),
    (
        Call::Splice {
            document: 4,
            from: 46,
            to: 46,
            other: 5,
        },
        Ok(Answer::Made(6)),
    ),
    (Call::Put(LONGER), Err(7)),
    (
        Call::Cut {
            document: 6,
            from: 10,
            to: 152,
        },
        Err(6),
    ),
    (Call::Open, Ok(Answer::Opened(SECOND))),
    (
        Call::Add {
            draft: SECOND,
            text: b"lost",
        },
        Ok(Answer::Done),
    ),
    (Call::GiveUp(SECOND), Ok(Answer::Done)),
    // of the 40 bytes, 27 are used
    (Call::Put(b"fourteen bytes"), Err(11)),
    (
        Call::Cut {
            document: 3,
            from: 0,
            to: 50,
        },
        Ok(Answer::Made(7)),
    ),
    (
        Call::Cut {
            document: 3,
            from: 50,
            to: 136,
        },
        Ok(Answer::Made(8)),
    ),
    (
        Call::Splice {
            document: 7,
            from: 50,
            to: 50,
            other: 8,
        },
        Ok(Answer::Made(9)),
    ),
    (Call::Put(b""), Err(13)),
    (
        Call::Cut {
            document: 9,
            from: 0,
            to: 1,
        },
        Err(13),
    ),
    (Call::Open, Ok(Answer::Opened(THIRD))),
    (Call::Seal(THIRD), Err(13)),
];

/// On a fresh shelf of mark 9.
pub(crate) static OTHER_BEGIN: [Row; 3] = [
    (Call::Take { from: 0, to: 136 }, Ok(Answer::Made(1))),
    (Call::Open, Ok(Answer::Opened(OTHER))),
    (Call::Put(b"808"), Ok(Answer::Made(2))),
];

/// On that shelf, with its draft.
pub(crate) static OTHER_GO_ON: [Row; 4] = [
    (
        Call::Splice {
            document: 1,
            from: 46,
            to: 50,
            other: 2,
        },
        Ok(Answer::Made(3)),
    ),
    (
        Call::Cut {
            document: 1,
            from: 0,
            to: 137,
        },
        Err(6),
    ),
    (Call::Seal(OTHER), Ok(Answer::Made(4))),
    (Call::GiveUp(OTHER), Err(3)),
];

/// On a fresh shelf of mark 7 with no memory but one place.
pub(crate) static BARE: [Row; 5] = [
    (Call::Put(b"x"), Err(11)),
    (Call::Take { from: 0, to: 1 }, Err(12)),
    (
        Call::Cut {
            document: 0,
            from: 0,
            to: 0,
        },
        Err(12),
    ),
    (Call::Take { from: 1, to: 1 }, Ok(Answer::Made(1))),
    (Call::Put(b""), Err(13)),
];
