//! Calls made by hand: what each answers, and what is told of the shelf.
use crate::reach::end;
use crate::summaries::{All, Figures, is_told};
use crate::texts::LONGER;
use monoid::Monoid;
use refusal::Refusal;
use rope::record::Record;
use shelf_promise::by_hand::{Made, by_hand};
use shelf_promise::told;
use shelf_view::draft_id::DraftId;
use std::process::Abort;

/// So much memory, the text, and what the add, the put and the seal answer; and what documents 1 and 2 are.
type Case = (Memory, &'static [u8], Answers, Told);

/// Bytes for added text, records and places.
type Memory = (usize, usize, usize);

type Answers = (Result<(), u8>, Result<u32, u8>, Result<u32, u8>);

type Told = (Result<Figures, u8>, Result<Figures, u8>);

const NONE: Figures = (b"00000001000000000000000000000001", 0, 0, 0, 1, 1);

const TEXT: Figures = (
    b"2377c2b6447461f07f61666967d49a38",
    1,
    0,
    1633863436,
    1457850878,
    640558412,
);

static CASES: [Case; 6] = [
    (
        (16, 600, 2),
        b"by hand\n",
        (Ok(()), Ok(1), Ok(2)),
        (Ok(TEXT), Ok(TEXT)),
    ),
    // the put finds no memory, and then no place, and the seal none
    (
        (15, 600, 2),
        b"by hand\n",
        (Ok(()), Err(11), Ok(1)),
        (Ok(TEXT), Err(5)),
    ),
    (
        (16, 600, 1),
        b"by hand\n",
        (Ok(()), Ok(1), Err(13)),
        (Ok(TEXT), Err(5)),
    ),
    (
        (16, 600, 0),
        b"by hand\n",
        (Ok(()), Err(13), Err(13)),
        (Err(5), Err(5)),
    ),
    (
        (16, 0, 2),
        b"by hand\n",
        (Err(12), Err(12), Ok(1)),
        (Ok(NONE), Err(5)),
    ),
    (
        (16, 600, 2),
        LONGER,
        (Err(7), Err(7), Ok(1)),
        (Ok(NONE), Err(5)),
    ),
];

fn check(rt: &impl Abort, case: &Case) {
    let ((bytes, count, numbers), text, (add, put, seal), (first, second)) = *case;
    let mut added = [0; 16];
    let mut records = [Record::blank(All::empty().to_row()); 600];
    let mut places = [None; 2];
    let made: Made<All> = by_hand(
        b"",
        &mut added[0..bytes.min(16)],
        &mut records[0..count.min(600)],
        &mut places[0..numbers.min(2)],
        7,
        text,
    );
    let Made {
        mut shelf,
        opened,
        added,
        put: done,
        cut,
        sealed,
    } = made;
    assert_eq!(rt; opened, DraftId { mark: 7, count: 1 });
    assert_eq!(rt; added.map_err(Refusal::number), add);
    assert_eq!(rt; done.map_err(Refusal::number), put);
    assert_eq!(rt; cut, Err(Refusal::NoDocument));
    let answer = match sealed {
        Ok(d) => Ok(d),
        Err((why, draft)) => {
            assert_eq!(rt; draft.id(), opened);
            end(rt, &mut shelf, Some(draft));
            Err(why.number())
        }
    };
    assert_eq!(rt; answer, seal);
    assert!(rt; is_told(told::summary(&shelf, 1), first));
    assert!(rt; is_told(told::summary(&shelf, 2), second));
}

#[test]
fn calls_are_made_by_hand(rt: HostRuntime) {
    for case in &CASES {
        check(&rt, case);
    }
}
