//! Reaching a shelf by two lists of calls.
use crate::lists::{BEGIN, GO_ON, OTHER_BEGIN, OTHER_GO_ON, Row};
use crate::texts::{BUILD, OTHER_BUILD};
use monoid::Monoid;
use refusal::Refusal;
use rope::record::{Record, Root};
use std::process::Abort;
use text_shelf::call::{Answer, Call};
use text_shelf::draft::Draft;
use text_shelf::replay::{Outcome, Resumption, replay, resume};
use text_shelf::shelf::Shelf;

/// Memory for a shelf.
pub(crate) struct Lent<'b, 'a, R> {
    pub(crate) build: &'b [u8],
    pub(crate) added: &'a mut [u8],
    pub(crate) records: &'a mut [Record<R>],
    pub(crate) places: &'a mut [Root],
    pub(crate) mark: u32,
}

fn is_answer(answer: &Result<Answer, Refusal>, wanted: &Result<Answer, u8>) -> bool {
    match (answer, wanted) {
        (Ok(Answer::Made(d)), Ok(Answer::Made(e))) => d == e,
        (Ok(Answer::Opened(id)), Ok(Answer::Opened(other))) => id == other,
        (Ok(Answer::Done), Ok(Answer::Done)) => true,
        (Err(why), Err(number)) => why.number() == *number,
        _ => false,
    }
}

/// Each call was made, and answered as its row says.
fn check(rt: &impl Abort, rows: &[Row], answers: &[Result<Answer, Refusal>], calls: usize) {
    assert_eq!(rt; calls, rows.len());
    for (i, ((_, wanted), answer)) in rows.iter().zip(answers).enumerate() {
        assert!(rt; is_answer(answer, wanted), "call {i}");
    }
}

/// The most calls of a list.
const MOST: usize = 18;

/// No answer yet, for as many calls.
const UNANSWERED: [Result<Answer, Refusal>; MOST] = [Err(Refusal::BadCall); MOST];

/// The calls, and calls behind them that are not made.
fn calls_of(rows: &[Row]) -> [Call<'static>; MOST] {
    let mut calls = [Call::Open; MOST];
    for (i, (call, _)) in rows.iter().enumerate() {
        // whoever calls this has seen that there are no more
        if i < MOST {
            calls[i] = *call;
        }
    }
    calls
}

/// The shelf that the calls reach on a fresh one, and its draft.
pub(crate) fn begin<'b, 'a, M: Monoid>(
    rt: &impl Abort,
    lent: Lent<'b, 'a, M::Row>,
    rows: &[Row],
) -> (Shelf<'b, 'a, M>, Option<Draft>) {
    let Lent {
        build,
        added,
        records,
        places,
        mark,
    } = lent;
    let n = rows.len();
    assert!(rt; n <= MOST);
    let calls = calls_of(rows);
    let mut answers = UNANSWERED;
    let outcome = replay(
        build,
        added,
        records,
        places,
        mark,
        &calls[0..n],
        &mut answers,
    );
    let Outcome {
        shelf,
        draft,
        calls,
    } = outcome;
    check(rt, rows, &answers, calls);
    (shelf, draft)
}

/// The calls go on, on a shelf with its draft; the draft that is open at the end is given up.
pub(crate) fn go_on<'b, 'a, M: Monoid>(
    rt: &impl Abort,
    shelf: &mut Shelf<'b, 'a, M>,
    draft: Option<Draft>,
    rows: &[Row],
) {
    let n = rows.len();
    assert!(rt; n <= MOST);
    let calls = calls_of(rows);
    let mut answers = UNANSWERED;
    match resume(shelf, draft, &calls[0..n], &mut answers) {
        Err((_why, draft)) => {
            end(rt, shelf, draft);
            panic!(rt; "the draft is not the shelf's")
        }
        Ok(Resumption { draft, calls }) => {
            end(rt, shelf, draft);
            check(rt, rows, &answers, calls);
        }
    }
}

/// The shelf that a list of calls reaches, and the calls that go on behind it.
fn reach<'b, 'a, M: Monoid>(
    rt: &impl Abort,
    lent: Lent<'b, 'a, M::Row>,
    rows: &[Row],
    more: &[Row],
) -> Shelf<'b, 'a, M> {
    let (mut shelf, draft) = begin(rt, lent, rows);
    go_on(rt, &mut shelf, draft, more);
    shelf
}

/// The one shelf, of mark 7.
pub(crate) fn reach_one<'a, M: Monoid>(
    rt: &impl Abort,
    added: &'a mut [u8],
    records: &'a mut [Record<M::Row>],
    places: &'a mut [Root],
) -> Shelf<'static, 'a, M> {
    let lent = Lent {
        build: BUILD,
        added,
        records,
        places,
        mark: 7,
    };
    reach(rt, lent, &BEGIN, &GO_ON)
}

/// The other shelf, of mark 9.
pub(crate) fn reach_other<'a, M: Monoid>(
    rt: &impl Abort,
    added: &'a mut [u8],
    records: &'a mut [Record<M::Row>],
    places: &'a mut [Root],
) -> Shelf<'static, 'a, M> {
    let lent = Lent {
        build: OTHER_BUILD,
        added,
        records,
        places,
        mark: 9,
    };
    reach(rt, lent, &OTHER_BEGIN, &OTHER_GO_ON)
}

/// Gives the draft up that is left open, if one is.
pub(crate) fn end<'b, 'a, M: Monoid>(
    rt: &impl Abort,
    shelf: &mut Shelf<'b, 'a, M>,
    draft: Option<Draft>,
) {
    let Some(draft) = draft else {
        return;
    };
    match draft.give_up(shelf) {
        Ok(()) => (),
        Err((_why, _draft)) => panic!(rt; "the draft is not the shelf's"),
    }
}
