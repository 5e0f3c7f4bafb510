//! Tables of calls, each accepted or refused with a number. A table names drafts by any mark and count, so it is run where
//! tokens are made: on a fresh shelf by `replay`, and on one that is there by `resume`.
use monoid::Monoid;
use refusal::Refusal;
use rope::record::{Record, Root};
use shelf_view::draft_id::DraftId;
use std::process::Abort;
use text_shelf::call::{Answer, Call};
use text_shelf::draft::Draft;
use text_shelf::replay::{Outcome, Resumption, replay, resume};
use text_shelf::shelf::Shelf;

pub(crate) type Row = (Call<'static>, Result<(), u8>);

pub(crate) fn take(from: usize, to: usize) -> Call<'static> {
    Call::Take { from, to }
}

pub(crate) fn cut(document: u32, from: usize, to: usize) -> Call<'static> {
    Call::Cut { document, from, to }
}

pub(crate) fn splice(document: u32, from: usize, to: usize, other: u32) -> Call<'static> {
    Call::Splice {
        document,
        from,
        to,
        other,
    }
}

pub(crate) fn add(draft: DraftId, text: &'static [u8]) -> Call<'static> {
    Call::Add { draft, text }
}

/// The most rows of a table.
const MOST: usize = 32;

/// No answer yet, for as many calls.
pub(crate) const UNANSWERED: [Result<Answer, Refusal>; MOST] = [Err(Refusal::BadCall); MOST];

/// The table's calls, and calls behind them that are not made.
fn calls_of(table: &[Row]) -> [Call<'static>; MOST] {
    let mut calls = [Call::Open; MOST];
    for (i, (call, _)) in table.iter().enumerate() {
        // whoever calls this has seen that there are no more
        if i < MOST {
            calls[i] = *call;
        }
    }
    calls
}

/// The first row that is answered otherwise, of calls that were made.
fn first_other(table: &[Row], answers: &[Result<Answer, Refusal>]) -> Option<usize> {
    table.iter().zip(answers).position(|((_, wanted), answer)| answer
        .map(|_| ())
        .map_err(Refusal::number)
        != *wanted)
}

/// Gives the draft up that is left open, if one is.
pub(crate) fn end<'b, 'a, M: Monoid>(
    rt: &impl Abort,
    shelf: &mut Shelf<'b, 'a, M>,
    draft: Option<Draft>,
) {
    let Some(draft) = draft else {
        return;
    };
    match draft.give_up(shelf) {
        Ok(()) => (),
        Err((_why, _draft)) => panic!(rt; "the draft is not the shelf's"),
    }
}

/// Makes the calls in order on a fresh shelf, and gives the row of the first that is answered otherwise.
pub(crate) fn first_wrong<'b, 'a, M: Monoid>(
    rt: &impl Abort,
    build: &'b [u8],
    added: &'a mut [u8],
    records: &'a mut [Record<M::Row>],
    places: &'a mut [Root],
    mark: u32,
    table: &[Row],
) -> Option<usize> {
    let mut answers = UNANSWERED;
    let n = table.len();
    assert!(rt; n <= MOST);
    let calls = calls_of(table);
    let outcome: Outcome<M> = replay(
        build,
        added,
        records,
        places,
        mark,
        &calls[0..n],
        &mut answers,
    );
    let Outcome {
        mut shelf,
        draft,
        calls,
    } = outcome;
    end(rt, &mut shelf, draft);
    assert_eq!(rt; calls, n);
    first_other(table, &answers)
}

/// Makes the calls in order on a shelf with no open draft, and gives the row of the first that is answered otherwise.
pub(crate) fn first_wrong_on<'b, 'a, M: Monoid>(
    rt: &impl Abort,
    shelf: &mut Shelf<'b, 'a, M>,
    table: &[Row],
) -> Option<usize> {
    let mut answers = UNANSWERED;
    let n = table.len();
    assert!(rt; n <= MOST);
    let calls = calls_of(table);
    match resume(shelf, None, &calls[0..n], &mut answers) {
        Err((_why, draft)) => {
            end(rt, shelf, draft);
            panic!(rt; "a draft is open")
        }
        Ok(Resumption { draft, calls }) => {
            end(rt, shelf, draft);
            assert_eq!(rt; calls, n);
            first_other(table, &answers)
        }
    }
}
