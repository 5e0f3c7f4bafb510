//! Every call and every question.
use crate::ask::{ask, ask_draft, ask_strange};
use crate::figures::Wanted;
use crate::kind::Kind;
use crate::run::{Row, run};
use crate::steps::{BARE, BEGIN, DOCUMENTS, GIVE_UP, LAST, OPEN_AND_END, SEAL, STRANGE};
use shelf_view::draft_id::DraftId;
use std::process::Abort;
use text_shelf::draft::Draft;
use text_shelf::shelf::Shelf;

/// The held draft's name.
fn id_of(rt: &impl Abort, held: &Option<Draft>) -> DraftId {
    match held {
        Some(draft) => draft.id(),
        None => panic!(rt; "no draft is held"),
    }
}

/// No draft is left.
fn none_left(rt: &impl Abort, held: Option<Draft>) {
    match held {
        None => (),
        Some(_draft) => panic!(rt; "a draft is left"),
    }
}

/// A draft, on a shelf where it is strange.
fn misuse<'b, 'a, K: Kind>(
    rt: &impl Abort,
    shelf: &mut Shelf<'b, 'a, K>,
    held: Option<Draft>,
) -> Option<Draft> {
    ask_strange(rt, shelf.view(), id_of(rt, &held));
    run(rt, shelf, held, &STRANGE)
}

/// The held draft on another shelf, and one of that shelf's on `shelf`. On the other shelf no draft is open at first, and
/// then one is.
fn exchange<'b, 'a, K: Kind>(
    rt: &impl Abort,
    shelf: &mut Shelf<'b, 'a, K>,
    held: Option<Draft>,
    mark: u32,
    earlier: &[Row],
) -> Option<Draft> {
    let mut places = [None];
    let mut other: Shelf<K> = Shelf::new(b"b", &mut [], &mut [], &mut places, mark);
    let none = run(rt, &mut other, None, earlier);
    let held = misuse(rt, &mut other, held);
    let theirs = run(rt, &mut other, none, &BARE);
    let held = misuse(rt, &mut other, held);
    let theirs = misuse(rt, shelf, theirs);
    none_left(rt, run(rt, &mut other, theirs, &GIVE_UP));
    held
}

/// Every call and question on a fresh shelf with mark 7, the build text, 490 bytes for added text and 11 places. Its first
/// draft has count 1: another shelf's has that count and another mark, or its mark and another count.
pub(crate) fn every<'b, 'a, K: Kind>(
    rt: &impl Abort,
    shelf: &mut Shelf<'b, 'a, K>,
    wanted: &Wanted<'_, K::Figures>,
) {
    let none = run(rt, shelf, None, &DOCUMENTS);
    let held = run(rt, shelf, none, &BEGIN);
    let held = exchange(rt, shelf, held, 8, &[]);
    let held = exchange(rt, shelf, held, 7, &OPEN_AND_END);
    let id = id_of(rt, &held);
    ask_draft(rt, shelf.view(), id, &wanted.draft);
    let none = run(rt, shelf, held, &SEAL);
    ask_strange(rt, shelf.view(), id);
    none_left(rt, run(rt, shelf, none, &LAST));
    ask(rt, shelf.view(), wanted);
}
