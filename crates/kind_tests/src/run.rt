//! Making calls by the shelf's methods, with the draft that a test holds.
use monoid::Monoid;
use refusal::Refusal;
use rope_read::whole::Whole;
use std::process::Abort;
use text_shelf::draft::Draft;
use text_shelf::shelf::Shelf;

/// A call. One about a draft is about the draft that is held.
#[derive(Clone, Copy)]
pub(crate) enum Step {
    Put(&'static [u8]),
    Take(usize, usize),
    Cut(u32, usize, usize),
    Splice(u32, usize, usize, u32),
    Open,
    Add(&'static [u8]),
    Seal,
    GiveUp,
}

/// A call, and the number that it answers, 0 where it answers none, or its refusal's.
pub(crate) type Row = (Step, Result<u32, u8>);

/// What a call answers, and the draft that is held afterwards.
type Held = (Result<u32, Refusal>, Option<Draft>);

fn open<'b, 'a, M: Monoid>(
    rt: &impl Abort,
    shelf: &mut Shelf<'b, 'a, M>,
    held: Option<Draft>,
) -> Held {
    match (shelf.open(), held) {
        (Err(why), held) => (Err(why), held),
        (Ok(draft), None) => (Ok(0), Some(draft)),
        (Ok(_draft), Some(_held)) => panic!(rt; "two drafts are held"),
    }
}

fn add<'b, 'a, M: Monoid>(shelf: &mut Shelf<'b, 'a, M>, draft: Draft, text: &[u8]) -> Held {
    let added = draft.add(shelf, text);
    (added.map(|_| 0), Some(draft))
}

fn seal<'b, 'a, M: Monoid>(shelf: &mut Shelf<'b, 'a, M>, draft: Draft) -> Held {
    match draft.seal(shelf) {
        Ok(d) => (Ok(d), None),
        Err((why, draft)) => (Err(why), Some(draft)),
    }
}

fn give_up<'b, 'a, M: Monoid>(shelf: &mut Shelf<'b, 'a, M>, draft: Draft) -> Held {
    match draft.give_up(shelf) {
        Ok(()) => (Ok(0), None),
        Err((why, draft)) => (Err(why), Some(draft)),
    }
}

fn make<'b, 'a, M: Monoid>(
    rt: &impl Abort,
    shelf: &mut Shelf<'b, 'a, M>,
    held: Option<Draft>,
    step: Step,
) -> Held {
    match (step, held) {
        (Step::Put(text), held) => (shelf.put(text), held),
        (Step::Take(from, to), held) => (shelf.take(from, to), held),
        (Step::Cut(d, from, to), held) => (shelf.cut(d, from, to), held),
        (Step::Splice(d, from, to, other), held) => (shelf.splice(d, from, to, other), held),
        (Step::Open, held) => open(rt, shelf, held),
        (Step::Add(text), Some(draft)) => add(shelf, draft, text),
        (Step::Seal, Some(draft)) => seal(shelf, draft),
        (Step::GiveUp, Some(draft)) => give_up(shelf, draft),
        (_, None) => panic!(rt; "no draft is held"),
    }
}

/// The records that a new text of `n` bytes may take.
fn text_need(n: usize) -> usize {
    n.div_ceil(64).saturating_mul(2)
}

/// The records that an edit of a text may take; none where there is no such text.
fn edit_need<'v, M: Monoid>(text: Result<Whole<'v, M>, Refusal>) -> usize {
    text.map_or(0, |whole| 32 * (whole.height() as usize + 1))
}

/// The records that a call may take.
fn need<'b, 'a, M: Monoid>(shelf: &Shelf<'b, 'a, M>, held: &Option<Draft>, step: Step) -> usize {
    let view = shelf.view();
    match (step, held) {
        (Step::Put(text), _) => text_need(text.len()),
        (Step::Take(from, to), _) => text_need(to.saturating_sub(from)),
        (Step::Cut(d, _, _), _) => edit_need(view.document(d)),
        (Step::Splice(d, _, _, other), _) => {
            edit_need(view.document(d)).max(edit_need(view.document(other)))
        }
        (Step::Add(text), Some(draft)) => {
            text_need(text.len()).saturating_add(edit_need(view.draft(draft.id())))
        }
        _ => 0,
    }
}

/// Makes the calls in order, each answered as its row says. An accepted one takes no more records than its need, a
/// refused one none. Gives the draft that is held afterwards.
pub(crate) fn run<'b, 'a, M: Monoid>(
    rt: &impl Abort,
    shelf: &mut Shelf<'b, 'a, M>,
    held: Option<Draft>,
    rows: &[Row],
) -> Option<Draft> {
    let mut held = held;
    for (i, (step, wanted)) in rows.iter().enumerate() {
        let most = need(shelf, &held, *step);
        let before = shelf.view().records_used();
        let (answer, after) = make(rt, shelf, held, *step);
        held = after;
        assert_eq!(rt; answer.map_err(Refusal::number), *wanted, "call {i}");
        let taken = shelf.view().records_used().checked_sub(before);
        let few = taken.is_some_and(|n| n <= if answer.is_ok() { most } else { 0 });
        assert!(rt; few, "records of call {i}");
    }
    held
}
