//! Lists of calls: how many are run, and whose draft goes on.
use crate::calls::{UNANSWERED, end};
use crate::memory::LINE;
use refusal::Refusal;
use rope::record::Record;
use shelf_view::draft_id::DraftId;
use std::process::Abort;
use text_shelf::call::{Answer, Call};
use text_shelf::draft::Draft;
use text_shelf::named::PlainShelf;
use text_shelf::replay::{Outcome, Resumption, replay, resume};
use text_shelf::shelf::Shelf;

/// The name of a draft that is open, if one is.
fn id_of(draft: &Option<Draft>) -> Option<DraftId> {
    draft.as_ref().map(Draft::id)
}

/// How many bytes a document has.
fn len_of<'b, 'a>(shelf: &PlainShelf<'b, 'a>, d: u32) -> Result<usize, Refusal> {
    Ok(shelf.view().document(d)?.len())
}

const CALLS: [Call<'static>; 3] = [Call::Take { from: 0, to: 1 }, Call::Open, Call::Put(b"")];

// As many calls are run as there are places for answers; places behind the calls stay.
#[test]
fn so_many_are_run(rt: HostRuntime) {
    let mut records = [Record::blank(LINE); 2];
    let mut places = [None; 2];
    let mut answers = UNANSWERED;
    let outcome = replay(
        b"a",
        &mut [],
        &mut records,
        &mut places,
        7,
        &CALLS,
        &mut answers[0..2],
    );
    let Outcome {
        mut shelf,
        draft,
        calls,
    } = outcome;
    let shelf: &mut PlainShelf = &mut shelf;
    assert_eq!(rt; id_of(&draft), Some(DraftId { mark: 7, count: 1 }));
    assert_eq!(rt; calls, 2);
    assert!(rt; matches!(answers[0], Ok(Answer::Made(1))));
    assert!(rt;
        matches!(
            answers[1],
            Ok(Answer::Opened(DraftId { mark: 7, count: 1 }))
        )
    );
    assert!(rt; matches!(answers[2], Err(Refusal::BadCall)));
    assert_eq!(rt; len_of(shelf, 2), Err(Refusal::NoDocument));
    end(&rt, shelf, draft);
}

/// How many calls were run on a shelf, or the refusal's number, and the token that is held then.
fn resumed<'b, 'a>(
    shelf: &mut PlainShelf<'b, 'a>,
    draft: Option<Draft>,
    calls: &[Call<'static>],
) -> (Result<usize, u8>, Option<Draft>) {
    match resume(shelf, draft, calls, &mut UNANSWERED) {
        Ok(Resumption { draft, calls }) => (Ok(calls), draft),
        Err((why, draft)) => (Err(why.number()), draft),
    }
}

/// The draft is not this shelf's: it is handed back, and no call is run.
fn refuse<'b, 'a>(
    rt: &impl Abort,
    shelf: &mut PlainShelf<'b, 'a>,
    draft: Option<Draft>,
) -> Option<Draft> {
    let id = id_of(&draft);
    let (run, back) = resumed(shelf, draft, &[Call::Put(b"")]);
    assert_eq!(rt; run, Err(3));
    assert_eq!(rt; id_of(&back), id);
    assert_eq!(rt; len_of(shelf, 1), Err(Refusal::NoDocument));
    back
}

/// The draft of this name of another shelf, opened there after earlier calls, which this shelf hands back as it came.
fn refuse_of<'b, 'a>(
    rt: &impl Abort,
    shelf: &mut PlainShelf<'b, 'a>,
    id: DraftId,
    earlier: &[Call<'static>],
) {
    let mut other: PlainShelf = Shelf::new(b"", &mut [], &mut [], &mut [], id.mark);
    let (_, none) = resumed(&mut other, None, earlier);
    end(rt, &mut other, none);
    let (_, theirs) = resumed(&mut other, None, &[Call::Open]);
    assert_eq!(rt; id_of(&theirs), Some(id));
    let theirs = refuse(rt, shelf, theirs);
    end(rt, &mut other, theirs);
}

const OWN: DraftId = DraftId { mark: 7, count: 1 };

const OTHER_MARK: DraftId = DraftId { mark: 8, count: 1 };

const OTHER_COUNT: DraftId = DraftId { mark: 7, count: 2 };

// Calls go on with the open draft's token alone, and with none where no draft is open. Even a draft of the same name is
// refused where none is open.
#[test]
fn the_open_draft_goes_on(rt: HostRuntime) {
    let mut added = [0; 1];
    let mut records = [Record::blank(LINE); 34];
    let mut places = [None; 2];
    let mut shelf: PlainShelf = Shelf::new(b"", &mut added, &mut records, &mut places, 7);
    refuse_of(&rt, &mut shelf, OWN, &[]);
    let (run, held) = resumed(&mut shelf, None, &[Call::Open]);
    assert_eq!(rt; run, Ok(1));
    refuse_of(&rt, &mut shelf, OTHER_MARK, &[]);
    refuse_of(
        &rt,
        &mut shelf,
        OTHER_COUNT,
        &[Call::Open, Call::GiveUp(OWN)],
    );
    let none = refuse(&rt, &mut shelf, None);
    end(&rt, &mut shelf, none);
    let add = Call::Add {
        draft: OWN,
        text: b"x",
    };
    let (run, none) = resumed(&mut shelf, held, &[add, Call::Seal(OWN)]);
    assert_eq!(rt; run, Ok(2));
    assert_eq!(rt; len_of(&shelf, 1), Ok(1));
    assert_eq!(rt; id_of(&none), None);
    end(&rt, &mut shelf, none);
}
