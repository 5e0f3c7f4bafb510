//! Lists of calls, run one behind the other.
ghost use Rattle.text_shelf.specs.Calls.{every_shelf};
ghost use Rattle.text_shelf.specs.Reaches.{RunInOrder, Replayed, Resumed};

use crate::call::{Answer, Call};
use crate::draft::Draft;
use crate::shelf::Shelf;
use monoid::Monoid;
use refusal::Refusal;
use rope::record::{Record, Root};

/// What a list of calls on a fresh shelf leaves.
pub struct Outcome<'b, 'a, M: Monoid> {
    pub shelf: Shelf<'b, 'a, M>,
    /// The token of the draft that is open at the end.
    pub draft: Option<Draft>,
    /// How many of the calls were run.
    pub calls: usize,
}

/// What more calls on a shelf leave.
pub struct Resumption {
    /// The token of the draft that is open at the end.
    pub draft: Option<Draft>,
    /// How many of the calls were run.
    pub calls: usize,
}

/// Runs as many of the calls as there are places for answers, writes the answer of each at its place, and tells how many.
fn run<'b, 'a, 't, M: Monoid>(
    shelf: &mut Shelf<'b, 'a, M>,
    calls: &[Call<'t>],
    answers: &mut [Result<Answer, Refusal>],
) -> usize
    ensures { RunInOrder every_shelf shelf.old shelf.new calls.now result answers.old answers.new }
{
    let n = calls.len().min(answers.len());
    for i in 0..n {
        answers[i] = shelf.apply(&calls[i]);
    }
    n
}

/// Runs calls in order on a fresh shelf, each on what the one before left, and gives the shelf, with the token of the draft
/// that is then open. The memory is lent as to `Shelf::new`. As many of the calls are run as there are places for answers; the
/// answer of each is written at its place, and what lies behind stays. A call about a draft names it by any mark and count.
///
/// Each call takes the time of the public call of its name.
pub fn replay<'b, 'a, 't, M: Monoid>(
    build: &'b [u8],
    added: &'a mut [u8],
    records: &'a mut [Record<M::Row>],
    places: &'a mut [Root],
    mark: u32,
    calls: &[Call<'t>],
    answers: &mut [Result<Answer, Refusal>],
) -> Outcome<'b, 'a, M>
    ensures { Replayed every_shelf build.now added.old records.old places.old mark calls.now answers.old answers.new result }
{
    let mut shelf = Shelf::new(build, added, records, places, mark);
    let calls = run(&mut shelf, calls, answers);
    let draft = shelf.token();
    Outcome {
        shelf,
        draft,
        calls,
    }
}

/// Runs calls in order on a shelf whose open draft is brought, or none where none is open, as `replay` does on a fresh one,
/// and gives the token of the draft that is then open. Refused with STRANGE DRAFT where what is brought is not the shelf's
/// open draft; it is then handed back, and nothing is done. Each call takes the time of the public call of its name.
pub fn resume<'b, 'a, 't, M: Monoid>(
    shelf: &mut Shelf<'b, 'a, M>,
    draft: Option<Draft>,
    calls: &[Call<'t>],
    answers: &mut [Result<Answer, Refusal>],
) -> Result<Resumption, (Refusal, Option<Draft>)>
    ensures { Resumed every_shelf shelf.old draft calls.now answers.old shelf.new answers.new result }
{
    if !shelf.is_token(&draft) {
        return Err((Refusal::StrangeDraft, draft));
    }
    if let Some(draft) = draft {
        draft.let_go();
    }
    let calls = run(shelf, calls, answers);
    Ok(Resumption {
        draft: shelf.token(),
        calls,
    })
}
