//! Calls that are values, and the token of the open draft.
ghost use Rattle.std.specs.Prelude.{◌≡◌, ◌↔◌, IsTrue};
ghost use Rattle.text_shelf.specs.Steps.{Steps};
ghost use Rattle.text_shelf.specs.Reaches.{token};
ghost use Rattle.text_shelf.specs.declared.call.Call.TheVariants.{Add, Seal, GiveUp};

use super::Shelf;
use crate::call::{Answer, Call};
use crate::draft::Draft;
use monoid::Monoid;
use refusal::Refusal;
use shelf_view::draft_id::DraftId;

/// Lets go of the draft that a refused call hands back.
fn refused(refusal: (Refusal, Draft)) -> Refusal
    ensures { result ≡ refusal.0 }
{
    let (why, back) = refusal;
    back.let_go();
    why
}

impl<'b, 'a, M: Monoid> Shelf<'b, 'a, M> {
    fn apply_add(&mut self, id: DraftId, text: &[u8]) -> Result<Answer, Refusal>
        ensures { Steps self.old (Add id text.entry) result self.new }
    {
        let draft = Draft { id };
        let added = draft.add(self, text);
        draft.let_go();
        added.map(|_| Answer::Done)
    }

    fn apply_seal(&mut self, id: DraftId) -> Result<Answer, Refusal>
        ensures { Steps self.old (Seal id) result self.new }
    {
        (Draft { id }).seal(self).map(Answer::Made).map_err(refused)
    }

    fn apply_give_up(&mut self, id: DraftId) -> Result<Answer, Refusal>
        ensures { Steps self.old (GiveUp id) result self.new }
    {
        (Draft { id })
            .give_up(self)
            .map(|_| Answer::Done)
            .map_err(refused)
    }

    /// Runs one call, through the method of its name. A call about a draft names it by any mark and count, so whoever runs it
    /// answers for the token.
    pub(crate) fn apply<'t>(&mut self, call: &Call<'t>) -> Result<Answer, Refusal>
        ensures { Steps self.old call.now result self.new }
    {
        match call {
            Call::Put(text) => self.put(text).map(Answer::Made),
            Call::Take { from, to } => self.take(*from, *to).map(Answer::Made),
            Call::Cut { document, from, to } => self.cut(*document, *from, *to).map(Answer::Made),
            Call::Splice {
                document,
                from,
                to,
                other,
            } => self.splice(*document, *from, *to, *other).map(Answer::Made),
            Call::Open => self.open().map(|draft| Answer::Opened(draft.let_go())),
            Call::Add { draft, text } => self.apply_add(*draft, text),
            Call::Seal(draft) => self.apply_seal(*draft),
            Call::GiveUp(draft) => self.apply_give_up(*draft),
        }
    }

    /// The name of the draft that was opened last.
    pub(super) fn last_draft(&self) -> DraftId
        ensures { result ≡ record { mark = self.now.mark; count = self.now.opened } }
    {
        DraftId {
            mark: self.mark,
            count: self.opened,
        }
    }

    /// Whether this is the token of the shelf's open draft, or none where none is open.
    pub(crate) fn is_token(&self, draft: &Option<Draft>) -> bool
        ensures { IsTrue result ↔ (draft.now ≡ token self.now) }
    {
        match (draft, self.draft) {
            (None, None) => true,
            (Some(draft), Some(_)) => draft.id == self.last_draft(),
            _ => false,
        }
    }

    /// The token of the shelf's open draft, where nobody else has it.
    pub(crate) fn token(&self) -> Option<Draft>
        ensures { result ≡ token self.now }
    {
        match self.draft {
            None => None,
            Some(_) => Some(Draft {
                id: self.last_draft(),
            }),
        }
    }
}
