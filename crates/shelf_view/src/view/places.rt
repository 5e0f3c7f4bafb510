//! The doors of a view: documents, the open draft, and parts.
ghost use Rattle.refusal.specs.Refusals.{Answers};
ghost use Rattle.shelf_view.specs.State.{shown, strings_shown};
ghost use Rattle.shelf_view.specs.Questions.{of_document, of_draft, of_part};
ghost use Rattle.shelf_view.specs.Places.{Lies, IsDocument, IsDraft, IsPart};

use super::View;
use crate::draft_id::DraftId;
use monoid::Monoid;
use refusal::Refusal;
use rope::record::Root;
use rope_read::text::Text;
use rope_read::whole::Whole;

impl<'v, M: Monoid> View<'v, M> {
    /// The root of document `d`.
    fn root(&self, d: u32) -> Result<Root, Refusal>
        ensures { Answers (of_document (strings_shown self.now) d) (Lies M.Monoid.model (shown self.now) d) result }
    {
        match d.checked_sub(1) {
            None => Ok(None),
            Some(i) => self
                .roots
                .get(i as usize)
                .copied()
                .ok_or(Refusal::NoDocument),
        }
    }

    /// Document `d`, whole: it tells its length, height and summary, and gives its text. Refused with NO DOCUMENT exactly where
    /// `d` names none. Takes constant time.
    pub fn document(&self, d: u32) -> Result<Whole<'v, M>, Refusal>
        ensures { Answers (of_document (strings_shown self.now) d) (IsDocument M.Monoid.model (shown self.now) d) result }
    {
        Ok(Whole::new(self.rope, self.root(d)?))
    }

    /// The open draft, whole. Refused with STRANGE DRAFT exactly where no draft of this name is open. Takes constant time.
    pub fn draft(&self, id: DraftId) -> Result<Whole<'v, M>, Refusal>
        ensures { Answers (of_draft (strings_shown self.now) self.now.mark id) (IsDraft M.Monoid.model (shown self.now)) result }
    {
        let open = DraftId {
            mark: self.mark,
            count: self.opened,
        };
        let root = self
            .draft
            .filter(|_| id == open)
            .ok_or(Refusal::StrangeDraft)?;
        Ok(Whole::new(self.rope, root))
    }

    /// The part `a` to `b` of document `d`. Refused with NO DOCUMENT, and then with BAD PART exactly where a ≤ b ≤ length does
    /// not hold. Takes constant time.
    pub fn part(&self, d: u32, a: usize, b: usize) -> Result<Text<'v, M>, Refusal>
        ensures { Answers (of_part (strings_shown self.now) d a b) (IsPart M.Monoid.model (shown self.now) d a b) result }
    {
        self.document(d)?.text().part(a, b)
    }
}
