//! The reasons to refuse each call: they only read, so a refused call has written nothing.
ghost use Rattle.std.specs.Prelude.{◌≡◌, ◌≤◌, ⊤};
ghost use Rattle.refusal.specs.declared.limits.TheConstants.{MOST_TEXT};
ghost use Rattle.refusal.specs.Refusals.{Answers};
ghost use Rattle.shelf_view.specs.Places.{Drafts};
ghost use Rattle.rope_cut.specs.Parts;
ghost use Rattle.rope_keep.specs.Kept;
ghost use Rattle.text_shelf.specs.Shelves.{parts, shelved};
ghost use Rattle.text_shelf.specs.Spans.{Spans, SpliceSpans};
ghost use Rattle.text_shelf.specs.Calls.{bytes, records, place, memory, new_document, longer};
ghost use Rattle.text_shelf.specs.Whys.{why};
ghost use Rattle.text_shelf.specs.Steps.{reason_on};
ghost use Rattle.text_shelf.specs.Calls.{every_shelf};
ghost use Rattle.text_shelf.specs.declared.call.Call.TheVariants.{Put, Take, Cut, Splice, Add, Seal, GiveUp};

use super::Shelf;
use monoid::Monoid;
use refusal::Refusal;
use refusal::limits::{MOST_BROUGHT, MOST_TEXT};
use rope::record::Root;
use rope_read::text::Span;
use shelf_view::draft_id::DraftId;

/// The records that a new text of `n` bytes may take.
fn text_need(n: usize) -> usize
    ensures { result ≡ Kept.text_need n }
{
    2 * n.div_ceil(64)
}

/// The records that an edit of texts at most `high` may take.
fn edit_need(high: u8) -> usize
    ensures { result ≡ Parts.edit_need high }
{
    32 * (high as usize + 1)
}

impl<'b, 'a, M: Monoid> Shelf<'b, 'a, M> {
    /// Refuses where there is no memory for `n` added bytes more.
    fn bytes_for(&self, n: usize) -> Result<(), Refusal>
        ensures { Answers (why (bytes n) self.now) (λ x. ⊤) result }
    {
        if n > self.store.free_bytes() {
            return Err(Refusal::TextFull);
        }
        Ok(())
    }

    /// Refuses where fewer than `need` records are free.
    fn records_for(&self, need: usize) -> Result<(), Refusal>
        ensures { Answers (why (records need) self.now) (λ x. ⊤) result }
    {
        if self.store.free_records() < need {
            return Err(Refusal::RecordsShort);
        }
        Ok(())
    }

    /// Refuses where every place is taken.
    fn place_for_one(&self) -> Result<(), Refusal>
        ensures { Answers (why place self.now) (λ x. ⊤) result }
    {
        if self.places.room() == 0 {
            return Err(Refusal::NumbersSpent);
        }
        Ok(())
    }

    /// Refuses where there is no memory for a new document that may take `need` records.
    fn memory_for(&self, need: usize) -> Result<(), Refusal>
        ensures { Answers (why (memory need) self.now) (λ x. ⊤) result }
    {
        self.records_for(need)?;
        self.place_for_one()
    }

    /// Refuses where `len` bytes are too many for a document, or where there is no memory for one that may take `need` records.
    fn check_new_document(&self, len: usize, need: usize) -> Result<(), Refusal>
        ensures { Answers (why (new_document len need) self.now) (λ x. ⊤) result }
    {
        if len > MOST_TEXT {
            return Err(Refusal::TooLong);
        }
        self.memory_for(need)
    }

    pub(super) fn check_put(&self, text: &[u8]) -> Result<(), Refusal>
        ensures { Answers (reason_on every_shelf self.now (Put text.entry)) (λ x. ⊤) result }
    {
        let n = text.len();
        if n > MOST_BROUGHT {
            return Err(Refusal::TooLong);
        }
        self.bytes_for(n)?;
        self.memory_for(text_need(n))
    }

    pub(super) fn check_take(&self, from: usize, to: usize) -> Result<(), Refusal>
        ensures { Answers (reason_on every_shelf self.now (Take from to)) (λ x. ⊤) result }
    {
        if from > to || to > self.store.build_len() {
            return Err(Refusal::BadPart);
        }
        let n = to - from;
        self.check_new_document(n, text_need(n))
    }

    /// The part to cut, or why there is none.
    pub(super) fn cut_part(&self, d: u32, from: usize, to: usize) -> Result<Span, Refusal>
        ensures { Answers (reason_on every_shelf self.now (Cut d from to)) (Spans M.Monoid.model (shelved (parts self.now)) d from to) result }
    {
        let whole = self.view().document(d)?;
        let part = whole.text().part(from, to)?;
        self.memory_for(edit_need(whole.height()))?;
        Ok(part.span())
    }

    /// The part to replace and the root to put there, or why there are none.
    pub(super) fn splice_parts(
        &self,
        d: u32,
        from: usize,
        to: usize,
        other: u32,
    ) -> Result<(Span, Root), Refusal>
        ensures { Answers (reason_on every_shelf self.now (Splice d from to other)) (SpliceSpans M.Monoid.model (shelved (parts self.now)) d from to other) result }
    {
        let view = self.view();
        let whole = view.document(d)?;
        let more = view.document(other)?;
        let part = whole.text().part(from, to)?;
        let len = whole.len() - part.len() + more.len();
        let high = whole.height().max(more.height());
        self.check_new_document(len, edit_need(high))?;
        Ok((part.span(), more.root()))
    }

    /// The root of the draft to lengthen by `text`, or why there is none.
    pub(super) fn draft_to_add(&self, id: DraftId, text: &[u8]) -> Result<Root, Refusal>
        ensures { Answers (reason_on every_shelf self.now (Add id text.entry)) (Drafts M.Monoid.model (shelved (parts self.now))) result }
    {
        let whole = self.view().draft(id)?;
        self.memory_for_more(text.len(), whole.len(), whole.height())?;
        Ok(whole.root())
    }

    /// Refuses where a draft of `len` bytes, `high` high, is not lengthened by `n` bytes.
    fn memory_for_more(&self, n: usize, len: usize, high: u8) -> Result<(), Refusal>
        requires { len ≤ MOST_TEXT }
        ensures { Answers (why (longer n len high) self.now) (λ x. ⊤) result }
    {
        if n > MOST_BROUGHT || len + n > MOST_TEXT {
            return Err(Refusal::TooLong);
        }
        self.bytes_for(n)?;
        self.records_for(text_need(n) + edit_need(high))
    }

    /// The root of the draft to seal, or why there is none.
    pub(super) fn draft_to_seal(&self, id: DraftId) -> Result<Root, Refusal>
        ensures { Answers (reason_on every_shelf self.now (Seal id)) (Drafts M.Monoid.model (shelved (parts self.now))) result }
    {
        let root = self.draft_to_end(id)?;
        self.place_for_one()?;
        Ok(root)
    }

    /// The root of the draft to end, or why there is none.
    pub(super) fn draft_to_end(&self, id: DraftId) -> Result<Root, Refusal>
        ensures { Answers (reason_on every_shelf self.now (GiveUp id)) (Drafts M.Monoid.model (shelved (parts self.now))) result }
    {
        Ok(self.view().draft(id)?.root())
    }
}
