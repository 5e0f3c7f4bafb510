//! Calls about drafts.
ghost use Rattle.text_shelf.specs.Steps.{Steps, started, done, sealed, ended, Back};
ghost use Rattle.text_shelf.specs.declared.call.Call.TheVariants.{Open, Add, Seal, GiveUp};

use super::Shelf;
use crate::draft::Draft;
use monoid::Monoid;
use refusal::Refusal;
use refusal::limits::MOST_DRAFTS;
use rope_keep::lengthen;

impl<'b, 'a, M: Monoid> Shelf<'b, 'a, M> {
    /// Starts an empty draft, and answers its token. Refused with DRAFT OPEN while one is open, and after 4,294,967,295 drafts.
    /// Takes constant time.
    pub fn open(&mut self) -> Result<Draft, Refusal>
        ensures { Steps self.old Open (started result) self.new }
    {
        if self.draft.is_some() || self.opened == MOST_DRAFTS {
            return Err(Refusal::DraftOpen);
        }
        self.draft = Some(None);
        self.opened += 1;
        Ok(Draft {
            id: self.last_draft(),
        })
    }
}

impl Draft {
    /// Lengthens the draft at its end by `text`. Refused, in this order: STRANGE DRAFT where it is not the one that is open on
    /// this shelf, TOO LONG where the text has more than 4,096 bytes or the draft would have more than 1,048,576, TEXT FULL,
    /// RECORDS SHORT (the needs of a new text and of an edit of the draft). Takes time in the length of the text and the height
    /// of the draft.
    pub fn add<'b, 'a, M: Monoid>(
        &self,
        shelf: &mut Shelf<'b, 'a, M>,
        text: &[u8],
    ) -> Result<(), Refusal>
        ensures { Steps shelf.old (Add self.now.id text.entry) (done result) shelf.new }
    {
        let root = shelf.draft_to_add(self.id, text)?;
        shelf.draft = Some(lengthen(&mut shelf.store, root, text));
        Ok(())
    }

    /// Appends the draft's text as a document, and answers its number. Refused with STRANGE DRAFT, and then with NUMBERS SPENT;
    /// the draft is then handed back. Takes constant time.
    pub fn seal<'b, 'a, M: Monoid>(
        self,
        shelf: &mut Shelf<'b, 'a, M>,
    ) -> Result<u32, (Refusal, Draft)>
        ensures step { Steps shelf.old (Seal self.id) (sealed result) shelf.new }
        ensures back { Back self result }
    {
        match shelf.draft_to_seal(self.id) {
            Err(why) => Err((why, self)),
            Ok(root) => {
                self.let_go();
                shelf.draft = None;
                Ok(shelf.places.push(root) as u32)
            }
        }
    }

    /// Ends the draft with no document; its added bytes stay used. Refused with STRANGE DRAFT, and the draft is then handed back.
    /// Takes constant time.
    pub fn give_up<'b, 'a, M: Monoid>(
        self,
        shelf: &mut Shelf<'b, 'a, M>,
    ) -> Result<(), (Refusal, Draft)>
        ensures step { Steps shelf.old (GiveUp self.id) (ended result) shelf.new }
        ensures back { Back self result }
    {
        match shelf.draft_to_end(self.id) {
            Err(why) => Err((why, self)),
            Ok(_) => {
                self.let_go();
                shelf.draft = None;
                Ok(())
            }
        }
    }
}
