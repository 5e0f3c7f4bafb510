//! Calls that make documents.
ghost use Rattle.text_shelf.specs.Steps.{Steps, made};
ghost use Rattle.text_shelf.specs.declared.call.Call.TheVariants.{Put, Take, Cut, Splice};

use super::Shelf;
use monoid::Monoid;
use refusal::Refusal;
use rope_cut::{cut, splice};
use rope_keep::{keep, take_part};

impl<'b, 'a, M: Monoid> Shelf<'b, 'a, M> {
    /// Appends `text` as a document, and answers its number. Refused, in this order: TOO LONG where it has more than 4,096
    /// bytes, TEXT FULL where the memory for added text has no room for it, RECORDS SHORT where fewer records are free than
    /// its need (two for each 64 bytes), NUMBERS SPENT where no place is free. Takes time in the length of the text.
    pub fn put(&mut self, text: &[u8]) -> Result<u32, Refusal>
        ensures { Steps self.old (Put text.entry) (made result) self.new }
    {
        self.check_put(text)?;
        let root = keep(&mut self.store, text);
        Ok(self.places.push(root) as u32)
    }

    /// Appends the part `from` to `to` of the build text as a document, and answers its number. Refused, in this order: BAD
    /// PART, TOO LONG where the part has more than 1,048,576 bytes, RECORDS SHORT (a need of two for each 64 bytes), NUMBERS
    /// SPENT. Takes time in the length of the part.
    pub fn take(&mut self, from: usize, to: usize) -> Result<u32, Refusal>
        ensures { Steps self.old (Take from to) (made result) self.new }
    {
        self.check_take(from, to)?;
        let root = take_part(&mut self.store, from as u32, (to - from) as u32);
        Ok(self.places.push(root) as u32)
    }

    /// Appends the part `from` to `to` of document `d`, and answers the new document's number. Refused, in this order: NO
    /// DOCUMENT, BAD PART, RECORDS SHORT (a need of 32 for each level of `d` and one more), NUMBERS SPENT. Takes time in the
    /// height of `d`.
    pub fn cut(&mut self, d: u32, from: usize, to: usize) -> Result<u32, Refusal>
        ensures { Steps self.old (Cut d from to) (made result) self.new }
    {
        let part = self.cut_part(d, from, to)?;
        let root = cut(&mut self.store, part.root, part.from, part.to);
        Ok(self.places.push(root) as u32)
    }

    /// Appends document `d` with its part `from` to `to` replaced by the whole of document `other`, and answers the new
    /// document's number. Refused, in this order: NO DOCUMENT for either number, BAD PART, TOO LONG where the new document would
    /// have more than 1,048,576 bytes, RECORDS SHORT (a need of 32 for each level of the higher one and one more), NUMBERS SPENT.
    /// Takes time in the heights of both.
    pub fn splice(&mut self, d: u32, from: usize, to: usize, other: u32) -> Result<u32, Refusal>
        ensures { Steps self.old (Splice d from to other) (made result) self.new }
    {
        let (part, more) = self.splice_parts(d, from, to, other)?;
        let root = splice(&mut self.store, part.root, part.from, part.to, more);
        Ok(self.places.push(root) as u32)
    }
}
