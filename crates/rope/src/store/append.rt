//! Added text.
ghost use Rattle.std.specs.Prelude.{length};
ghost use Rattle.rope.specs.Steps.{Addable, Appended};

use super::Store;
use monoid::Monoid;

impl<'b, 'a, M: Monoid> Store<'b, 'a, M> {
    /// Writes `text` behind the added text, and tells the place where it begins. Takes time in its length.
    pub fn append(&mut self, text: &[u8]) -> usize
        requires { Addable self.old (length text.now) }
        ensures { Appended self.old self.new result text.now }
    {
        self.added.extend_from_slice(text)
    }
}
