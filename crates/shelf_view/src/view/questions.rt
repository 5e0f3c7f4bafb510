//! Questions of every shelf.
ghost use Rattle.std.specs.Prelude.{◌≡◌, ◌-◌, length};
ghost use Rattle.monoid.specs.Monoid.{fold_of};
ghost use Rattle.refusal.specs.Refusals.{Answers};
ghost use Rattle.refusal.specs.Writing.{Writes};
ghost use Rattle.shelf_view.specs.State.{shown, strings_shown, part_at};
ghost use Rattle.shelf_view.specs.Questions.{of_part, of_copy};

use super::View;
use monoid::Monoid;
use refusal::Refusal;

// Questions that are named with all their arguments. The others are asked of the document or of the draft itself.
impl<'v, M: Monoid> View<'v, M> {
    /// The summary of the part `a` to `b` of document `d`. Refused as `part` is. Takes time in the height of the document.
    pub fn part_summary(&self, d: u32, a: usize, b: usize) -> Result<M, Refusal>
        ensures { Answers (of_part (strings_shown self.now) d a b) (λ v. v ≡ fold_of M.Monoid.model (part_at (strings_shown self.now) d a b)) result }
    {
        Ok(self.part(d, a, b)?.summary())
    }

    /// Writes the part `a` to `b` of document `d` at the start of `out` and leaves what lies behind; answers its length.
    /// Refused as `part` is, and then with SMALL BUFFER, `out` as it was, exactly where `out` is shorter. Takes time in
    /// the length of the part and the height of the document.
    pub fn copy(&self, d: u32, a: usize, b: usize, out: &mut [u8]) -> Result<usize, Refusal>
        ensures { Writes (of_copy (strings_shown self.now) d a b (b - a) (length out.old)) (part_at (strings_shown self.now) d a b) out.old out.new result }
    {
        self.part(d, a, b)?.copy(out)
    }

    /// How many records are used. Takes constant time.
    pub fn records_used(&self) -> usize
        ensures { result ≡ length (shown self.now).arena.records }
    {
        self.rope.records_used()
    }
}
