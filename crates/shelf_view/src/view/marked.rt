//! Questions of marked shelves.
ghost use Rattle.std.specs.Prelude.{◌≡◌, length};
ghost use Rattle.refusal.specs.Refusals.{Answers};
ghost use Rattle.rope_read.specs.Texts.{bytes_in};
ghost use Rattle.shelf_view.specs.State.{strings_shown};
ghost use Rattle.shelf_view.specs.Questions.{of_same};
ghost use Rattle.shelf_view.specs.Marked.{Compares, ComparesIn, ReadsBackIn};

use super::View;
use crate::marked::Marked;
use crate::sameness::Sameness;
use crate::window::{sought, write_between};
use refusal::Refusal;
use rope_read::text::Text;

/// Compares two texts of equal length by their fingerprints.
fn compare<'v>(one: Text<'v, Marked>, other: Text<'v, Marked>) -> Sameness
    requires { length (bytes_in one) ≡ length (bytes_in other) }
    ensures { Compares (length (bytes_in one.entry)) (bytes_in one.entry) (bytes_in other.entry) result }
{
    if !one.summary().first.equals(other.summary().first) {
        Sameness::Different
    } else if one.len() <= 5 {
        Sameness::Equal
    } else {
        Sameness::Alike
    }
}

impl<'v> View<'v, Marked> {
    /// Compares the `n` bytes from `a` in document `d` with the `n` bytes from `b` in document `e`, by their fingerprints.
    /// Refused with NO DOCUMENT for either number, and then with BAD PART for either part, also where its end fits no number.
    /// Takes time in the heights of the documents.
    pub fn same(&self, d: u32, a: usize, e: u32, b: usize, n: usize) -> Result<Sameness, Refusal>
        ensures { Answers (of_same (strings_shown self.now) d a e b n) (ComparesIn (strings_shown self.now) d a e b n) result }
    {
        let one = self.document(d)?;
        let other = self.document(e)?;
        let x = one.text().bytes(a, n)?;
        let y = other.text().bytes(b, n)?;
        Ok(compare(x, y))
    }

    /// Looks for the window of at most five bytes that, in the place of the part `a` to `b` of document `d`, gives the
    /// text of `d` the fingerprint that 32 digits write. Writes it at the start of `out` and leaves what lies behind; answers
    /// its length. Refused as `part` is, then with SMALL BUFFER where `out` is shorter than five bytes, with BAD
    /// FINGERPRINT where the digits are not well formed, and with NO WINDOW exactly where no window gives the fingerprint; `out`
    /// is then as it was. Takes time in the height of the document.
    pub fn read_back(
        &self,
        d: u32,
        a: usize,
        b: usize,
        fingerprint: &[u8],
        out: &mut [u8],
    ) -> Result<usize, Refusal>
        ensures { ReadsBackIn (strings_shown self.now) d a b fingerprint.now out.old out.new result }
    {
        let (front, back) = self.document(d)?.text().around(a, b)?;
        let whole = sought(fingerprint, out)?;
        let (front, back) = (front.summary().first, back.summary().first);
        write_between(front, whole, back, out)
    }
}
