//! Reading back what stands between two texts that are known by their fingerprints.
ghost use Rattle.std.specs.Prelude.{◌≤◌, ℕ, List, length, Ok, IfOk, IfErr};
ghost use Rattle.zemor.specs.Written.{ReadHex};
ghost use Rattle.zemor.specs.declared.matrix.Sl2.{Sl2};
ghost use Rattle.refusal.specs.Writing.{of_room};
ghost use Rattle.shelf_view.specs.Marked.{in_between, ReadsBack, Unread};

use refusal::{Refusal, write_start};
use zemor::matrix::Sl2;
use zemor::window::ops::read_back;

/// The fingerprint that `digits` write, where a window has room in `out`. So that these two refusals come before anything is
/// folded.
pub(crate) fn sought(digits: &[u8], out: &[u8]) -> Result<Sl2, Refusal>
    ensures found { IfOk result (λ x. (5 ≤ length out.now) × ReadHex digits.now (Ok x)) }
    ensures refused { IfErr result (λ e. (whole : List ℕ → Sl2) → Unread (of_room 5 (length out.now)) whole digits.now e) }
{
    if out.len() < 5 {
        return Err(Refusal::SmallBuffer);
    }
    Sl2::from_hex(digits)
}

/// The window that between `front` and `back` gives the fingerprint `whole`, written as `read_between` does.
pub(crate) fn write_between(
    front: Sl2,
    whole: Sl2,
    back: Sl2,
    out: &mut [u8],
) -> Result<usize, Refusal>
    requires { 5 ≤ length out.old }
    ensures { (digits : List ℕ) → ReadHex digits (Ok whole) → ReadsBack (of_room 5 (length out.old)) (in_between front back) digits out.old out.new result }
{
    let window = read_back(front, whole, back)?;
    write_start(window.as_slice(), out)
}

/// Looks for the window of at most five bytes that, between what has the fingerprints `front` and `back`, gives the
/// fingerprint that `digits` write. Writes it at the start of `out` and leaves what lies behind; answers its length.
/// Refused with SMALL BUFFER where `out` is shorter than five bytes, then with BAD FINGERPRINT where the digits are not well
/// formed, then with NO WINDOW exactly where no window gives the fingerprint; `out` is then as it was. Takes constant time.
pub fn read_between(front: Sl2, digits: &[u8], back: Sl2, out: &mut [u8]) -> Result<usize, Refusal>
    ensures { ReadsBack (of_room 5 (length out.old)) (in_between front back) digits.now out.old out.new result }
{
    let whole = sought(digits, out)?;
    write_between(front, whole, back, out)
}
