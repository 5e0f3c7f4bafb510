//! Windows, from what peeling tells.
ghost use Rattle.std.specs.Prelude.{◌≡◌, ◌/◌};
ghost use Rattle.zemor.specs.Bits.{digits_in};
ghost use Rattle.zemor.specs.Windows.{window_text, ReadBack, Windowed};

use super::Window;
use crate::matrix::Sl2;
use crate::peel::Bits;
use crate::peel::ops::peel;
use monoid::between;
use refusal::Refusal;

impl Window {
    /// The window's bytes. Takes constant time.
    pub fn as_slice(&self) -> &[u8]
        ensures { result.now ≡ window_text self.now }
    {
        &self.bytes[5 - self.len..]
    }
}

/// The bytes that at most forty bits spell, a whole number of bytes.
fn spelled_bytes(bits: Bits) -> Window
    ensures { window_text result ≡ digits_in 256 bits.word (bits.len / 8) }
{
    // forty bits fill the last five of the eight bytes
    let [_, _, _, a, b, c, d, e] = bits.word.to_be_bytes();
    Window {
        bytes: [a, b, c, d, e],
        len: bits.len as usize / 8,
    }
}

/// The one text of at most five bytes whose fingerprint is x, or none.
fn window(x: Sl2) -> Option<Window>
    ensures { Windowed x result }
{
    let bits = peel(x)?;
    if bits.len % 8 != 0 {
        return None;
    }
    Some(spelled_bytes(bits))
}

/// The one window of at most five bytes between two texts, told by the fingerprints of these and of the whole. Refused with
/// NO WINDOW exactly where none gives the whole that fingerprint. Takes constant time.
pub fn read_back(front: Sl2, whole: Sl2, back: Sl2) -> Result<Window, Refusal>
    ensures { ReadBack front back whole result }
{
    window(between(front, whole, back)).ok_or(Refusal::NoWindow)
}
