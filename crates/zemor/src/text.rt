//! The fingerprint of a text, and what is promised of it.
ghost use Rattle.std.specs.Prelude.{◌≡◌, ℕ, true, List};
ghost use Rattle.monoid.specs.Monoid.{fold_of, all_bytes};
ghost use Rattle.zemor.specs.Bits.{product_of, text_bits};
ghost use Rattle.zemor.specs.Values.{sl2, row};
ghost use Rattle.zemor.specs.Slips.{Slip, Exactly, SlipsShow};
ghost use Rattle.zemor.specs.Whole.{Bounded, Attained, Apart, Edge};
ghost use Rattle.zemor.specs.Figures.{Figures};

use crate::matrix::Sl2;
use monoid::fold::fold;

/// The fingerprint of a text: the product of its bits modulo p, the highest bit of each byte first.
///
/// Slips always show: with no more than a slip between them, of at most 45 bits in each, two texts have the same
/// fingerprint exactly where they are the same text. Takes time in the length of the text.
pub fn fingerprint(text: &[u8]) -> Sl2
    ensures value { result ≡ fold_of sl2 text.now }
    ensures bits { row result ≡ product_of (text_bits text.now) }
    ensures slips { (other : List ℕ) → all_bytes other ≡ true → Slip text.now other → Exactly (result ≡ fold_of sl2 other) (text.now ≡ other) }
{
    fold(text)
}

/// What holds of products of bits: their bound, that it is reached, that they tell their string, and that slips always
/// show. It does nothing.
pub fn products_stand()
    ensures bounded { Bounded }
    ensures attained { Attained }
    ensures apart { Apart }
    ensures edge { Edge }
    ensures slips { SlipsShow }
{}

/// Worked figures, from the definitions. It does nothing.
pub fn figures_stand()
    ensures { Figures }
{}
