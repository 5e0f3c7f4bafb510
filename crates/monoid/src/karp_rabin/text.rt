//! Karp and Rabin's fingerprint of a text.
ghost use Rattle.std.specs.Prelude.{◌≡◌, ◌%◌, ◌^◌, length};
ghost use Rattle.residue.specs.Residue.{prime};
ghost use Rattle.monoid.specs.Monoid.{fold_of};
ghost use Rattle.monoid.specs.KarpRabin.{polynomial as polynomial_of};
ghost use Rattle.monoid.specs.KarpRabinValues.{karp_rabin_model};

use super::KarpRabin;
use crate::fold::fold;

/// The fingerprint of a text. Modulo p, h is the sum of each byte plus 1, times 16807 for each byte behind it, and w is
/// 16807 to the power of the text's length in bytes; v is the inverse of w. Takes time in the length of the text.
pub fn fingerprint(text: &[u8]) -> KarpRabin
    ensures value { result ≡ fold_of karp_rabin_model text.now }
    ensures polynomial { result.h.n ≡ polynomial_of text.now % prime }
    ensures power { result.w.n ≡ 16807 ^ length text.now % prime }
{
    fold(text)
}
