//! The fold of a text, for every monoid.
ghost use Rattle.std.specs.Prelude.{◌≡◌, ℕ, true, List, ◌++◌};
ghost use Rattle.monoid.specs.Monoid.{fold_of, all_bytes};

use crate::Monoid;

/// The value of a text: from the empty value on, one byte's value after the other is joined behind. It goes by stretches of
/// five bytes, which a monoid may know a shorter way for. Takes time in the length of the text.
pub fn fold<M: Monoid>(text: &[u8]) -> M
    ensures value { result ≡ fold_of M.Monoid.model text.now }
    ensures parts { (u v : List ℕ) → text.now ≡ u ++ v → result ≡ M.Monoid.model.joined (fold_of M.Monoid.model u) (fold_of M.Monoid.model v) }
    ensures bytes { all_bytes text.now ≡ true }
{
    let mut sum = M::empty();
    let mut rest = text;
    while let Some((stretch, more)) = rest.split_first_chunk::<5>() {
        sum = sum.join(M::of_stretch(stretch));
        rest = more;
    }
    sum.lengthened(rest)
}
