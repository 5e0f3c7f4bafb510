//! Peeling bit by bit.
ghost use Rattle.std.specs.Prelude.{◌≡◌, ◌+◌, ◌<◌, [], ◌∷◌, ◌++◌};
ghost use Rattle.zemor.specs.Peeling.{spelled, Peels, First, Tells};

use super::Bits;
use crate::matrix::{Entries, Sl2};
use monoid::Monoid;

/// The most bits whose product over whole numbers is surely below p.
const MOST_BITS: u32 = 45;

impl Bits {
    /// No bits.
    fn new() -> Bits
        ensures value { spelled result ≡ [] }
        ensures len { result.len ≡ 0 }
    {
        Bits { word: 0, len: 0 }
    }

    /// One bit more, at the end.
    fn push(self, bit: bool) -> Bits
        requires { self.len < 45 }
        ensures value { spelled result ≡ spelled self ++ (bit ∷ []) }
        ensures len { result.len ≡ self.len + 1 }
    {
        Bits {
            word: 2 * self.word + u64::from(bit),
            len: self.len + 1,
        }
    }
}

/// The first bit of every string whose product over whole numbers is m, with the product of the others.
fn first_bit(m: Entries) -> Option<(bool, Entries)>
    ensures { First m result }
{
    if m.c <= m.a && m.d <= m.b {
        let rest = Entries {
            a: m.a - m.c,
            b: m.b - m.d,
            ..m
        };
        Some((false, rest))
    } else if m.a <= m.c && m.b <= m.d {
        let rest = Entries {
            c: m.c - m.a,
            d: m.d - m.b,
            ..m
        };
        Some((true, rest))
    } else {
        None
    }
}

/// The one string of at most 45 bits whose product over whole numbers is m, or none.
fn peel_entries(m: Entries) -> Option<Bits>
    ensures { Peels m result }
{
    let mut left = m;
    let mut bits = Bits::new();
    while left != Entries::IDENTITY {
        if bits.len == MOST_BITS {
            return None;
        }
        let (bit, rest) = first_bit(left)?;
        bits = bits.push(bit);
        left = rest;
    }
    Some(bits)
}

/// The one string of at most 45 bits whose product is x, or none. Takes constant time.
pub fn peel(x: Sl2) -> Option<Bits>
    ensures { Tells x result }
{
    peel_entries(x.to_row())
}
