//! Zémor's fingerprint as a monoid, and as a group.
ghost use Rattle.std.specs.Prelude.{◌≡◌, MatchBool};
ghost use Rattle.zemor.specs.Values.{sl2, inverse_of};
ghost use Rattle.zemor.specs.Laws;

use super::{Entries, Sl2, stretch, table};
use monoid::{Group, Monoid};
use residue::{Residue, dot, dot_any};

impl Monoid for Sl2 {
    type Row = Entries;

    ghost model = { sl2 };

    ghost lawful = { Laws.lawful };

    fn empty() -> Sl2 {
        Sl2 {
            a: Residue::ONE,
            b: Residue::ZERO,
            c: Residue::ZERO,
            d: Residue::ONE,
        }
    }

    fn of_byte(byte: u8) -> Sl2 {
        table::of_byte(byte)
    }

    fn of_stretch(stretch: &[u8; 5]) -> Sl2 {
        stretch::of_stretch(stretch)
    }

    fn join(self, other: Sl2) -> Sl2 {
        Sl2 {
            a: dot(self.a, self.b, other.a, other.c),
            b: dot(self.a, self.b, other.b, other.d),
            c: dot(self.c, self.d, other.a, other.c),
            d: dot(self.c, self.d, other.b, other.d),
        }
    }

    fn to_row(self) -> Entries {
        Entries {
            a: self.a.get(),
            b: self.b.get(),
            c: self.c.get(),
            d: self.d.get(),
        }
    }

    fn check_row(row: Entries) -> Option<Sl2> {
        let a = Residue::try_from(row.a).ok()?;
        let b = Residue::try_from(row.b).ok()?;
        let c = Residue::try_from(row.c).ok()?;
        let d = Residue::try_from(row.d).ok()?;
        if a * d != b.multiply_add(c, Residue::ONE) {
            return None;
        }
        Some(Sl2 { a, b, c, d })
    }

    // Nothing is tested, and each entry is reduced once.
    fn join_rows(left: Entries, right: Entries) -> Entries {
        Entries {
            a: dot_any(left.a, left.b, right.a, right.c).get(),
            b: dot_any(left.a, left.b, right.b, right.d).get(),
            c: dot_any(left.c, left.d, right.a, right.c).get(),
            d: dot_any(left.c, left.d, right.b, right.d).get(),
        }
    }
}

impl Group for Sl2 {
    ghost inverted = { inverse_of };

    ghost inverts = { Laws.inverts };

    fn inverse(self) -> Sl2 {
        Sl2 {
            a: self.d,
            b: -self.b,
            c: -self.c,
            d: self.a,
        }
    }
}

impl Sl2 {
    /// Whether two values are equal. The contract says what `==` does not: equal values are the same value.
    /// Takes constant time.
    pub fn equals(self, other: Sl2) -> bool
        ensures { MatchBool result (self ≡ other) (¬ (self ≡ other)) }
    {
        self == other
    }
}
