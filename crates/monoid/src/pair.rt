//! Two monoids side by side.
ghost use Rattle.monoid.specs.Pair.{pair_model, pair_inverse};
ghost use Rattle.monoid.specs.PairLaws;
ghost use Rattle.std.proofs.Common.{rules};

use crate::{Group, Monoid};

#[derive(Clone, Copy)]
pub struct Pair<A, B> {
    pub first: A,
    pub second: B,
}

impl<A: Monoid, B: Monoid> Monoid for Pair<A, B> {
    type Row = Pair<A::Row, B::Row>;

    ghost model = { pair_model A.Monoid.model B.Monoid.model };

    ghost lawful = { PairLaws.lawful A.Monoid.model B.Monoid.model A.Monoid.lawful B.Monoid.lawful };

    fn empty() -> Pair<A, B> {
        Pair {
            first: A::empty(),
            second: B::empty(),
        }
    }

    fn of_byte(byte: u8) -> Pair<A, B> {
        Pair {
            first: A::of_byte(byte),
            second: B::of_byte(byte),
        }
    }

    fn of_stretch(stretch: &[u8; 5]) -> Pair<A, B> {
        Pair {
            first: A::of_stretch(stretch),
            second: B::of_stretch(stretch),
        }
    }

    fn join(self, other: Pair<A, B>) -> Pair<A, B> {
        Pair {
            first: self.first.join(other.first),
            second: self.second.join(other.second),
        }
    }

    fn to_row(self) -> Pair<A::Row, B::Row> {
        Pair {
            first: self.first.to_row(),
            second: self.second.to_row(),
        }
    }

    fn check_row(row: Pair<A::Row, B::Row>) -> Option<Pair<A, B>> {
        Some(Pair {
            first: A::check_row(row.first)?,
            second: B::check_row(row.second)?,
        })
    }

    fn join_rows(left: Pair<A::Row, B::Row>, right: Pair<A::Row, B::Row>) -> Pair<A::Row, B::Row> {
        Pair {
            first: A::join_rows(left.first, right.first),
            second: B::join_rows(left.second, right.second),
        }
    }
}

impl<A: Group, B: Group> Group for Pair<A, B> {
    ghost inverted = { pair_inverse A.Group.inverted B.Group.inverted };

    ghost inverts = { Prim.search rules };

    fn inverse(self) -> Pair<A, B> {
        Pair {
            first: self.first.inverse(),
            second: self.second.inverse(),
        }
    }
}
