//! Karp and Rabin's fingerprint as a monoid, and as a group.
ghost use Rattle.monoid.specs.KarpRabinValues.{karp_rabin_model, inverse_of};
ghost use Rattle.monoid.specs.KarpRabinLaws;

use super::{KarpRabin, KarpRabinRow};
use crate::{Group, Monoid};
use residue::{Residue, multiply, multiply_add};

// The base, and its inverse modulo p.
const BASE: u32 = 16807;

const BASE_INVERSE: u32 = 1407677000;

impl Monoid for KarpRabin {
    type Row = KarpRabinRow;

    ghost model = { karp_rabin_model };

    ghost lawful = { KarpRabinLaws.lawful };

    fn empty() -> KarpRabin {
        KarpRabin {
            h: Residue::ZERO,
            w: Residue::ONE,
            v: Residue::ONE,
        }
    }

    fn of_byte(byte: u8) -> KarpRabin {
        KarpRabin {
            h: Residue::new(byte as u32 + 1),
            w: Residue::new(BASE),
            v: Residue::new(BASE_INVERSE),
        }
    }

    fn join(self, other: KarpRabin) -> KarpRabin {
        KarpRabin {
            h: self.h.multiply_add(other.w, other.h),
            w: self.w * other.w,
            v: self.v * other.v,
        }
    }

    fn to_row(self) -> KarpRabinRow {
        KarpRabinRow {
            h: self.h.get(),
            w: self.w.get(),
            v: self.v.get(),
        }
    }

    fn check_row(row: KarpRabinRow) -> Option<KarpRabin> {
        let h = Residue::try_from(row.h).ok()?;
        let w = Residue::try_from(row.w).ok()?;
        let v = Residue::try_from(row.v).ok()?;
        if w * v != Residue::ONE {
            return None;
        }
        Some(KarpRabin { h, w, v })
    }

    fn join_rows(left: KarpRabinRow, right: KarpRabinRow) -> KarpRabinRow {
        KarpRabinRow {
            h: multiply_add(left.h, right.w, right.h).get(),
            w: multiply(left.w, right.w).get(),
            v: multiply(left.v, right.v).get(),
        }
    }
}

impl Group for KarpRabin {
    ghost inverted = { inverse_of };

    ghost inverts = { KarpRabinLaws.inverts };

    fn inverse(self) -> KarpRabin {
        KarpRabin {
            h: -self.h * self.v,
            w: self.v,
            v: self.w,
        }
    }
}
