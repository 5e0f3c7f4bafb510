//! Matrices of determinant 1 modulo p = 2^31 - 1.
ghost use Rattle.std.specs.Prelude.{◌≡◌, ◌+◌, ◌*◌, ◌%◌};
ghost use Rattle.residue.specs.Residue.{prime};

use residue::Residue;

pub mod ops;
mod stretch;
mod table;
mod written;

/// A matrix [a b; c d] with entries below p and a * d - b * c equal to 1 modulo p. No other value exists.
#[derive(Clone, Copy, PartialEq, Eq, Debug)]
pub struct Sl2 {
    a: Residue,
    b: Residue,
    c: Residue,
    d: Residue,
    ghost valid: { (a.n * d.n) % prime ≡ (b.n * c.n + 1) % prime },
}

/// Four plain numbers [a b; c d] under no condition, as a value lies in records and tables.
#[derive(Clone, Copy, PartialEq, Eq, Debug)]
pub struct Entries {
    pub a: u32,
    pub b: u32,
    pub c: u32,
    pub d: u32,
}

impl Entries {
    /// The identity, [1 0; 0 1].
    pub const IDENTITY: Entries = Entries {
        a: 1,
        b: 0,
        c: 0,
        d: 1,
    };
}
