//! Karp and Rabin's rolling fingerprint.
ghost use Rattle.std.specs.Prelude.{◌≡◌, ◌*◌, ◌%◌};
ghost use Rattle.residue.specs.Residue.{prime};

use residue::Residue;

pub mod ops;
pub mod text;

/// A text's polynomial h, with the power w of the base that shifts by the text's length, and its inverse v.
#[derive(Clone, Copy)]
pub struct KarpRabin {
    h: Residue,
    w: Residue,
    v: Residue,
    ghost valid: { (w.n * v.n) % prime ≡ 1 },
}

/// Three plain numbers under no condition, as a value lies in records and tables.
#[derive(Clone, Copy)]
pub struct KarpRabinRow {
    pub h: u32,
    pub w: u32,
    pub v: u32,
}
