//! Telling the bits that a matrix is the product of.
ghost use Rattle.std.specs.Prelude.{◌^◌, ◌<◌, ◌≤◌};

pub mod ops;

/// A string of at most 45 bits: the `len` lowest bits of `word`, the highest first. The word has no bit beyond them.
#[derive(Clone, Copy)]
pub struct Bits {
    pub word: u64,
    pub len: u32,
    ghost short: { len ≤ 45 },
    ghost small: { word < 2 ^ len },
}
