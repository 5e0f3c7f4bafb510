//! Reading back what stands in a window of at most five bytes.
ghost use Rattle.std.specs.Prelude.{◌≤◌};

pub mod ops;

/// A text of at most five bytes: the last `len` of `bytes`.
#[derive(Clone, Copy)]
pub struct Window {
    bytes: [u8; 5],
    len: usize,
    ghost short: { len ≤ 5 },
}
