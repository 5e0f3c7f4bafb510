//! The least and the greatest byte.
ghost use Rattle.std.specs.Prelude.{◌<◌};

/// The least and the greatest byte of a text. The empty text has 255 and 0.
#[derive(Clone, Copy, PartialEq, Eq, Debug)]
pub struct ByteRange {
    pub least: u8,
    pub greatest: u8,
    ghost fits: { (least < 256) × (greatest < 256) },
}
