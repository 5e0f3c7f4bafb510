//! Lines and columns.
ghost use Rattle.std.specs.Prelude.{◌^◌, ◌<◌};

pub mod ops;

/// How many newlines a text has, and how many bytes stand after the last of them.
#[derive(Clone, Copy, PartialEq, Eq, Debug)]
pub struct LineColumn {
    pub lines: u32,
    pub columns: u32,
    ghost fits: { (lines < 2 ^ 32) × (columns < 2 ^ 32) },
}
