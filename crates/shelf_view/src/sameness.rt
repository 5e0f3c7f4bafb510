//! What the fingerprints of two parts tell.

/// How two parts of n bytes compare.
#[derive(Clone, Copy, PartialEq, Eq, Debug)]
pub enum Sameness {
    /// Their fingerprints differ, so their bytes do.
    Different,
    /// At most five bytes with one fingerprint: the bytes are equal.
    Equal,
    /// More than five bytes with one fingerprint.
    Alike,
}
