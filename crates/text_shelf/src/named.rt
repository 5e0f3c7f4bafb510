//! The shelves that have names, by what they keep of each text.
use crate::shelf::Shelf;
use monoid::karp_rabin::KarpRabin;
use monoid::line_column::LineColumn;
use shelf_view::marked::Marked;

/// A shelf that keeps lines and columns.
pub type PlainShelf<'b, 'a> = Shelf<'b, 'a, LineColumn>;

/// A shelf that keeps Karp and Rabin's values.
pub type RollingShelf<'b, 'a> = Shelf<'b, 'a, KarpRabin>;

/// A shelf that keeps fingerprints, and lines and columns.
pub type MarkedShelf<'b, 'a> = Shelf<'b, 'a, Marked>;
