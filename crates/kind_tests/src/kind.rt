//! What the tests ask of a kind of summary beyond its monoid.
use byte_range::range::ByteRange;
use monoid::Monoid;
use monoid::karp_rabin::KarpRabin;
use monoid::line_column::LineColumn;
use shelf_view::marked::Marked;

/// A monoid whose values can be compared with figures in a table.
pub(crate) trait Kind: Monoid {
    type Figures: Copy;

    /// Whether the value is the one with these figures.
    fn has(self, figures: Self::Figures) -> bool;
}

/// Lines and columns.
impl Kind for LineColumn {
    type Figures = (u32, u32);

    fn has(self, figures: (u32, u32)) -> bool {
        (self.lines, self.columns) == figures
    }
}

/// h, w and v.
impl Kind for KarpRabin {
    type Figures = (u32, u32, u32);

    fn has(self, figures: (u32, u32, u32)) -> bool {
        let row = self.to_row();
        (row.h, row.w, row.v) == figures
    }
}

/// The fingerprint's digits, and lines and columns.
impl Kind for Marked {
    type Figures = (&'static [u8; 32], u32, u32);

    fn has(self, figures: (&'static [u8; 32], u32, u32)) -> bool {
        let (digits, lines, columns) = figures;
        self.first.to_hex() == *digits && self.second.has((lines, columns))
    }
}

/// The least and the greatest byte.
impl Kind for ByteRange {
    type Figures = (u8, u8);

    fn has(self, figures: (u8, u8)) -> bool {
        (self.least, self.greatest) == figures
    }
}
