//! The least and the greatest byte as a monoid.
ghost use Rattle.byte_range.specs.ByteRangeValues.{byte_range_model};
ghost use Rattle.byte_range.specs.ByteRangeLaws;

use crate::range::ByteRange;
use monoid::Monoid;

impl Monoid for ByteRange {
    type Row = ByteRange;

    ghost model = { byte_range_model };

    ghost lawful = { ByteRangeLaws.lawful };

    fn empty() -> ByteRange {
        ByteRange {
            least: 255,
            greatest: 0,
        }
    }

    fn of_byte(byte: u8) -> ByteRange {
        ByteRange {
            least: byte,
            greatest: byte,
        }
    }

    fn join(self, other: ByteRange) -> ByteRange {
        ByteRange {
            least: self.least.min(other.least),
            greatest: self.greatest.max(other.greatest),
        }
    }

    fn to_row(self) -> ByteRange {
        self
    }

    fn check_row(row: ByteRange) -> Option<ByteRange> {
        Some(row)
    }

    fn join_rows(left: ByteRange, right: ByteRange) -> ByteRange {
        left.join(right)
    }
}
