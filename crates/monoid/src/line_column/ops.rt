//! Lines and columns as a monoid.
ghost use Rattle.monoid.specs.LineColumnValues.{line_column_model};
ghost use Rattle.monoid.specs.LineColumnLaws;

use super::LineColumn;
use crate::Monoid;

impl Monoid for LineColumn {
    type Row = LineColumn;

    ghost model = { line_column_model };

    ghost lawful = { LineColumnLaws.lawful };

    fn empty() -> LineColumn {
        LineColumn {
            lines: 0,
            columns: 0,
        }
    }

    fn of_byte(byte: u8) -> LineColumn {
        match byte {
            b'\n' => LineColumn {
                lines: 1,
                columns: 0,
            },
            _ => LineColumn {
                lines: 0,
                columns: 1,
            },
        }
    }

    fn join(self, other: LineColumn) -> LineColumn {
        LineColumn {
            lines: self.lines.saturating_add(other.lines),
            columns: if other.lines > 0 {
                other.columns
            } else {
                self.columns.saturating_add(other.columns)
            },
        }
    }

    fn to_row(self) -> LineColumn {
        self
    }

    fn check_row(row: LineColumn) -> Option<LineColumn> {
        Some(row)
    }

    fn join_rows(left: LineColumn, right: LineColumn) -> LineColumn {
        left.join(right)
    }
}
