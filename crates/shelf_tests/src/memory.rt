//! Blank memory for small shelves.
use monoid::line_column::LineColumn;
use monoid::pair::Pair;
use zemor::matrix::Entries;

pub(crate) const LINE: LineColumn = LineColumn {
    lines: 0,
    columns: 0,
};

pub(crate) const MARKED: Pair<Entries, LineColumn> = Pair {
    first: Entries::IDENTITY,
    second: LINE,
};
