//! What a marked shelf keeps.
use monoid::line_column::LineColumn;
use monoid::pair::Pair;
use zemor::matrix::Sl2;

/// What a marked shelf keeps of each text: its fingerprint, and its lines and columns.
pub type Marked = Pair<Sl2, LineColumn>;
