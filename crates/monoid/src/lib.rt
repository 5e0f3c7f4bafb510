//! Summaries of texts: monoids with a value for each byte, and the groups among them.
#![tactic(auto)]

ghost use Rattle.std.specs.Prelude.{◌≡◌};
ghost use Rattle.monoid.specs.Monoid.{Model, Lawful, Inverse, fold_of, fold_from, from_row};

pub mod fold;
pub mod karp_rabin;
pub mod line_column;
pub mod pair;

/// A summary of texts. No function refuses, and each is fixed by its arguments. Where a time is told, each but `lengthened`
/// counts as constant.
pub trait Monoid: Copy {
    /// A value as it lies in records and tables: plain numbers, under no condition beyond their types. Not every row need be a
    /// value's.
    type Row: Copy;

    /// What the functions below mean.
    ghost model: { Model Self Self.Row };

    /// The value of the empty text.
    fn empty() -> Self
        ensures { result ≡ model.empty };

    /// The value of one byte.
    fn of_byte(byte: u8) -> Self
        ensures { result ≡ model.of_byte byte };

    /// The value of a text and another behind it.
    fn join(self, other: Self) -> Self
        ensures { result ≡ model.joined self other };

    /// The value of a text that the bytes of `text` continue, one after the other. Takes time in their number.
    fn lengthened(self, text: &[u8]) -> Self
        ensures { result ≡ fold_from model self text.now }
    {
        let mut sum = self;
        for b in text {
            sum = sum.join(Self::of_byte(*b));
        }
        sum
    }

    /// The value of five bytes, one behind the other. A monoid may make it in its own way.
    fn of_stretch(stretch: &[u8; 5]) -> Self
        ensures { result ≡ fold_of model stretch.now }
    {
        Self::empty().lengthened(stretch)
    }

    /// The row of a value.
    fn to_row(self) -> Self::Row
        ensures { result ≡ model.row self };

    /// The value of a row, or none where the row is no value's.
    fn check_row(row: Self::Row) -> Option<Self>
        ensures { result ≡ model.check_row row };

    /// The value of a row; the empty value where the row is no value's.
    fn from_row(row: Self::Row) -> Self
        ensures value { result ≡ from_row model row }
        ensures back { (x : Self) → model.row x ≡ row → result ≡ x }
        ensures none { ((x : Self) → ¬ (model.row x ≡ row)) → result ≡ model.empty }
    {
        Self::check_row(row).unwrap_or(Self::empty())
    }

    /// The row of two values joined, from their rows. What it is of rows that are no values', the model says as well: they
    /// need not be tested.
    fn join_rows(left: Self::Row, right: Self::Row) -> Self::Row
        ensures { result ≡ model.joined_rows left right };

    /// The laws that every impl owes.
    ghost lawful: { Lawful model };
}

/// A monoid with inverses. Where a time is told, an inverse counts as constant.
pub trait Group: Monoid {
    ghost inverted: { Self → Self };

    /// The value that, joined on either side, gives the empty value.
    fn inverse(self) -> Self
        ensures { result ≡ inverted self };

    ghost inverts: { Inverse Self.Monoid.model inverted };
}

/// The one x for which `front`, x and `back`, joined in order, are `whole`. Takes constant time.
pub fn between<G: Group>(front: G, whole: G, back: G) -> G
    ensures solves { G.Monoid.model.joined front (G.Monoid.model.joined result back) ≡ whole }
    ensures only { (x : G) → G.Monoid.model.joined front (G.Monoid.model.joined x back) ≡ whole → x ≡ result }
{
    front.inverse().join(whole).join(back.inverse())
}
