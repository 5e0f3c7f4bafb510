//! Products of few bits, over whole numbers: none of their entries reaches p, so nothing is reduced.
ghost use Rattle.std.specs.Prelude.{◌≡◌, ◌+◌, ◌*◌, ◌<◌, ◌++◌, Bool, List};
ghost use Rattle.residue.specs.Residue.{prime};
ghost use Rattle.zemor.specs.Matrix.{times};
ghost use Rattle.zemor.specs.Bits.{bits_in, product_of, text_bits};
ghost use Rattle.zemor.specs.Values.{row};
ghost use Rattle.zemor.specs.Whole.{FewBits};

use super::table::entries;
use super::{Entries, Sl2};
use residue::Residue;

/// The row (a, b) times the column (e, g).
fn whole_dot(a: u32, b: u32, e: u32, g: u32) -> u32
    requires { a * e + b * g < prime }
    ensures { result ≡ a * e + b * g }
{
    a * e + b * g
}

/// The product of two matrices that are products of at most 45 bits together.
fn whole_product(x: Entries, y: Entries) -> Entries
    requires { FewBits x y }
    ensures { result ≡ times x y }
{
    Entries {
        a: whole_dot(x.a, x.b, y.a, y.c),
        b: whole_dot(x.a, x.b, y.b, y.d),
        c: whole_dot(x.c, x.d, y.a, y.c),
        d: whole_dot(x.c, x.d, y.b, y.d),
    }
}

/// The value with the entries of a product of bits.
fn value_of(e: Entries) -> Sl2
    requires { (w : List Bool) × (e ≡ product_of w) }
    ensures { row result ≡ e }
{
    Sl2 {
        a: Residue::try_from(e.a).unwrap(),
        b: Residue::try_from(e.b).unwrap(),
        c: Residue::try_from(e.c).unwrap(),
        d: Residue::try_from(e.d).unwrap(),
    }
}

/// The product of the sixteen bits of two bytes.
fn of_two(x: u8, y: u8) -> Entries
    ensures { result ≡ product_of (bits_in x 8 ++ bits_in y 8) }
{
    whole_product(entries(x), entries(y))
}

/// The product of the 40 bits of five bytes. Takes constant time.
pub fn of_stretch(stretch: &[u8; 5]) -> Sl2
    ensures { row result ≡ product_of (text_bits stretch.now) }
{
    let [a, b, c, d, e] = *stretch;
    let four = whole_product(of_two(a, b), of_two(c, d));
    value_of(whole_product(four, entries(e)))
}
