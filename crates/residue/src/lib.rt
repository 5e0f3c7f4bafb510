//! Numbers modulo the prime p = 2^31 - 1.
#![tactic(auto)]

ghost use Rattle.std.specs.Prelude.{◌≡◌, ◌+◌, ◌*◌, ◌%◌, ◌/◌, ◌^◌, ◌<◌, ◌≤◌, MatchResult};
ghost use Rattle.residue.specs.Residue.{prime, dot as row_by_column, minus};

use std::ops::{Mul, Neg};

const P: u32 = 2147483647;

/// A number modulo p, below p.
#[derive(Clone, Copy, PartialEq, Eq, Debug)]
pub struct Residue {
    n: u32,
    ghost low: { n < prime },
}

/// A number that is not below p.
#[derive(Clone, Copy, PartialEq, Eq, Debug)]
pub struct TooLarge(pub u32);

impl Residue {
    pub const ZERO: Residue = Residue { n: 0 };

    pub const ONE: Residue = Residue { n: 1 };

    /// `ZERO` and `ONE`. The contract tells which numbers the constants are. Takes constant time.
    pub fn constants() -> (Residue, Residue)
        ensures { (result.0.n ≡ 0) × (result.1.n ≡ 1) }
    {
        (Residue::ZERO, Residue::ONE)
    }

    /// n modulo p. Takes constant time.
    pub fn new(n: u32) -> Residue
        ensures { result.n ≡ n % prime }
    {
        Residue { n: n % P }
    }

    /// The number below p. Takes constant time.
    pub fn get(self) -> u32
        ensures { result ≡ self.n }
    {
        self.n
    }

    /// self * b + c. Takes constant time.
    pub fn multiply_add(self, b: Residue, c: Residue) -> Residue
        ensures { result.n ≡ (self.n * b.n + c.n) % prime }
    {
        multiply_add(self.n, b.n, c.n)
    }
}

/// a * b + c modulo p, of any numbers, reduced once. Takes constant time.
pub fn multiply_add(a: u32, b: u32, c: u32) -> Residue
    ensures { result.n ≡ (a * b + c) % prime }
{
    reduced(a as u64 * b as u64 + c as u64)
}

/// a * b modulo p, of any numbers. Takes constant time.
pub fn multiply(a: u32, b: u32) -> Residue
    ensures { result.n ≡ a * b % prime }
{
    reduced(a as u64 * b as u64)
}

/// The row (a, b) times the column (e, g), a * e + b * g, reduced once. Takes constant time.
pub fn dot(a: Residue, b: Residue, e: Residue, g: Residue) -> Residue
    ensures { result.n ≡ row_by_column a.n b.n e.n g.n }
{
    reduced(a.n as u64 * e.n as u64 + b.n as u64 * g.n as u64)
}

/// The row (a, b) times the column (e, g), of any numbers. Each product is folded before they are added, so that the sum
/// fits. Takes constant time.
pub fn dot_any(a: u32, b: u32, e: u32, g: u32) -> Residue
    ensures { result.n ≡ row_by_column a b e g }
{
    lowered(folded(folded(a as u64 * e as u64) + folded(b as u64 * g as u64)))
}

/// A number that is n modulo p: what stands from bit 31 on counts 2^31, which is 1 modulo p.
fn folded(n: u64) -> u64
    ensures { result ≡ n % 2 ^ 31 + n / 2 ^ 31 }
{
    (n & P as u64) + (n >> 31)
}

/// n modulo p. Twice folded, n is below 2 * p. No division, so that LLVM makes vectors of several at once.
fn reduced(n: u64) -> Residue
    ensures { result.n ≡ n % prime }
{
    lowered(folded(folded(n)))
}

/// n modulo p, of a number below 2 * p.
fn lowered(n: u64) -> Residue
    requires { n < 2 * prime }
    ensures { result.n ≡ n % prime }
{
    let small = n as u32;
    Residue {
        n: if small < P { small } else { small - P },
    }
}

/// The same number, which is below p.
impl From<u8> for Residue {
    ghost from_gives = { λ n r. r.n ≡ n };

    fn from(n: u8) -> Residue {
        Residue { n: n as u32 }
    }
}

/// The same number, where it is below p.
impl TryFrom<u32> for Residue {
    type Error = TooLarge;

    ghost try_from_gives = { λ n r. MatchResult r (λ x. x.n ≡ n) (λ e. (e.0 ≡ n) × (prime ≤ n)) };

    fn try_from(n: u32) -> Result<Residue, TooLarge> {
        if n < P {
            Ok(Residue { n })
        } else {
            Err(TooLarge(n))
        }
    }
}

impl Mul for Residue {
    type Output = Residue;

    ghost mul_gives = { λ a b r. r.n ≡ a.n * b.n % prime };

    fn mul(self, b: Residue) -> Residue {
        multiply(self.n, b.n)
    }
}

/// What is added to self to come to 0; 0 for 0.
impl Neg for Residue {
    type Output = Residue;

    ghost neg_gives = { λ a r. r.n ≡ minus a.n };

    fn neg(self) -> Residue {
        Residue {
            n: if self.n == 0 { 0 } else { P - self.n },
        }
    }
}
