//! Writing the answers, each as a netstring at the start of a buffer.
ghost use Rattle.std.specs.Prelude.{◌≡◌, ◌+◌, ◌≤◌, ℕ, List, ◌++◌, length, decimal, codes};
ghost use Rattle.refusal.specs.Writing.{Stands};
ghost use Rattle.netstring.specs.Netstring.{netstring};
ghost use Rattle.rope_read.specs.Texts.{bytes_in};
ghost use Rattle.script.specs.Answers.{answer_text};
ghost use Rattle.script.specs.declared.limits.TheConstants.{MOST_ANSWER};

use monoid::Monoid;
use refusal::{Refusal, write_start};
use rope_read::text::Text;

/// Writes `bytes` behind the first `at` bytes of `out`, and tells the place behind it.
pub(crate) fn append(bytes: &[u8], at: usize, out: &mut [u8]) -> usize
    requires { at + length bytes.now ≤ length out.old }
    ensures place { result ≡ at + length bytes.now }
    ensures after { (was front : List ℕ) → Stands front was at out.old → Stands (front ++ bytes.now) was result out.new }
{
    at + write_start(bytes, &mut out[at..]).unwrap()
}

/// Writes the digits of `n` behind the first `at` bytes of `out`, and tells the place behind them.
pub(crate) fn append_number(n: u64, at: usize, out: &mut [u8]) -> usize
    requires { at + length (decimal n) ≤ length out.old }
    ensures place { result ≡ at + length (decimal n) }
    ensures after { (was front : List ℕ) → Stands front was at out.old → Stands (front ++ decimal n) was result out.new }
{
    at + decimal::write(n, &mut out[at..]).unwrap()
}

/// Copies a text of a shelf behind the first `at` bytes of `out`, and tells the place behind it.
pub(crate) fn append_text<'v, M: Monoid>(text: Text<'v, M>, at: usize, out: &mut [u8]) -> usize
    requires { at + length (bytes_in text) ≤ length out.old }
    ensures place { result ≡ at + length (bytes_in text.entry) }
    ensures after { (was front : List ℕ) → Stands front was at out.old → Stands (front ++ bytes_in text.entry) was result out.new }
{
    at + text.copy(&mut out[at..]).unwrap()
}

/// Writes what stands before a content of `len` bytes, and tells the place behind it.
pub(crate) fn begin(len: usize, out: &mut [u8]) -> usize
    requires { length (decimal len) + 1 ≤ length out.old }
    ensures place { result ≡ length (decimal len) + 1 }
    ensures after { Stands (decimal len ++ codes ":") out.old result out.new }
{
    let at = append_number(len as u64, 0, out);
    append(b":", at, out)
}

/// Writes the number of a document that was made.
#[tactic(auto, using(crate::proofs::Writing::digits))]
pub(crate) fn write_number(n: u32, out: &mut [u8]) -> usize
    requires { MOST_ANSWER ≤ length out.old }
    ensures { Stands (netstring (decimal n)) out.old result out.new }
{
    let n = n as u64;
    let at = begin(decimal::count(n), out);
    let at = append_number(n, at, out);
    append(b",", at, out)
}

/// Writes a fingerprint's digits.
pub(crate) fn write_digits(digits: &[u8; 32], out: &mut [u8]) -> usize
    requires { MOST_ANSWER ≤ length out.old }
    ensures { Stands (netstring digits.now) out.old result out.new }
{
    netstring::write::write(digits, out).unwrap()
}

/// Writes why the command at `place` is refused.
#[tactic(auto, using(crate::proofs::Writing::digits))]
pub(crate) fn write_refusal(why: Refusal, place: usize, out: &mut [u8]) -> usize
    requires { MOST_ANSWER ≤ length out.old }
    ensures { Stands (answer_text place (Err why)) out.old result out.new }
{
    let number = why.number() as u64;
    let place = place as u64;
    let len = 2 + decimal::count(number) + decimal::count(place);
    let at = begin(len, out);
    let at = append(b"-", at, out);
    let at = append_number(number, at, out);
    let at = append(b"@", at, out);
    let at = append_number(place, at, out);
    append(b",", at, out)
}
