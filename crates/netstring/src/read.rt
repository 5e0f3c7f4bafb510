//! Reading netstrings, and numbers written like their lengths.
ghost use Rattle.std.specs.Prelude.{◌≡◌, ◌<◌, ◌++◌, decimal, MatchOption, MatchResult};
ghost use Rattle.refusal.specs.declared.Refusal.TheVariants.{BadNetstring};
ghost use Rattle.netstring.specs.declared.read.TheConstants.{MOST_NUMBER};
ghost use Rattle.netstring.specs.Netstring.{NoRun, Run, NoNumber, Number, NoNetstringAt, NetstringAt};

use refusal::Refusal;

/// The greatest number that stands as an argument: seven digits.
pub const MOST_NUMBER: usize = 9_999_999;

/// Tells the limit as a number, which the contracts name by its constant. It does nothing.
pub fn limit_stands()
    ensures { MOST_NUMBER ≡ 9999999 }
{}

/// What a netstring holds, and the place behind it, by which a script tells where its next command begins.
#[derive(Clone, Copy)]
pub struct Netstring<'t> {
    pub content: &'t [u8],
    pub next: usize,
}

// The number of at most `limit` that begins with `front`, goes on with the digits at the start of `text` and ends
// there, and what lies behind. A number that overflows is above every limit.
fn further_digits(front: usize, text: &[u8], limit: usize) -> Option<(usize, &[u8])>
    requires { 0 < front }
    ensures { MatchOption result (NoRun (decimal front ++ text.now) limit) (λ p. Run (decimal front ++ text.now) limit p.0 p.1.now) }
{
    let mut n = front;
    let mut rest = text;
    while let [d @ b'0'..=b'9', more @ ..] = rest {
        n = n.checked_mul(10)?.checked_add((*d - b'0') as usize)?;
        rest = more;
    }
    (n <= limit).then_some((n, rest))
}

// The decimal number at the front of `text`, of at most `limit` and without leading zeros, and what lies behind it.
fn run_at(text: &[u8], limit: usize) -> Option<(usize, &[u8])>
    ensures { MatchOption result (NoRun text.now limit) (λ p. Run text.now limit p.0 p.1.now) }
{
    match text {
        [b'0', rest @ ..] => Some((0, rest)),
        [first @ b'1'..=b'9', rest @ ..] => further_digits((*first - b'0') as usize, rest, limit),
        _ => None,
    }
}

/// The number that `text` is, of one to seven digits and written like a length: no leading zeros, nothing else.
/// Takes constant time.
pub fn number(text: &[u8]) -> Option<usize>
    ensures { MatchOption result (NoNumber text.now) (λ n. Number text.now n) }
{
    match run_at(text, MOST_NUMBER)? {
        (n, []) => Some(n),
        _ => None,
    }
}

// The netstring that stands in `text` at the place `at`.
fn netstring_at<'t>(text: &'t [u8], at: usize) -> Option<Netstring<'t>>
    ensures { MatchOption result (NoNetstringAt text.now at) (λ n. NetstringAt text.now at n.content.now n.next) }
{
    let here = text.get(at..)?;
    // no content is longer than what is left
    let (n, rest) = run_at(here, here.len())?;
    let (content, rest) = rest.strip_prefix(b":")?.split_at_checked(n)?;
    let behind = rest.strip_prefix(b",")?;
    Some(Netstring {
        content,
        next: text.len() - behind.len(),
    })
}

/// The netstring that stands in `text` at the place `at`. A length may have any number of digits. Refused with BAD NETSTRING
/// exactly where no netstring stands there.
///
/// Takes constant time: a content is borrowed, and not gone through.
pub fn read<'t>(text: &'t [u8], at: usize) -> Result<Netstring<'t>, Refusal>
    ensures { MatchResult result (λ n. NetstringAt text.now at n.content.now n.next) (λ e. (e ≡ BadNetstring) × NoNetstringAt text.now at) }
{
    netstring_at(text, at).ok_or(Refusal::BadNetstring)
}
