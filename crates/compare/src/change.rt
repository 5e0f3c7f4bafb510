//! Where two texts part, and the lines of a part.
ghost use Rattle.std.specs.Prelude.{◌≡◌, ◌<◌, ◌≤◌, length, reverse, map, position, take_while, ◌-◌, IfOk, IfSome, MatchOption};
ghost use Rattle.std.specs.Char.{is_ascii_digit};
ghost use Rattle.compare.specs.Changes.{front_of, back_of, IsChange, Lines, no_newline, first_digits};

use std::alloc::{AllocError, Global};

/// The places `from` to `to` of a text.
#[derive(Clone, Copy)]
pub struct Part {
    pub from: usize,
    pub to: usize,
}

/// How a text was changed: the part `old` of the first stands where `new` stands in the second.
#[derive(Clone, Copy)]
pub struct Change {
    pub old: Part,
    pub new: Part,
}

/// How many bytes two texts have in common at their beginning.
#[tactic(auto, using(crate::proofs::Runs::front_le))]
fn common_front(a: &[u8], b: &[u8]) -> usize
    ensures value { result ≡ front_of a.now b.now }
    ensures first { result ≤ length a.now }
    ensures second { result ≤ length b.now }
{
    a.iter().zip(b).take_while(|(x, y)| x == y).count()
}

/// How many bytes two texts have in common at their end.
#[tactic(auto, using(crate::proofs::Runs::back_le))]
fn common_back(a: &[u8], b: &[u8]) -> usize
    ensures value { result ≡ back_of a.now b.now }
    ensures first { result ≤ length a.now }
    ensures second { result ≤ length b.now }
{
    a.iter()
        .rev()
        .zip(b.iter().rev())
        .take_while(|(x, y)| x == y)
        .count()
}

/// The change from one text to the other, from where they first part to where they last do; `None` where they are equal.
pub fn difference(old: &[u8], new: &[u8]) -> Option<Change>
    ensures { MatchOption result (old.now ≡ new.now) (IsChange old.now new.now) }
{
    if old == new {
        return None;
    }
    let from = common_front(old, new);
    let back = common_back(&old[from..], &new[from..]);
    Some(Change {
        old: Part {
            from,
            to: old.len() - back,
        },
        new: Part {
            from,
            to: new.len() - back,
        },
    })
}

/// How many bytes stand behind the last newline.
fn line_before(text: &[u8]) -> usize
    ensures { result ≡ length (take_while no_newline (reverse text.now)) }
{
    text.iter().rev().take_while(|b| **b != b'\n').count()
}

/// How many bytes stand before the first newline.
fn line_behind(text: &[u8]) -> usize
    ensures { result ≡ length (take_while no_newline text.now) }
{
    text.iter().take_while(|b| **b != b'\n').count()
}

/// The whole lines that a part of the text touches, but for the last newline.
#[tactic(auto, using(crate::proofs::Runs::before_le, crate::proofs::Runs::behind_le))]
pub(crate) fn lines_of(text: &[u8], part: Part) -> Part
    requires ordered { part.from ≤ part.to }
    requires within { part.to ≤ length text.now }
    ensures { Lines text.now part result }
{
    let before = line_before(&text[..part.from]);
    let behind = line_behind(&text[part.to..]);
    Part {
        from: part.from - before,
        to: part.to + behind,
    }
}

/// The place of the first digit.
fn first_digit(text: &[u8]) -> Option<usize>
    ensures value { result ≡ position is_ascii_digit text.now }
    ensures within { IfSome result (λ i. i < length text.now) }
{
    text.iter().position(|b| b.is_ascii_digit())
}

/// How many digits a text begins with.
fn digits_at_front(text: &[u8]) -> usize
    ensures value { result ≡ length (take_while is_ascii_digit text.now) }
    ensures fits { result ≤ length text.now }
{
    text.iter().take_while(|b| b.is_ascii_digit()).count()
}

/// The first digits in a text, at most `most` of them; `None` where it has none.
pub fn digits_in(text: &[u8], most: usize) -> Option<Part>
    ensures value { result ≡ first_digits text.now most }
    ensures within { IfSome result (λ s. (s.from ≤ s.to) × (s.to ≤ length text.now)) }
{
    let from = first_digit(text)?;
    let run = digits_at_front(&text[from..]);
    Some(Part {
        from,
        to: from + run.min(most),
    })
}

/// Other digits: each is nine less the old one.
pub fn other_digits(heap: Global, digits: &[u8]) -> Result<Vec<u8>, AllocError>
    ensures { IfOk result (λ v. v.items ≡ map (λ d. 105 - d) digits.now) }
{
    digits
        .iter()
        .map(|d| (b'0' + b'9').saturating_sub(*d))
        .collect(heap)
}
