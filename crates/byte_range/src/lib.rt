//! A monoid of one's own on a shelf: the least and the greatest byte of a text. What is owed for it is `impl Monoid` and
//! the monoid's laws; the shelf and its promises are taken as they stand.
#![tactic(auto)]

pub mod ops;
pub mod range;
#[cfg(test)]
mod tests;
