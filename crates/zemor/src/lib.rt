//! Zémor's fingerprint of a text: the product of its bits as matrices modulo 2^31 - 1.
#![tactic(auto)]

pub mod matrix;
pub mod peel;
pub mod text;
pub mod window;
