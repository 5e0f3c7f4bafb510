//! Netstrings: a length in decimal, a colon, that many bytes, a comma.
#![tactic(auto)]

pub mod read;
pub mod write;
