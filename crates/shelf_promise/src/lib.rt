//! The promise over every list of calls on a fresh shelf.
#![tactic(auto)]

pub mod by_hand;
pub mod promise;
pub mod told;
