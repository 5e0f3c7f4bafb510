//! Texts of a store, for reading, over the used memory of an open or of a closed one.
#![tactic(auto)]

pub mod text;
mod tree;
pub mod whole;
