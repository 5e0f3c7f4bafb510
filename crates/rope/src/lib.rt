//! Balanced trees of text over memory that the caller lends.
#![tactic(auto)]

pub mod lent;
pub mod record;
pub mod store;
pub mod view;
