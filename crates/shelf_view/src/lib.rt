//! Reading a text shelf: every question, of an open shelf and of a closed one.
#![tactic(auto)]

pub mod draft_id;
pub mod marked;
pub mod sameness;
pub mod view;
pub mod window;
