//! A text shelf over lent memory: documents that never change, drafts, and the calls that make new ones.
#![tactic(auto)]

pub mod call;
pub mod draft;
pub mod named;
pub mod replay;
pub mod shelf;
