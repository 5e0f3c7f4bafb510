//! The text shelf for callers in C and Rust: numbers, and slices of bytes as a pointer and a length. No call has a
//! `requires`; `bindings/vault.h` declares them.
#![tactic(auto)]

pub mod answer;
pub mod calls;
