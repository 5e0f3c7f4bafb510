//! What the benchmarks measure of shelves, for a caller in Rust.
#![tactic(auto)]

mod splices;
