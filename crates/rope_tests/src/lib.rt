//! Tests of the trees on small stores.
#![tactic(auto)]

#[cfg(test)]
mod tests;
