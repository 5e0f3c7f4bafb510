//! Scripts with their answers.
#![tactic(auto)]

#[cfg(test)]
mod tests;
