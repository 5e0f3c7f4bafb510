//! Scripts for a marked shelf: netstrings that each hold a command.
#![tactic(auto)]

mod answer;
pub mod command;
pub mod limits;
pub mod read;
pub mod run;
mod writer;
