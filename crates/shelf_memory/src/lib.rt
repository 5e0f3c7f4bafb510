//! Memory from the heap for a program's marked shelf.
#![tactic(auto)]

pub mod memory;
