//! Compares two settings files on a marked shelf, or shows edits to a lease length in one.
#![tactic(auto)]

mod change;
mod compare;
mod edits;
mod files;
mod lines;
mod memory;
mod task;
mod told;

use anyhow::Result;
use std::env;
use task::Task;

fn main(rt: HostRuntime) -> Result<()> {
    let words: Vec<String> = env::args(&rt)?.collect(rt.alloc())?;
    let mut out = rt.stdout();
    match Task::of(&words)? {
        Task::Compare { old, new } => compare::run(&rt, old, new, &mut out),
        Task::Edits { file } => edits::run(&rt, file, &mut out),
    }
}
