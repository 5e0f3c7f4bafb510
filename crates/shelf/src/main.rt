//! Runs the script that standard input holds on a fresh marked shelf, and writes the answers as they come.
#![tactic(auto)]

mod memory;
mod serve;

use memory::memory;
use serve::serve;
use std::io;

fn main(rt: HostRuntime) -> io::Result<()> {
    let mut memory = memory(rt.alloc())?;
    let mut shelf = memory.shelf(&[]);
    serve(rt.alloc(), rt.stdin(), &mut shelf, &mut rt.stdout())
}
