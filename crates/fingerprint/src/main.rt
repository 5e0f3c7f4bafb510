//! Prints the fingerprint of standard input, how many bytes it has, and its lines and columns.
#![tactic(auto)]

mod stream;

use monoid::line_column::LineColumn;
use std::io;
use stream::Stream;

fn main(rt: HostRuntime) -> io::Result<()> {
    let stream = Stream::read(rt.alloc(), rt.stdin())?;
    let fingerprint = stream.fingerprint();
    let LineColumn { lines, columns } = stream.position();
    let bytes = stream.bytes();
    println!(rt; "{fingerprint}\n{bytes} bytes, {lines} lines, {columns} columns")
}
