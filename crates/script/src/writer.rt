//! Writing to a writer, so that it is known what has been written where that fails.
ghost use Rattle.std.specs.Prelude.{◌≢◌, IfErr};
ghost use Rattle.std.specs.Io.{WritesAtMost};
ghost use Rattle.std.specs.Io.KnownBytes.{WriteAppends};
ghost use Rattle.std.specs.IoError.{error_kind};
ghost use Rattle.script.specs.Writer.{WroteWhole};

use std::io;
use std::io::{ErrorKind, Write};

/// Writes once, and again where that is interrupted. An interruption has written nothing; after 2^64 − 1 of them it gives
/// up with `TimedOut`.
fn write_some<W: Write>(out: &mut W, bytes: &[u8]) -> io::Result<usize>
    ensures bound { WritesAtMost result bytes.now }
    ensures written { WriteAppends (W.Write.contents out.old) (W.Write.contents out.new) result bytes.now }
    ensures retried { IfErr result (λ e. error_kind e ≢ ErrorKind.Interrupted) }
{
    for _ in 0..u64::MAX {
        match out.write(bytes) {
            Err(e) if e.kind() == ErrorKind::Interrupted => {}
            written => return written,
        }
    }
    Err(io::Error::from(ErrorKind::TimedOut))
}

/// Writes all of `bytes`. The `write_all` of std does not say what has been written where it fails; here it is a front of
/// the bytes, and not all of them. A writer that takes no byte fails with `WriteZero`.
pub(crate) fn write_whole<W: Write>(out: &mut W, bytes: &[u8]) -> io::Result<()>
    ensures written { WroteWhole (W.Write.contents out.old) (W.Write.contents out.new) bytes.now result }
    ensures retried { IfErr result (λ e. error_kind e ≢ ErrorKind.Interrupted) }
{
    let mut at = 0;
    while at < bytes.len() {
        let n = write_some(out, &bytes[at..])?;
        if n == 0 {
            return Err(io::Error::from(ErrorKind::WriteZero));
        }
        at += n;
    }
    Ok(())
}
