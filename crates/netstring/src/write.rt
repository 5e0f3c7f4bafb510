//! Writing netstrings.
ghost use Rattle.std.specs.Prelude.{length};
ghost use Rattle.refusal.specs.Writing.{Writes, of_room};
ghost use Rattle.netstring.specs.Netstring.{netstring, ReadAgain};

use refusal::{Refusal, write_start};

/// Writes the netstring of `content` at the start of `out`, and answers its length. What lies behind it keeps its bytes.
/// Refused with SMALL BUFFER, and `out` as it was, exactly where `out` is too short.
///
/// Takes time in the length of `content`.
pub fn write(content: &[u8], out: &mut [u8]) -> Result<usize, Refusal>
    ensures written { Writes (of_room (length (netstring content.now)) (length out.old)) (netstring content.now) out.old out.new result }
    ensures reads_back { ReadAgain content.now result out.new }
{
    let len = content.len();
    let k = decimal::count(len as u64);
    let whole = len + k + 2;
    if out.len() < whole {
        return Err(Refusal::SmallBuffer);
    }
    decimal::write(len as u64, out)?;
    out[k] = b':';
    write_start(content, &mut out[k + 1..])?;
    out[whole - 1] = b',';
    Ok(whole)
}
