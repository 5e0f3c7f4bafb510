//! Numbers written in decimal: no leading zeros, and 0 as "0".
#![tactic(auto)]

ghost use Rattle.std.specs.Prelude.{◌≡◌, ◌+◌, ◌%◌, length, decimal};
ghost use Rattle.refusal.specs.Writing.{Writes, of_room};

use itoa::Buffer;
use refusal::{Refusal, write_start};

/// How many digits `n` has: at most 20. Takes constant time.
pub fn count(n: u64) -> usize
    ensures { result ≡ length (decimal n) }
{
    n.checked_ilog10().map_or(1, |k| k as usize + 1)
}

// The digit of the ones of `n`.
fn ones(n: u64) -> u8
    ensures { result ≡ 48 + n % 10 }
{
    b'0' + (n % 10) as u8
}

// Writes a number of any length by the library. Apart from `write`, so that short numbers are written where they are asked for.
#[inline(never)]
fn write_long(n: u64, out: &mut [u8]) -> Result<usize, Refusal>
    ensures { Writes (of_room (length (decimal n)) (length out.old)) (decimal n) out.old out.new result }
{
    write_start(Buffer::new().format(n).as_bytes(), out)
}

/// Writes the digits of `n` at the start of `out`, and answers how many there are. What lies behind them keeps its bytes.
/// Refused with SMALL BUFFER, and `out` as it was, exactly where `out` is shorter than the digits. Takes constant time.
#[inline(always)]
pub fn write(n: u64, out: &mut [u8]) -> Result<usize, Refusal>
    ensures { Writes (of_room (length (decimal n)) (length out.old)) (decimal n) out.old out.new result }
{
    // a number of few digits costs less than the copy out of the library's buffer
    match n {
        0..=9 => write_start(&[ones(n)], out),
        10..=99 => write_start(&[ones(n / 10), ones(n)], out),
        100..=999 => write_start(&[ones(n / 10 / 10), ones(n / 10), ones(n)], out),
        1000..=9999 => write_start(
            &[
                ones(n / 10 / 10 / 10),
                ones(n / 10 / 10),
                ones(n / 10),
                ones(n),
            ],
            out,
        ),
        10000..=99999 => write_start(
            &[
                ones(n / 10 / 10 / 10 / 10),
                ones(n / 10 / 10 / 10),
                ones(n / 10 / 10),
                ones(n / 10),
                ones(n),
            ],
            out,
        ),
        _ => write_long(n, out),
    }
}
