//! The summary of a text that comes in chunks.
ghost use Rattle.std.specs.Prelude.{◌≡◌, ◌≢◌, ℕ, ◌<◌, List, [], ◌++◌, length, IfOk, IfErr, IfSome};
ghost use Rattle.std.specs.IoError.{error_kind};
ghost use Rattle.fingerprint.specs.Streams.{Sums, ReadChunk};

use monoid::Monoid;
use monoid::fold::fold;
use monoid::line_column::LineColumn;
use monoid::pair::Pair;
use std::alloc::Global;
use std::io;
use std::io::{ErrorKind, Read};
use zemor::matrix::Sl2;

/// How many bytes are read at a time.
const CHUNK: usize = 65536;

#[derive(Clone, Copy)]
pub struct Stream {
    summary: Pair<Sl2, LineColumn>,
    bytes: u64,
}

/// Reads the next chunk into `buffer`, and again where that is interrupted; no byte is left where the chunk is empty. After
/// 2^64 − 1 interruptions it gives up with `TimedOut`.
fn read_some<'t, R: Read>(input: &mut R, buffer: &'t mut [u8]) -> io::Result<&'t [u8]>
    requires { 0 < length buffer.old }
    ensures chunk { IfOk result (ReadChunk (R.Read.remaining input.old) (R.Read.remaining input.new)) }
    ensures retried { IfErr result (λ e. error_kind e ≢ ErrorKind.Interrupted) }
{
    for _ in 0..u64::MAX {
        match input.read(buffer) {
            Ok(n) => return Ok(&buffer[..n]),
            Err(e) if e.kind() == ErrorKind::Interrupted => {}
            Err(e) => return Err(e),
        }
    }
    Err(io::Error::from(ErrorKind::TimedOut))
}

impl Stream {
    /// No text yet. Takes constant time.
    pub fn new() -> Stream
        ensures { Sums result [] }
    {
        Stream {
            summary: Pair::empty(),
            bytes: 0,
        }
    }

    /// One chunk more. Takes time in its length.
    pub fn add(&mut self, chunk: &[u8])
        ensures { (text : List ℕ) → Sums self.old text → Sums self.new (text ++ chunk.now) }
    {
        self.summary = self.summary.join(fold(chunk));
        self.bytes = self.bytes.saturating_add(chunk.len() as u64);
    }

    /// All that `input` has, read in constant memory. An interrupted read is tried again. Takes time in its length.
    pub fn read<R: Read + Drop>(heap: Global, input: R) -> io::Result<Stream>
        ensures sums { IfOk result (λ s. IfSome (R.Read.remaining input) (Sums s)) }
        ensures retried { IfErr result (λ e. error_kind e ≢ ErrorKind.Interrupted) }
    {
        let mut buffer = vec![in heap; 0; CHUNK]?;
        Stream::read_by(input, &mut buffer)
    }

    /// The same, a buffer at a time. Nothing says that an input ends, so the chunks are counted: after 2^64 − 1 of them it
    /// gives up with `TimedOut`.
    fn read_by<R: Read + Drop>(input: R, buffer: &mut [u8]) -> io::Result<Stream>
        requires { 0 < length buffer.old }
        ensures sums { IfOk result (λ s. IfSome (R.Read.remaining input) (Sums s)) }
        ensures retried { IfErr result (λ e. error_kind e ≢ ErrorKind.Interrupted) }
    {
        let mut input = input;
        let mut stream = Stream::new();
        for _ in 0..u64::MAX {
            let chunk = read_some(&mut input, buffer)?;
            if chunk.is_empty() {
                return Ok(stream);
            }
            stream.add(chunk);
        }
        Err(io::Error::from(ErrorKind::TimedOut))
    }

    /// The fingerprint of the text so far. Takes constant time.
    pub fn fingerprint(&self) -> Sl2
        ensures { result ≡ self.now.summary.first }
    {
        self.summary.first
    }

    /// Its lines and columns. Takes constant time.
    pub fn position(&self) -> LineColumn
        ensures { result ≡ self.now.summary.second }
    {
        self.summary.second
    }

    /// How many bytes it has, up to 2^64 − 1. Takes constant time.
    pub fn bytes(&self) -> u64
        ensures { result ≡ self.now.bytes }
    {
        self.bytes
    }
}
