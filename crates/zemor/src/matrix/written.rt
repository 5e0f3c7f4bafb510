//! The written forms of a fingerprint: sixteen bytes, and 32 hexadecimal digits.
ghost use Rattle.std.specs.Prelude.{◌≡◌, Some, true, length};
ghost use Rattle.std.specs.Char.{is_ascii_uppercase};
ghost use Rattle.std.specs.Fmt.{padded};
ghost use Rattle.std.specs.List.{list_any};
ghost use Rattle.std.specs.Option.{ok_or};
ghost use Rattle.refusal.specs.declared.Refusal.TheVariants.{BadFingerprint};
ghost use Rattle.monoid.specs.Monoid.{all_bytes};
ghost use Rattle.zemor.specs.Values.{row};
ghost use Rattle.zemor.specs.Written.{bytes_of, entries_of, hex, read_bytes, read_hex, ReadBytes, Decoded, ReadHex, WellFormed};

use super::{Entries, Sl2};
use hex::FromHex;
use monoid::Monoid;
use refusal::Refusal;
use std::{fmt, str};

impl Sl2 {
    /// Sixteen bytes: a, b, c and d, each as four bytes, the highest first. Takes constant time.
    pub fn to_bytes(self) -> [u8; 16]
        ensures value { result ≡ bytes_of (row self) }
        ensures back { read_bytes result ≡ Some self }
    {
        let Entries { a, b, c, d } = self.to_row();
        let [a0, a1, a2, a3] = a.to_be_bytes();
        let [b0, b1, b2, b3] = b.to_be_bytes();
        let [c0, c1, c2, c3] = c.to_be_bytes();
        let [d0, d1, d2, d3] = d.to_be_bytes();
        [
            a0, a1, a2, a3, b0, b1, b2, b3, c0, c1, c2, c3, d0, d1, d2, d3,
        ]
    }

    /// The value that sixteen bytes write. Refused with BAD FINGERPRINT exactly where they write no value. Takes
    /// constant time.
    pub fn from_bytes(bytes: [u8; 16]) -> Result<Sl2, Refusal>
        ensures value { result ≡ ok_or (read_bytes bytes) BadFingerprint }
        ensures again { ReadBytes bytes result }
    {
        Sl2::check_row(read_entries(&bytes)).ok_or(Refusal::BadFingerprint)
    }

    /// The sixteen bytes as 32 lower-case hexadecimal digits. Takes constant time.
    pub fn to_hex(self) -> [u8; 32]
        ensures value { result ≡ hex (bytes_of (row self)) }
        ensures back { WellFormed result × (read_hex result ≡ Some self) }
    {
        let mut text = [0; 32];
        hex::encode_to_slice(self.to_bytes(), &mut text).unwrap();
        text
    }

    /// The value that a text of 32 lower-case hexadecimal digits writes. Refused with BAD FINGERPRINT exactly where the text
    /// is not well formed. Takes constant time.
    pub fn from_hex(text: &[u8]) -> Result<Sl2, Refusal>
        ensures value { result ≡ ok_or (read_hex text.now) BadFingerprint }
        ensures again { ReadHex text.now result }
    {
        Sl2::from_bytes(decode(text)?)
    }
}

/// Writes the 32 hexadecimal digits, which a width and a precision lay out as they do text.
impl fmt::Display for Sl2 {
    ghost output = { λ x. Some (hex (bytes_of (row x))) };

    ghost styled_output = { λ x spec. Some (padded spec (hex (bytes_of (row x)))) };

    fn fmt<W: fmt::Write>(&self, f: &mut fmt::Formatter<W>) -> fmt::Result {
        let digits = self.to_hex();
        f.pad(str::from_utf8(&digits).unwrap())
    }
}

/// The four numbers that sixteen bytes write, each in four of them, the highest first.
fn read_entries(bytes: &[u8; 16]) -> Entries
    ensures value { result ≡ entries_of bytes.now }
    ensures typed { (length bytes.now ≡ 16) × (all_bytes bytes.now ≡ true) }
{
    let (numbers, _) = bytes.as_chunks::<4>();
    Entries {
        a: u32::from_be_bytes(numbers[0]),
        b: u32::from_be_bytes(numbers[1]),
        c: u32::from_be_bytes(numbers[2]),
        d: u32::from_be_bytes(numbers[3]),
    }
}

/// Whether there is an upper-case letter. It goes through all of the text, so that LLVM tests several letters at once.
fn has_uppercase(text: &[u8]) -> bool
    ensures { result ≡ list_any is_ascii_uppercase text.now }
{
    let mut any = false;
    for c in text {
        any |= c.is_ascii_uppercase();
    }
    any
}

/// The sixteen bytes that 32 lower-case hexadecimal digits write.
fn decode(text: &[u8]) -> Result<[u8; 16], Refusal>
    ensures { Decoded text.now result }
{
    // before anything that takes time in the length
    if text.len() != 32 {
        return Err(Refusal::BadFingerprint);
    }
    // What `hex` reads may be in upper case too.
    if has_uppercase(text) {
        return Err(Refusal::BadFingerprint);
    }
    <[u8; 16]>::from_hex(text)
        .ok()
        .ok_or(Refusal::BadFingerprint)
}
