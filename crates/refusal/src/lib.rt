//! Why a call is refused, and how an answer is written into a buffer: what all public calls have in common.
#![tactic(auto)]

ghost use Rattle.std.specs.Prelude.{◌≡◌, length};
ghost use Rattle.refusal.specs.Refusals.{number_of};
ghost use Rattle.refusal.specs.Writing.{Writes, of_room};

pub mod limits;

/// The numbered reasons. Each call tests its own in an order of its own, and answers the first that holds.
#[derive(Clone, Copy, PartialEq, Eq, Debug)]
pub enum Refusal {
    BadNetstring = 1,
    BadCall = 2,
    StrangeDraft = 3,
    DraftOpen = 4,
    NoDocument = 5,
    BadPart = 6,
    TooLong = 7,
    SmallBuffer = 8,
    BadFingerprint = 9,
    NoWindow = 10,
    TextFull = 11,
    RecordsShort = 12,
    NumbersSpent = 13,
}

impl Refusal {
    /// The refusal's number. Takes constant time.
    pub fn number(self) -> u8
        ensures { result ≡ number_of self }
    {
        self as u8
    }
}

/// Writes `text` at the start of `out`, and answers its length. What lies behind it keeps its bytes. Refused with SMALL
/// BUFFER, and `out` as it was, exactly where `out` is shorter than `text`.
///
/// Takes time in the length of `text`.
pub fn write_start(text: &[u8], out: &mut [u8]) -> Result<usize, Refusal>
    ensures { Writes (of_room (length text.now) (length out.old)) text.now out.old out.new result }
{
    if out.len() < text.len() {
        return Err(Refusal::SmallBuffer);
    }
    out[..text.len()].copy_from_slice(text);
    Ok(text.len())
}
