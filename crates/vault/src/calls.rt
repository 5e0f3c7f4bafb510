//! The calls.
ghost use Rattle.std.specs.Prelude.{length};
ghost use Rattle.zemor.specs.Values.{row};
ghost use Rattle.zemor.specs.Written.{bytes_of};
ghost use Rattle.refusal.specs.Writing.{Writes, of_room};
ghost use Rattle.shelf_view.specs.Marked.{fingerprint as fingerprint_of, written, in_part, ReadsBack};
ghost use Rattle.vault.specs.Boundary.{Crosses, RunCrosses, of_read_back, Runs};

use crate::answer::{VaultAnswer, VaultRun};
use monoid::Monoid;
use refusal::{Refusal, write_start};
use rope::record::Record;
use script::limits::{ADDED, MOST_SCRIPT, PLACES, RECORDS};
use script::run::{Answered, run_into};
use shelf_view::marked::Marked;
use shelf_view::window::read_between;
use text_shelf::named::MarkedShelf;
use text_shelf::shelf::Shelf;
use zemor::text::fingerprint;

/// Writes the sixteen bytes of a text's fingerprint at the start of `out`. Refused with SMALL BUFFER, and `out` as it was,
/// exactly where they do not fit. Takes time in the length of the text.
#[unsafe(no_mangle)]
pub extern "C" fn vault_fingerprint_bytes(text: &[u8], out: &mut [u8]) -> VaultAnswer
    ensures { Crosses (Writes (of_room 16 (length out.old)) (bytes_of (row (fingerprint_of text.now))) out.old out.new) result }
{
    VaultAnswer::from(write_start(&fingerprint(text).to_bytes(), out))
}

/// Writes the 32 digits of a text's fingerprint at the start of `out`. Refused with SMALL BUFFER, and `out` as it was,
/// exactly where they do not fit. Takes time in the length of the text.
#[unsafe(no_mangle)]
pub extern "C" fn vault_fingerprint_digits(text: &[u8], out: &mut [u8]) -> VaultAnswer
    ensures { Crosses (Writes (of_room 32 (length out.old)) (written (fingerprint_of text.now)) out.old out.new) result }
{
    VaultAnswer::from(write_start(&fingerprint(text).to_hex(), out))
}

/// Writes the window of at most five bytes that, in the place of the part `from` to `to` of the text, gives it the
/// fingerprint with these digits. Refused with BAD PART, then with SMALL BUFFER where `out` is shorter than five bytes, with
/// BAD FINGERPRINT, and with NO WINDOW exactly where no window gives it; `out` is then as it was. Takes time in the length
/// of the text.
#[unsafe(no_mangle)]
pub extern "C" fn vault_read_back(
    text: &[u8],
    from: usize,
    to: usize,
    digits: &[u8],
    out: &mut [u8],
) -> VaultAnswer
    ensures { Crosses (ReadsBack (of_read_back text.now from to (length out.old)) (in_part text.now from to) digits.now out.old out.new) result }
{
    VaultAnswer::from(read_back(text, from, to, digits, out))
}

/// Runs a script on a fresh marked shelf, while `MOST_ANSWER` bytes are left in `out`. Refused with TOO LONG for a script of
/// more than `MOST_SCRIPT` bytes, then with SMALL BUFFER for a shorter `out`, which is then as it was. Takes the time of the
/// shelf's memory and of the script's commands.
#[unsafe(no_mangle)]
pub extern "C" fn vault_run_script(script: &[u8], out: &mut [u8]) -> VaultRun
    ensures { RunCrosses (Runs script.now out.old out.new) result }
{
    VaultRun::from(run_script(script, out))
}

/// As `vault_read_back`, with a refusal as such.
fn read_back(
    text: &[u8],
    from: usize,
    to: usize,
    digits: &[u8],
    out: &mut [u8],
) -> Result<usize, Refusal>
    ensures { ReadsBack (of_read_back text.now from to (length out.old)) (in_part text.now from to) digits.now out.old out.new result }
{
    if from > to || to > text.len() {
        return Err(Refusal::BadPart);
    }
    let (front, back) = (fingerprint(&text[..from]), fingerprint(&text[to..]));
    read_between(front, digits, back, out)
}

/// A marked shelf, in a type of its own, which a contract can name.
#[derive(Drop)]
struct Desk<'m> {
    shelf: MarkedShelf<'m, 'm>,
}

/// As `vault_run_script`, with a refusal as such.
fn run_script(script: &[u8], out: &mut [u8]) -> Result<Answered, Refusal>
    ensures { Runs script.now out.old out.new result }
{
    if script.len() > MOST_SCRIPT {
        return Err(Refusal::TooLong);
    }
    let mut added = [0; ADDED];
    let mut records = [Record::blank(Marked::empty().to_row()); RECORDS];
    let mut places = [None; PLACES];
    let mut desk = Desk {
        shelf: Shelf::new(&[], &mut added, &mut records, &mut places, 0),
    };
    run_into(&mut desk.shelf, script, 0, out)
}
