//! Running a script on a marked shelf.
ghost use Rattle.std.specs.Prelude.{◌≡◌, ◌≢◌, ◌≤◌, ◌<◌, List, ℕ, Result, IfErr, MatchResult, length};
ghost use Rattle.std.specs.IoError.{error_kind};
ghost use Rattle.refusal.specs.Writing.{Stands};
ghost use Rattle.text_shelf.specs.Shelves.{parts, strings};
ghost use Rattle.refusal.specs.declared.Refusal.{Refusal};
ghost use Rattle.refusal.specs.declared.Refusal.TheVariants.{SmallBuffer};
ghost use Rattle.script.specs.declared.limits.TheConstants.{MOST_ANSWER};
ghost use Rattle.script.specs.Answers.{Turn, Ran, RanInto, RanAll, Says, WritesSaid, number_said, said_to_mark, said_to_text};

use crate::answer::{append, append_text, begin, write_digits, write_number, write_refusal};
use crate::command::Command;
use crate::limits::{MOST_ANSWER, MOST_TOLD};
use crate::read::{Reading, read};
use crate::writer::write_whole;
use refusal::Refusal;
use std::io;
use std::io::{ErrorKind, Write};
use text_shelf::named::MarkedShelf;

/// How long an answer is, and the place behind the command.
#[derive(Clone, Copy)]
pub struct Answered {
    pub len: usize,
    pub next: usize,
}

/// Tells the number of a document that was made, if one was.
fn tell_number(made: Result<u32, Refusal>, out: &mut [u8]) -> Result<usize, Refusal>
    requires { MOST_ANSWER ≤ length out.old }
    ensures { WritesSaid (number_said made) out.old result out.new }
{
    Ok(write_number(made?, out))
}

/// Tells the fingerprint of document `d`.
fn tell_mark<'b, 'a>(shelf: &MarkedShelf<'b, 'a>, d: u32, out: &mut [u8]) -> Result<usize, Refusal>
    requires { MOST_ANSWER ≤ length out.old }
    ensures { WritesSaid (said_to_mark (strings (parts shelf.now)) d) out.old result out.new }
{
    let summary = shelf.view().document(d)?.summary();
    Ok(write_digits(&summary.first.to_hex(), out))
}

/// Tells the text of document `d`.
#[tactic(auto, using(crate::proofs::Writing::short))]
fn tell_text<'b, 'a>(shelf: &MarkedShelf<'b, 'a>, d: u32, out: &mut [u8]) -> Result<usize, Refusal>
    requires { MOST_ANSWER ≤ length out.old }
    ensures { WritesSaid (said_to_text (strings (parts shelf.now)) d) out.old result out.new }
{
    let document = shelf.view().document(d)?;
    let len = document.len();
    if len > MOST_TOLD {
        return Err(Refusal::SmallBuffer);
    }
    let at = begin(len, out);
    let at = append_text(document.text(), at, out);
    Ok(append(b",", at, out))
}

/// Runs what was read: a command, or why there is none.
fn answer<'b, 'a, 's>(
    shelf: &mut MarkedShelf<'b, 'a>,
    command: Result<Command<'s>, Refusal>,
    out: &mut [u8],
) -> Result<usize, Refusal>
    requires { MOST_ANSWER ≤ length out.old }
    ensures { (said : Result (List ℕ) Refusal) × (Says shelf.old command.entry said shelf.new × WritesSaid said out.old result out.new) }
{
    match command? {
        Command::Put { text } => tell_number(shelf.put(text.value), out),
        Command::Cut { document, from, to } => {
            let (from, to) = (from.value as usize, to.value as usize);
            tell_number(shelf.cut(document.value, from, to), out)
        }
        Command::Splice {
            document,
            from,
            to,
            other,
        } => {
            let (from, to) = (from.value as usize, to.value as usize);
            tell_number(shelf.splice(document.value, from, to, other.value), out)
        }
        Command::Mark { document } => tell_mark(shelf, document.value, out),
        Command::Text { document } => tell_text(shelf, document.value, out),
    }
}

/// Runs the command at the place `at` of a script, and writes its answer.
fn turn<'b, 'a>(
    shelf: &mut MarkedShelf<'b, 'a>,
    script: &[u8],
    at: usize,
    out: &mut [u8],
) -> Answered
    requires { MOST_ANSWER ≤ length out.old }
    ensures { (a : List ℕ) × (Turn script.now at shelf.old a result.next shelf.new × Stands a out.old result.len out.new) }
{
    if at >= script.len() {
        return Answered {
            len: 0,
            next: script.len(),
        };
    }
    let Reading { command, next } = read(script, at);
    let len = match answer(shelf, command, out) {
        Ok(len) => len,
        Err(why) => write_refusal(why, at, out),
    };
    Answered { len, next }
}

/// Refuses a buffer that does not hold every answer.
fn fits(out: &[u8]) -> Result<(), Refusal>
    ensures { MatchResult result (λ u. MOST_ANSWER ≤ length out.now) (λ e. (length out.now < MOST_ANSWER) × (e ≡ SmallBuffer)) }
{
    if out.len() < MOST_ANSWER {
        return Err(Refusal::SmallBuffer);
    }
    Ok(())
}

/// Runs the command at the place `at` of a script, and writes its answer at the start of `out`; what lies behind the answer
/// stays. Refused with SMALL BUFFER, and nothing changed, exactly where `out` has fewer than `MOST_ANSWER` bytes.
///
/// Takes time in the length of a text that is put or told, and in the heights of the documents that a cut or a splice names.
pub fn run<'b, 'a>(
    shelf: &mut MarkedShelf<'b, 'a>,
    script: &[u8],
    at: usize,
    out: &mut [u8],
) -> Result<Answered, Refusal>
    ensures { Ran script.now at shelf.old out.old shelf.new out.new result }
{
    fits(out)?;
    Ok(turn(shelf, script, at, out))
}

/// Runs a script command by command from the place `at` on, while `MOST_ANSWER` bytes are left in `out`. Writes the answers at
/// its start, and answers how many bytes they are, and the place behind the last command that was run; from the script's end or
/// beyond, 0 and the script's end. Refused as `run` is. Takes the time of its commands.
pub fn run_into<'b, 'a>(
    shelf: &mut MarkedShelf<'b, 'a>,
    script: &[u8],
    at: usize,
    out: &mut [u8],
) -> Result<Answered, Refusal>
    ensures { RanInto script.now at shelf.old out.old shelf.new out.new result }
{
    fits(out)?;
    let mut all = turn(shelf, script, at, out);
    while all.next < script.len() && out.len() - all.len >= MOST_ANSWER {
        let Answered { len, next } = turn(shelf, script, all.next, &mut out[all.len..]);
        all = Answered {
            len: all.len + len,
            next,
        };
    }
    Ok(all)
}

/// Runs a script command by command from the place `at` on, and writes each answer as it comes. Where a write fails, it stops
/// with that error: the last command was run, and not all of its answer written. An interrupted write is tried again; a writer
/// that takes nothing fails with `WriteZero`. Takes the time of its commands, and of the writing of their answers.
pub fn run_all<'b, 'a, W: Write>(
    shelf: &mut MarkedShelf<'b, 'a>,
    script: &[u8],
    at: usize,
    out: &mut W,
) -> io::Result<()>
    ensures ran { RanAll script.now at shelf.old (W.Write.contents out.old) shelf.new (W.Write.contents out.new) result }
    ensures retried { IfErr result (λ e. error_kind e ≢ ErrorKind.Interrupted) }
{
    let mut answer = [0; MOST_ANSWER];
    let mut at = at;
    while at < script.len() {
        let Answered { len, next } = turn(shelf, script, at, &mut answer);
        write_whole(out, &answer[..len])?;
        at = next;
    }
    Ok(())
}
