//! Reading the command that stands at a place of a script.
ghost use Rattle.std.specs.Prelude.{◌≡◌, ◌∷◌, []};
ghost use Rattle.script.specs.Commands.{ReadAt};
ghost use Rattle.script.specs.Parsing.{TextRead, NumbersRead, CommandRead, CommandInside};
ghost use Rattle.std.specs.Option.{option_map};

use crate::command::{Argument, Command, Word};
use netstring::read::Netstring;
use refusal::Refusal;

/// What stands at a place of a script: a command, or why there is none; and the place behind it.
#[derive(Clone, Copy)]
pub struct Reading<'s> {
    pub command: Result<Command<'s>, Refusal>,
    pub next: usize,
}

/// The arguments of a command, read from a place on up to the end of `inside`. That is the front of the script, so that
/// places are those of the script.
#[derive(Drop)]
struct Arguments<'s> {
    inside: &'s [u8],
    at: usize,
}

impl<'s> Arguments<'s> {
    fn text(&mut self) -> Option<Argument<&'s [u8]>>
        ensures same { self.new.inside ≡ self.old.inside }
        ensures value { TextRead self.old.inside.now self.old.at result self.new.at }
    {
        let Netstring { content, next } = netstring::read::read(self.inside, self.at).ok()?;
        self.at = next;
        Some(Argument {
            value: content,
            at: next - 1 - content.len(),
        })
    }

    fn number(&mut self) -> Option<Argument<u32>>
        ensures same { self.new.inside ≡ self.old.inside }
        ensures value { NumbersRead self.old.inside.now self.old.at 1 (option_map (λ a. a ∷ []) result) self.new.at }
    {
        let Argument { value, at } = self.text()?;
        let value = netstring::read::number(value)? as u32;
        Some(Argument { value, at })
    }

    /// So many numbers, one behind the other.
    fn numbers<const N: usize>(&mut self) -> Option<[Argument<u32>; N]>
        ensures same { self.new.inside ≡ self.old.inside }
        ensures value { NumbersRead self.old.inside.now self.old.at N result self.new.at }
    {
        let mut numbers = [Argument { value: 0, at: 0 }; N];
        for i in 0..N {
            numbers[i] = self.number()?;
        }
        Some(numbers)
    }

    /// A word, and the arguments that go with it.
    fn command(&mut self) -> Option<Command<'s>>
        ensures same { self.new.inside ≡ self.old.inside }
        ensures value { CommandRead self.old.inside.now self.old.at result self.new.at }
    {
        match Word::of(self.text()?.value)? {
            Word::Put => Some(Command::Put { text: self.text()? }),
            Word::Cut => {
                let [document, from, to] = self.numbers::<3>()?;
                Some(Command::Cut { document, from, to })
            }
            Word::Splice => {
                let [document, from, to, other] = self.numbers::<4>()?;
                Some(Command::Splice {
                    document,
                    from,
                    to,
                    other,
                })
            }
            Word::Mark => {
                let [document] = self.numbers::<1>()?;
                Some(Command::Mark { document })
            }
            Word::Text => {
                let [document] = self.numbers::<1>()?;
                Some(Command::Text { document })
            }
        }
    }
}

/// The command whose word stands at the place `at` of `inside`, and whose arguments go up to its end.
fn command_inside<'s>(inside: &'s [u8], at: usize) -> Option<Command<'s>>
    ensures { CommandInside inside.now at result }
{
    let mut arguments = Arguments { inside, at };
    let command = arguments.command()?;
    (arguments.at == inside.len()).then_some(command)
}

/// The command that stands in `script` at the place `at`; or BAD NETSTRING, where no netstring stands there, or BAD CALL, where
/// it holds no command. Takes constant time: a text is borrowed, and not gone through.
pub fn read<'s>(script: &'s [u8], at: usize) -> Reading<'s>
    ensures { ReadAt script.now at result.command result.next }
{
    let Ok(Netstring { content, next }) = netstring::read::read(script, at) else {
        return Reading {
            command: Err(Refusal::BadNetstring),
            next: script.len(),
        };
    };
    let end = next - 1;
    let command = command_inside(&script[..end], end - content.len());
    Reading {
        command: command.ok_or(Refusal::BadCall),
        next,
    }
}
