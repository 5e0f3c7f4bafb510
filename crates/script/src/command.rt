//! Commands of a script, as they were read.
ghost use Rattle.std.specs.Prelude.{◌≡◌, ◌≢◌, MatchOption};
ghost use Rattle.script.specs.Words.{spelling};
ghost use Rattle.script.specs.declared.command.Word.{Word};

/// An argument of a command, and the place in the script where it stands.
#[derive(Clone, Copy)]
pub struct Argument<T> {
    pub value: T,
    pub at: usize,
}

/// The word of a command.
#[derive(Clone, Copy, PartialEq, Eq)]
pub enum Word {
    Put,
    Cut,
    Splice,
    Mark,
    Text,
}

impl Word {
    /// The word that is spelled so. Takes constant time.
    pub fn of(text: &[u8]) -> Option<Word>
        ensures { MatchOption result ((w : Word) → text.now ≢ spelling w) (λ w. text.now ≡ spelling w) }
    {
        match text {
            b"put" => Some(Word::Put),
            b"cut" => Some(Word::Cut),
            b"splice" => Some(Word::Splice),
            b"mark" => Some(Word::Mark),
            b"text" => Some(Word::Text),
            _ => None,
        }
    }
}

/// A command: a call of the shelf, or a question, with its arguments as they stand in the script. A text is borrowed from there.
#[derive(Clone, Copy)]
pub enum Command<'s> {
    Put {
        text: Argument<&'s [u8]>,
    },
    Cut {
        document: Argument<u32>,
        from: Argument<u32>,
        to: Argument<u32>,
    },
    Splice {
        document: Argument<u32>,
        from: Argument<u32>,
        to: Argument<u32>,
        other: Argument<u32>,
    },
    Mark {
        document: Argument<u32>,
    },
    Text {
        document: Argument<u32>,
    },
}
