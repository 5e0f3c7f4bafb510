//! What the arguments ask for.
use anyhow::{Result, bail};

pub enum Task<'w> {
    /// Compare two files.
    Compare { old: &'w str, new: &'w str },
    /// Show edits to one file.
    Edits { file: &'w str },
}

impl<'w> Task<'w> {
    /// The task of these words, of which the first is the program's name.
    pub fn of(words: &'w [String]) -> Result<Task<'w>> {
        match words {
            [_, file] => Ok(Task::Edits {
                file: file.as_str(),
            }),
            [_, old, new] => Ok(Task::Compare {
                old: old.as_str(),
                new: new.as_str(),
            }),
            _ => bail!(
                "usage: compare OLD NEW, to compare two files, or compare FILE, to see edits to one"
            ),
        }
    }
}
