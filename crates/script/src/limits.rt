//! The limits of scripts, and how much memory the shelf has that one is run on.
ghost use Rattle.std.specs.Prelude.{◌≡◌};
ghost use Rattle.script.specs.declared.limits.TheConstants.{MOST_SCRIPT, MOST_ANSWER, MOST_TOLD, RECORDS, ADDED, PLACES};

/// So many bytes of a script are run at most, by the program `shelf` and from C and Rust.
pub const MOST_SCRIPT: usize = 16_384;

/// So many bytes hold every answer: the netstring of the longest text that is told.
pub const MOST_ANSWER: usize = 4_102;

/// The longest text that is told.
pub const MOST_TOLD: usize = 4_096;

/// So many records has the shelf of the program `shelf` and of the calls from C and Rust,
pub const RECORDS: usize = 1_024;

/// so many bytes for added text,
pub const ADDED: usize = 16_384;

/// and so many places for documents.
pub const PLACES: usize = 64;

/// Tells the limits as numbers, which the contracts name by their constants. It does nothing.
pub fn limits_stand()
    ensures script { MOST_SCRIPT ≡ 16384 }
    ensures answer { MOST_ANSWER ≡ 4102 }
    ensures told { MOST_TOLD ≡ 4096 }
    ensures records { RECORDS ≡ 1024 }
    ensures added { ADDED ≡ 16384 }
    ensures places { PLACES ≡ 64 }
{}
