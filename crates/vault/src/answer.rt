//! What crosses the boundary: a refusal's number, or 0 and how far a call came.
ghost use Rattle.std.specs.Prelude.{◌≡◌};
ghost use Rattle.vault.specs.Boundary.{numbered, run_numbered};

use refusal::Refusal;
use script::run::Answered;

/// How many bytes were written.
#[repr(C)]
#[derive(Clone, Copy)]
pub struct VaultAnswer {
    pub refusal: u32,
    pub len: usize,
}

/// How many bytes were written, and the place behind the last command of a script.
#[repr(C)]
#[derive(Clone, Copy)]
pub struct VaultRun {
    pub refusal: u32,
    pub len: usize,
    pub next: usize,
}

impl From<Result<usize, Refusal>> for VaultAnswer {
    ghost from_gives = { λ r a. a ≡ numbered r };

    fn from(written: Result<usize, Refusal>) -> VaultAnswer {
        match written {
            Ok(len) => VaultAnswer { refusal: 0, len },
            Err(why) => VaultAnswer {
                refusal: why.number() as u32,
                len: 0,
            },
        }
    }
}

impl From<Result<Answered, Refusal>> for VaultRun {
    ghost from_gives = { λ r a. a ≡ run_numbered r };

    fn from(run: Result<Answered, Refusal>) -> VaultRun {
        match run {
            Ok(Answered { len, next }) => VaultRun {
                refusal: 0,
                len,
                next,
            },
            Err(why) => VaultRun {
                refusal: why.number() as u32,
                len: 0,
                next: 0,
            },
        }
    }
}
