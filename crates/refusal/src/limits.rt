//! The limits of a shelf. Memory beyond a limit counts as not brought, and what would go beyond is refused.
ghost use Rattle.std.specs.Prelude.{◌≡◌};
ghost use Rattle.refusal.specs.declared.limits.TheConstants.{MOST_RECORDS, MOST_BYTES, MOST_PLACES, MOST_TEXT, MOST_BROUGHT, MOST_DRAFTS};

/// So many records are used at most, however many are lent.
pub const MOST_RECORDS: usize = 65_536;

/// So many bytes of the build text are used at most, and so many of the memory for added text.
pub const MOST_BYTES: usize = 16_777_216;

/// So many places for documents are used at most.
pub const MOST_PLACES: usize = 4_095;

/// So many bytes a document or a draft has at most.
pub const MOST_TEXT: usize = 1_048_576;

/// So many bytes a text that a call brings has at most.
pub const MOST_BROUGHT: usize = 4_096;

/// So many drafts are opened on one shelf at most.
pub const MOST_DRAFTS: u32 = 4_294_967_295;

/// Tells the limits as numbers, which the contracts name by their constants. It does nothing.
pub fn limits_stand()
    ensures records { MOST_RECORDS ≡ 65536 }
    ensures bytes { MOST_BYTES ≡ 16777216 }
    ensures places { MOST_PLACES ≡ 4095 }
    ensures text { MOST_TEXT ≡ 1048576 }
    ensures brought { MOST_BROUGHT ≡ 4096 }
    ensures drafts { MOST_DRAFTS ≡ 4294967295 }
{}
