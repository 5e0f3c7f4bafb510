//! The name of a draft.

/// A draft's name: its shelf's mark, and its count among that shelf's drafts.
#[derive(Clone, Copy, PartialEq, Eq, Debug)]
pub struct DraftId {
    pub mark: u32,
    pub count: u32,
}
