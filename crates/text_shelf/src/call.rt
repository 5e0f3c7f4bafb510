//! Calls that change a shelf, and their answers.
use shelf_view::draft_id::DraftId;

/// A call with its arguments.
#[derive(Clone, Copy)]
pub enum Call<'t> {
    Put(&'t [u8]),
    Take {
        from: usize,
        to: usize,
    },
    Cut {
        document: u32,
        from: usize,
        to: usize,
    },
    Splice {
        document: u32,
        from: usize,
        to: usize,
        other: u32,
    },
    Open,
    Add {
        draft: DraftId,
        text: &'t [u8],
    },
    Seal(DraftId),
    GiveUp(DraftId),
}

/// What an accepted call answers.
#[derive(Clone, Copy)]
pub enum Answer {
    /// The number of the document that was made.
    Made(u32),
    /// The draft that was opened.
    Opened(DraftId),
    /// The draft was lengthened or given up.
    Done,
}
