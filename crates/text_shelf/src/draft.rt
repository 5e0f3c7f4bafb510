//! A draft.
ghost use Rattle.std.specs.Prelude.{◌≡◌};

use shelf_view::draft_id::DraftId;

/// A draft that is open on some shelf. It is neither `Copy` nor `Drop`: it ends when it is
/// sealed or given up, or is handed to a list of calls.
pub struct Draft {
    pub(crate) id: DraftId,
}

impl Draft {
    /// The draft's name, by which a view is asked about it. Takes constant time.
    pub fn id(&self) -> DraftId
        ensures { result ≡ self.now.id }
    {
        self.id
    }

    /// Lets go of a draft that is over, and gives its name.
    pub(crate) fn let_go(self) -> DraftId
        ensures { result ≡ self.id }
    {
        let Draft { id } = self;
        id
    }
}
