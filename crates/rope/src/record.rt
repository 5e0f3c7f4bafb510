//! What a record holds, and where a text's tree is.
ghost use Rattle.std.specs.Prelude.{◌≡◌};
ghost use Rattle.rope.specs.declared.record.Origin.TheVariants.{Build};
ghost use Rattle.rope.specs.declared.record.Shape.TheVariants.{Leaf};

/// The text that a leaf is a part of.
#[derive(Clone, Copy)]
pub enum Origin {
    Build,
    Added,
}

/// The `len` bytes from `start` on of the text that `origin` names.
#[derive(Clone, Copy)]
pub struct Piece {
    pub origin: Origin,
    pub start: u32,
    pub len: u32,
}

#[derive(Clone, Copy)]
pub enum Shape {
    /// The bytes of `origin` from `start` on.
    Leaf { origin: Origin, start: u32 },
    /// Two earlier records, by their places: records lie in memory that the caller lends, so there is no `Box`.
    Inner { left: u32, right: u32 },
}

/// One tree: its shape, and the length, the height and the summary of its text. It is written once.
#[derive(Clone, Copy)]
pub struct Record<R> {
    pub shape: Shape,
    pub length: u32,
    pub height: u8,
    pub row: R,
}

impl<R> Record<R> {
    /// A record for memory that is lent: nothing reads it before it is written. Takes constant time.
    pub fn blank(row: R) -> Record<R>
        ensures { result ≡ record { shape = Leaf Build 0; length = 0; height = 0; row = row } }
    {
        Record {
            shape: Shape::Leaf {
                origin: Origin::Build,
                start: 0,
            },
            length: 0,
            height: 0,
            row,
        }
    }
}

/// Where a text's tree is: nowhere for the empty text, or at a record.
pub type Root = Option<u32>;
