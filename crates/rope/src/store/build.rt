//! Trees of new texts.
ghost use Rattle.rope.specs.Steps.{Buildable, Built};

use super::Store;
use crate::record::Piece;
use monoid::Monoid;

/// The most bytes of a leaf.
const LEAF: u32 = 64;

impl<'b, 'a, M: Monoid> Store<'b, 'a, M> {
    /// A tree of a piece, in as few leaves as there can be. Takes time in the length of the piece.
    pub fn build(&mut self, piece: Piece) -> u32
        requires { Buildable self.old piece.origin piece.start piece.len }
        ensures { Built self.old self.new result piece.origin piece.start piece.len }
    {
        if piece.len <= LEAF {
            return self.push_leaf(piece);
        }
        let half = (piece.len + (LEAF - 1)) / LEAF / 2 * LEAF;
        let left = self.build(Piece { len: half, ..piece });
        let right = self.build(Piece {
            origin: piece.origin,
            start: piece.start + half,
            len: piece.len - half,
        });
        self.push_inner(left, right)
    }
}
