//! New records: leaves, and inner ones.
ghost use Rattle.rope.specs.Tree.{leaf, node};
ghost use Rattle.rope.specs.Arena.{part};
ghost use Rattle.rope.specs.Memory.{arena_of, tree_of};
ghost use Rattle.rope.specs.Steps.{Pairs, Leafs, Pushed};

use super::Store;
use crate::record::{Piece, Record, Shape};
use monoid::Monoid;
use monoid::fold::fold;

impl<'b, 'a, M: Monoid> Store<'b, 'a, M> {
    /// A leaf of a piece. Takes time in the length of the piece.
    pub fn push_leaf(&mut self, piece: Piece) -> u32
        requires { Leafs self.old piece.origin piece.start piece.len }
        ensures { Pushed self.old self.new result (leaf (part (arena_of self.old) piece.origin piece.start piece.len)) }
    {
        let value: M = fold(self.view().bytes(piece));
        self.push(Record {
            shape: Shape::Leaf {
                origin: piece.origin,
                start: piece.start,
            },
            length: piece.len,
            height: 0,
            row: value.to_row(),
        })
    }

    /// An inner record over two records, the left one's text first. Takes constant time.
    pub fn push_inner(&mut self, left: u32, right: u32) -> u32
        requires { Pairs self.old left right }
        ensures { Pushed self.old self.new result (node (tree_of self.old left) (tree_of self.old right)) }
    {
        let l = self.record(left);
        let r = self.record(right);
        let row = M::join_rows(l.row, r.row);
        self.push(Record {
            shape: Shape::Inner { left, right },
            length: l.length + r.length,
            height: l.height.max(r.height) + 1,
            row,
        })
    }
}
