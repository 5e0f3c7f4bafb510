//! Questions about the tree at a record.
ghost use Rattle.std.specs.Prelude.{◌≡◌, ◌-◌, ◌<◌, ◌≤◌, ◌++◌, length, drop, slice_index};
ghost use Rattle.std.specs.List.{between};
ghost use Rattle.monoid.specs.Monoid.{fold_of};
ghost use Rattle.rope.specs.Tree.{text, size};
ghost use Rattle.rope.specs.Arena.{tree_at};
ghost use Rattle.rope.specs.Memory.{seen};

use monoid::Monoid;
use monoid::fold::fold;
use rope::record::{Piece, Shape};
use rope::view::RopeView;

/// The byte at the place `at` of the tree `i`.
pub(crate) fn byte_at<'v, M: Monoid>(view: RopeView<'v, M>, i: u32, at: u32) -> u8
    requires below { i < length view.slices.records.now }
    requires within { at < size (tree_at (seen view) i) }
    ensures { result ≡ slice_index (text (tree_at (seen view.entry) i)) at }
{
    let top = view.record(i);
    match top.shape {
        Shape::Leaf { origin, start } => {
            let len = top.length;
            view.bytes(Piece { origin, start, len })[at as usize]
        }
        Shape::Inner { left, right } => {
            let split = view.record(left).length;
            if at < split {
                byte_at(view, left, at)
            } else {
                byte_at(view, right, at - split)
            }
        }
    }
}

/// The fold of the part `a` to `b` of the tree `i`. Trees that lie whole in the part are not entered.
pub(crate) fn fold_at<'v, M: Monoid>(view: RopeView<'v, M>, i: u32, a: u32, b: u32) -> M
    requires below { i < length view.slices.records.now }
    requires ordered { a ≤ b }
    requires within { b ≤ size (tree_at (seen view) i) }
    ensures { result ≡ fold_of M.Monoid.model (between a b (text (tree_at (seen view.entry) i))) }
{
    let top = view.record(i);
    if a == 0 && b == top.length {
        return M::from_row(top.row);
    }
    match top.shape {
        Shape::Leaf { origin, start } => {
            let (start, len) = (start + a, b - a);
            fold(view.bytes(Piece { origin, start, len }))
        }
        Shape::Inner { left, right } => {
            let split = view.record(left).length;
            if b <= split {
                fold_at(view, left, a, b)
            } else if a >= split {
                fold_at(view, right, a - split, b - split)
            } else {
                fold_at(view, left, a, split).join(fold_at(view, right, 0, b - split))
            }
        }
    }
}

/// Writes the part `a` to `b` of the tree `i` at the start of `out`.
pub(crate) fn copy_at<'v, M: Monoid>(view: RopeView<'v, M>, i: u32, a: u32, b: u32, out: &mut [u8])
    requires below { i < length view.slices.records.now }
    requires ordered { a ≤ b }
    requires within { b ≤ size (tree_at (seen view) i) }
    requires room { b - a ≤ length out.old }
    ensures { out.new ≡ between a b (text (tree_at (seen view.entry) i)) ++ drop (b - a) out.old }
{
    let top = view.record(i);
    match top.shape {
        Shape::Leaf { origin, start } => {
            let (start, len) = (start + a, b - a);
            let bytes = view.bytes(Piece { origin, start, len });
            out[..bytes.len()].copy_from_slice(bytes);
        }
        Shape::Inner { left, right } => {
            let split = view.record(left).length;
            if b <= split {
                copy_at(view, left, a, b, out);
            } else if a >= split {
                copy_at(view, right, a - split, b - split, out);
            } else {
                copy_at(view, left, a, split, out);
                copy_at(view, right, 0, b - split, &mut out[(split - a) as usize..]);
            }
        }
    }
}
