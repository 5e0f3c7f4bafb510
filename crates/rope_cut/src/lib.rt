//! Parts of trees as trees: fronts and backs, and the edits that are made of them. A front ends at a place above 0, and a
//! back begins at one below the length, since no tree is empty.
#![tactic(auto)]

ghost use Rattle.std.specs.Prelude.{◌≡◌, ◌+◌, ◌-◌, ◌*◌, ◌^◌, ◌<◌, ◌≤◌, length, take, drop};
ghost use Rattle.rope.specs.Tree.{text, size};
ghost use Rattle.rope.specs.Memory.{Free, tree_of};
ghost use Rattle.rope_cut.specs.Parts.{Partable, Parted, PartedRoot, Rooted, JoinedRoots, CutRoot, Spliceable, SplicedRoot, join_cost_in, splice_cost, edit_need, text_in, height_in, higher};

use monoid::Monoid;
use rope::record::{Piece, Root, Shape};
use rope::store::Store;
use rope_join::join;

/// The first `b` bytes of the tree `i`.
fn front_at<'b, 'a, M: Monoid>(store: &mut Store<'b, 'a, M>, i: u32, b: u32) -> u32
    requires partable { Partable store.old i }
    requires within { (0 < b) × (b ≤ size (tree_of store.old i)) }
    ensures { Parted store.old store.new result (tree_of store.old i) (take b (text (tree_of store.old i))) }
{
    let top = store.record(i);
    if b == top.length {
        return i;
    }
    match top.shape {
        Shape::Leaf { origin, start } => store.push_leaf(Piece {
            origin,
            start,
            len: b,
        }),
        Shape::Inner { left, right } => {
            let split = store.record(left).length;
            if b <= split {
                front_at(store, left, b)
            } else {
                let r = front_at(store, right, b - split);
                join(store, left, r)
            }
        }
    }
}

/// The bytes of the tree `i` from the place `a` on.
fn back_at<'b, 'a, M: Monoid>(store: &mut Store<'b, 'a, M>, i: u32, a: u32) -> u32
    requires partable { Partable store.old i }
    requires within { a < size (tree_of store.old i) }
    ensures { Parted store.old store.new result (tree_of store.old i) (drop a (text (tree_of store.old i))) }
{
    if a == 0 {
        return i;
    }
    let top = store.record(i);
    match top.shape {
        Shape::Leaf { origin, start } => store.push_leaf(Piece {
            origin,
            start: start + a,
            len: top.length - a,
        }),
        Shape::Inner { left, right } => {
            let split = store.record(left).length;
            if a >= split {
                back_at(store, right, a - split)
            } else {
                let l = back_at(store, left, a);
                join(store, l, right)
            }
        }
    }
}

/// The text at `root` up to the place `b`. Takes time in the height of its tree.
pub fn front<'b, 'a, M: Monoid>(store: &mut Store<'b, 'a, M>, root: Root, b: u32) -> Root
    requires rooted { Rooted store.old root }
    requires within { b ≤ length (text_in store.old root) }
    requires free { Free store.old (4 * height_in store.old root + 1) }
    ensures { PartedRoot store.old store.new result root (take b (text_in store.old root)) }
{
    if b == 0 {
        return None;
    }
    Some(front_at(store, root?, b))
}

/// The text at `root` from the place `a` on. Takes time in the height of its tree.
pub fn back<'b, 'a, M: Monoid>(store: &mut Store<'b, 'a, M>, root: Root, a: u32) -> Root
    requires rooted { Rooted store.old root }
    requires within { a ≤ length (text_in store.old root) }
    requires free { Free store.old (4 * height_in store.old root + 1) }
    ensures { PartedRoot store.old store.new result root (drop a (text_in store.old root)) }
{
    let i = root?;
    if a == store.record(i).length {
        return None;
    }
    Some(back_at(store, i, a))
}

/// The text at `left` and then that at `right`. Takes time in the difference of their heights.
pub fn join_roots<'b, 'a, M: Monoid>(store: &mut Store<'b, 'a, M>, left: Root, right: Root) -> Root
    requires rooted { Rooted store.old left × Rooted store.old right }
    requires short { length (text_in store.old left) + length (text_in store.old right) < 2 ^ 32 }
    requires free { Free store.old (join_cost_in store.old left right) }
    ensures { JoinedRoots store.old store.new result left right }
{
    match (left, right) {
        (Some(i), Some(j)) => Some(join(store, i, j)),
        (Some(_), None) => left,
        (None, _) => right,
    }
}

/// The part `a` to `b` of the text at `root`. Takes time in the height of its tree.
pub fn cut<'b, 'a, M: Monoid>(store: &mut Store<'b, 'a, M>, root: Root, a: u32, b: u32) -> Root
    requires rooted { Rooted store.old root }
    requires part { (a ≤ b) × (b ≤ length (text_in store.old root)) }
    requires free { Free store.old (edit_need (height_in store.old root)) }
    ensures { CutRoot store.old store.new result root a b }
{
    let before = front(store, root, b);
    back(store, before, a)
}

/// The height of the tree at `root`, or 0.
fn root_height<'b, 'a, M: Monoid>(store: &Store<'b, 'a, M>, root: Root) -> u8
    requires { Rooted store.now root }
    ensures { result ≡ height_in store.now root }
{
    match root {
        Some(i) => store.record(i).height,
        None => 0,
    }
}

/// The text at `root` with its part `a` to `b` replaced by that at `other`, from a front and a back of the whole tree.
fn replace<'b, 'a, M: Monoid>(
    store: &mut Store<'b, 'a, M>,
    root: Root,
    a: u32,
    b: u32,
    other: Root,
) -> Root
    requires { Spliceable store.old root a b other }
    ensures { SplicedRoot store.old store.new result root a b other (splice_cost (higher store.old root other) (height_in store.new result)) }
{
    let before = front(store, root, a);
    let behind = back(store, root, b);
    let tail = join_roots(store, other, behind);
    join_roots(store, before, tail)
}

/// The text of the tree `i` with its part `a` to `b` replaced by that at `other`. Where the part lies in one child, only that
/// child changes, which takes fewer records; but not if `other` is higher than the child, since it would then be higher
/// than what it is joined with at each level above.
fn splice_at<'b, 'a, M: Monoid>(
    store: &mut Store<'b, 'a, M>,
    i: u32,
    a: u32,
    b: u32,
    other: Root,
) -> Root
    requires { Spliceable store.old (Some i) a b other }
    ensures { SplicedRoot store.old store.new result (Some i) a b other (splice_cost (higher store.old (Some i) other) (height_in store.new result)) }
{
    if let Shape::Inner { left, right } = store.record(i).shape {
        let least = root_height(store, other);
        let split = store.record(left).length;
        if b <= split && store.record(left).height >= least {
            let l = splice_at(store, left, a, b, other);
            return join_roots(store, l, Some(right));
        }
        if a >= split && store.record(right).height >= least {
            let r = splice_at(store, right, a - split, b - split, other);
            return join_roots(store, Some(left), r);
        }
    }
    replace(store, Some(i), a, b, other)
}

/// The text at `root` with its part `a` to `b` replaced by that at `other`. Takes time in the heights of both trees.
pub fn splice<'b, 'a, M: Monoid>(
    store: &mut Store<'b, 'a, M>,
    root: Root,
    a: u32,
    b: u32,
    other: Root,
) -> Root
    requires rooted { Rooted store.old root × Rooted store.old other }
    requires part { (a ≤ b) × (b ≤ length (text_in store.old root)) }
    requires short { length (text_in store.old root) - (b - a) + length (text_in store.old other) < 2 ^ 32 }
    requires free { Free store.old (edit_need (higher store.old root other)) }
    ensures { SplicedRoot store.old store.new result root a b other (splice_cost (higher store.old root other) (height_in store.new result)) }
{
    match root {
        Some(i) => splice_at(store, i, a, b, other),
        None => other,
    }
}
