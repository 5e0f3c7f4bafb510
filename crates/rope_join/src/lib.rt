//! The join of two trees of any heights, with rotations. A tree is named by the number of its record, which stays the same
//! while the store grows.
#![tactic(auto)]

ghost use Rattle.std.specs.Prelude.{◌≡◌, ◌+◌, ◌-◌, ◌<◌};
ghost use Rattle.rope.specs.Tree.{height};
ghost use Rattle.rope.specs.Arena.{Splits};
ghost use Rattle.rope.specs.Memory.{arena_of, tree_of};
ghost use Rattle.rope_join.specs.Joins.{apart, Joinable, Balanceable, Joined, Threes, Middled};

use monoid::Monoid;
use rope::record::Shape;
use rope::store::Store;

/// How much higher `i` is than `j`, or 0.
fn gap<'b, 'a, M: Monoid>(store: &Store<'b, 'a, M>, i: u32, j: u32) -> u8
    requires { (i < store.now.records.used) × (j < store.now.records.used) }
    ensures { result ≡ height (tree_of store.now i) - height (tree_of store.now j) }
{
    let other = store.record(j).height;
    store.record(i).height.saturating_sub(other)
}

/// Both children of a tree that is no leaf.
fn children<'b, 'a, M: Monoid>(store: &Store<'b, 'a, M>, i: u32) -> (u32, u32)
    requires below { i < store.now.records.used }
    requires high { 0 < height (tree_of store.now i) }
    ensures { Splits (arena_of store.now) i result.0 result.1 }
{
    match store.record(i).shape {
        Shape::Leaf {
            origin: _,
            start: _,
        } => unreachable(),
        Shape::Inner { left, right } => (left, right),
    }
}

/// The double rotation: the children of the middle tree go to its two neighbours.
fn middle<'b, 'a, M: Monoid>(store: &mut Store<'b, 'a, M>, left: u32, mid: u32, right: u32) -> u32
    requires { Threes store.old left mid right }
    ensures { Middled store.old store.new result (tree_of store.old left) (tree_of store.old mid) (tree_of store.old right) }
{
    let (c, d) = children(store, mid);
    let l = store.push_inner(left, c);
    let r = store.push_inner(d, right);
    store.push_inner(l, r)
}

/// The join of two trees of which the right one is higher by two.
fn turn_left<'b, 'a, M: Monoid>(store: &mut Store<'b, 'a, M>, left: u32, right: u32) -> u32
    requires joinable { Joinable store.old left right 3 }
    requires heavy { height (tree_of store.old right) ≡ height (tree_of store.old left) + 2 }
    ensures { Joined store.old store.new result (tree_of store.old left) (tree_of store.old right) 3 }
{
    let (a, b) = children(store, right);
    if gap(store, a, b) > 0 {
        return middle(store, left, a, b);
    }
    let l = store.push_inner(left, a);
    store.push_inner(l, b)
}

/// The join of two trees of which the left one is higher by two.
fn turn_right<'b, 'a, M: Monoid>(store: &mut Store<'b, 'a, M>, left: u32, right: u32) -> u32
    requires joinable { Joinable store.old left right 3 }
    requires heavy { height (tree_of store.old left) ≡ height (tree_of store.old right) + 2 }
    ensures { Joined store.old store.new result (tree_of store.old left) (tree_of store.old right) 3 }
{
    let (a, b) = children(store, left);
    if gap(store, b, a) > 0 {
        return middle(store, a, b, right);
    }
    let r = store.push_inner(b, right);
    store.push_inner(a, r)
}

/// The join of two trees whose heights differ by at most two.
fn balance<'b, 'a, M: Monoid>(store: &mut Store<'b, 'a, M>, left: u32, right: u32) -> u32
    requires joinable { Joinable store.old left right 3 }
    requires near { Balanceable (tree_of store.old left) (tree_of store.old right) }
    ensures { Joined store.old store.new result (tree_of store.old left) (tree_of store.old right) 3 }
{
    if gap(store, right, left) > 1 {
        return turn_left(store, left, right);
    }
    if gap(store, left, right) > 1 {
        return turn_right(store, left, right);
    }
    store.push_inner(left, right)
}

/// A tree of the text of `left` and then that of `right`. The shorter tree goes down the other's near side to its own
/// height, and each level above is balanced again. Takes time in the difference of their heights.
pub fn join<'b, 'a, M: Monoid>(store: &mut Store<'b, 'a, M>, left: u32, right: u32) -> u32
    requires { Joinable store.old left right (apart (tree_of store.old left) (tree_of store.old right)) }
    ensures { Joined store.old store.new result (tree_of store.old left) (tree_of store.old right) (apart (tree_of store.old left) (tree_of store.old right)) }
{
    if gap(store, left, right) > 1 {
        let (a, b) = children(store, left);
        let t = join(store, b, right);
        return balance(store, a, t);
    }
    if gap(store, right, left) > 1 {
        let (a, b) = children(store, right);
        let t = join(store, left, a);
        return balance(store, t, b);
    }
    store.push_inner(left, right)
}
