//! New texts: one that is brought, one that is a part of the build text, and one behind another.
#![tactic(auto)]

ghost use Rattle.std.specs.Prelude.{◌≡◌, ◌+◌, ◌^◌, ◌<◌, ◌≤◌, max, true, ◌++◌, length, take, drop};
ghost use Rattle.refusal.specs.declared.limits.TheConstants.{MOST_BROUGHT};
ghost use Rattle.rope.specs.Arena.{rooted};
ghost use Rattle.rope.specs.Memory.{Free, Takes};
ghost use Rattle.rope_cut.specs.Parts.{Rooted, text_in, height_in};
ghost use Rattle.rope.specs.Steps.{Addable};
ghost use Rattle.rope_keep.specs.Kept.{Grows, LowRoot, text_need, add_need};

use monoid::Monoid;
use rope::record::{Origin, Piece, Root};
use rope::store::Store;
use rope_cut::join_roots;

/// Writes `text` behind the added text, and builds a tree of it. Takes time in the length of `text`.
pub fn keep<'b, 'a, M: Monoid>(store: &mut Store<'b, 'a, M>, text: &[u8]) -> Root
    requires addable { Addable store.old (length text.now) }
    requires free { Free store.old (text_need (length text.now)) }
    ensures grows { Grows store.old store.new text.now (text_need (length text.now)) }
    ensures stands { LowRoot store.new result text.now }
{
    if text.is_empty() {
        return None;
    }
    let from = store.append(text);
    Some(store.build(Piece {
        origin: Origin::Added,
        start: from as u32,
        len: text.len() as u32,
    }))
}

/// A tree of the `count` bytes from `start` on of the build text. Takes time in their number.
pub fn take_part<'b, 'a, M: Monoid>(store: &mut Store<'b, 'a, M>, start: u32, count: u32) -> Root
    requires within { start + count ≤ length store.old.build.now }
    requires free { Free store.old (text_need count) }
    ensures takes { Takes store.old store.new (text_need count) }
    ensures stands { LowRoot store.new result (take count (drop start store.old.build.now)) }
{
    if count == 0 {
        return None;
    }
    Some(store.build(Piece {
        origin: Origin::Build,
        start,
        len: count,
    }))
}

/// The text at `root` and then `text`, which is written behind the added text. Takes time in the length of `text` and the
/// height of the tree at `root`.
pub fn lengthen<'b, 'a, M: Monoid>(store: &mut Store<'b, 'a, M>, root: Root, text: &[u8]) -> Root
    requires rooted { Rooted store.old root }
    requires addable { Addable store.old (length text.now) }
    requires short { (length text.now ≤ MOST_BROUGHT) × (length (text_in store.old root) + length text.now < 2 ^ 32) }
    requires free { Free store.old (add_need (height_in store.old root) (length text.now)) }
    ensures grows { Grows store.old store.new text.now (add_need (height_in store.old root) (length text.now)) }
    ensures root { rooted store.new.records.used result ≡ true }
    ensures text { text_in store.new result ≡ text_in store.old root ++ text.now }
    ensures high { (height_in store.old root ≤ height_in store.new result) × (height_in store.new result ≤ max (height_in store.old root) 6 + 1) }
{
    let more = keep(store, text);
    join_roots(store, root, more)
}
