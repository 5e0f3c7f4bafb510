//! The questions of every shelf.
use crate::figures::Wanted;
use crate::kind::Kind;
use crate::steps::{DRAFT, NO_PARTS, PARTS, Piece, TEXTS};
use monoid::Monoid;
use refusal::Refusal;
use rope_read::text::Text;
use rope_read::whole::Whole;
use shelf_view::draft_id::DraftId;
use shelf_view::view::View;
use std::process::Abort;

/// Whether the answer is the value with these figures.
fn told<K: Kind>(answer: Result<K, Refusal>, figures: Option<&K::Figures>) -> bool {
    match (answer, figures) {
        (Ok(value), Some(figures)) => value.has(*figures),
        _ => false,
    }
}

/// What is left of `out` behind the pieces, one behind the other; none where they do not stand there.
fn behind<'o>(out: &'o [u8], pieces: &[Piece]) -> Option<&'o [u8]> {
    let mut rest = out;
    for (text, from, to) in pieces {
        rest = rest.strip_prefix(text.get(*from..*to)?)?;
    }
    Some(rest)
}

/// Whether a buffer of nines begins with the pieces, `len` bytes in all, and is as it was behind them.
fn begins(out: &[u8], pieces: &[Piece], len: usize) -> bool {
    behind(out, pieces).is_some_and(|rest| rest.iter().all(|b| *b == 9)
        && out.len().checked_sub(rest.len()) == Some(len))
}

/// Whether a text is these pieces, as its length, its copy and each byte tell it.
fn holds<'v, M: Monoid>(text: Text<'v, M>, pieces: &[Piece]) -> bool {
    let mut out = [9; 1024];
    let len = text.len();
    let copied = text.copy(&mut out) == Ok(len);
    let bytes = (0..len).all(|i| text.byte(i).ok() == out.get(i).copied());
    copied && begins(&out, pieces, len) && bytes && text.byte(len) == Err(Refusal::BadPart)
}

/// Whether a copy of the first `len` bytes of document `d` is these pieces.
fn copies<'v, M: Monoid>(view: View<'v, M>, d: u32, len: usize, pieces: &[Piece]) -> bool {
    let mut out = [9; 1024];
    view.copy(d, 0, len, &mut out) == Ok(len) && begins(&out, pieces, len)
}

/// Whether a tree may be so high: each leaf has 1 to 64 bytes, and the heights of two children differ by at most one.
fn may_be_high(len: usize, height: u8) -> bool {
    let (mut fewest, mut higher, mut most) = (1usize, 2usize, 64usize);
    for _ in 0..height {
        (fewest, higher) = (higher, fewest.saturating_add(higher));
        most = most.saturating_mul(2);
    }
    match len {
        0 => height == 0,
        _ => fewest <= len && len <= most && height <= 28,
    }
}

fn lawfully_high<'v, M: Monoid>(whole: Whole<'v, M>) -> bool {
    may_be_high(whole.len(), whole.height())
}

/// Whether a document or draft is these pieces, of a lawful height, with these figures.
fn is_whole<'v, K: Kind>(
    whole: Whole<'v, K>,
    pieces: &[Piece],
    figures: Option<&K::Figures>,
) -> bool {
    whole.len() == whole.text().len()
        && holds(whole.text(), pieces)
        && lawfully_high(whole)
        && told(Ok(whole.summary()), figures)
        && told(Ok(whole.text().summary()), figures)
}

/// Asks about each document.
fn ask_documents<'v, K: Kind>(rt: &impl Abort, view: View<'v, K>, figures: &[K::Figures]) {
    assert_eq!(rt; figures.len(), TEXTS.len());
    for (d, pieces) in (0u32..).zip(&TEXTS) {
        let Ok(whole) = view.document(d) else {
            panic!(rt; "there is no document {d}")
        };
        assert!(rt;
            is_whole(whole, pieces, figures.get(d as usize)),
            "document {d}"
        );
        assert!(rt; copies(view, d, whole.len(), pieces), "copy {d}");
    }
}

/// The summary of the part `a` to `b` of document `d`, as that of the bytes from `a` on.
fn sum_of_bytes<'v, M: Monoid>(
    view: View<'v, M>,
    d: u32,
    a: usize,
    b: usize,
) -> Result<M, Refusal> {
    let text = view.document(d)?.text();
    let n = b.checked_sub(a).ok_or(Refusal::BadPart)?;
    Ok(text.bytes(a, n)?.summary())
}

/// And as that of what stands behind its beginning, in what stands before the document's end.
fn sum_between<'v, M: Monoid>(view: View<'v, M>, d: u32, a: usize, b: usize) -> Result<M, Refusal> {
    let text = view.document(d)?.text();
    let (front, _) = text.around(b, text.len())?;
    let (_, part) = front.around(0, a)?;
    Ok(part.summary())
}

/// Asks about each part, on each way to it.
fn ask_parts<'v, K: Kind>(rt: &impl Abort, view: View<'v, K>, figures: &[K::Figures]) {
    assert_eq!(rt; figures.len(), PARTS.len());
    for (i, (d, a, b)) in PARTS.iter().enumerate() {
        let figures = figures.get(i);
        assert!(rt; told(view.part_summary(*d, *a, *b), figures), "part {i}");
        assert!(rt; told(sum_of_bytes(view, *d, *a, *b), figures), "bytes {i}");
        assert!(rt; told(sum_between(view, *d, *a, *b), figures), "between {i}");
    }
}

fn number_of<T: Copy>(answer: Result<T, Refusal>) -> u8 {
    match answer {
        Ok(_) => 0,
        Err(why) => why.number(),
    }
}

/// Asks about what is not there: parts, bytes, and documents. A refused copy writes nothing, and one for which there is just
/// room fills the buffer.
fn ask_in_vain<'v, M: Monoid>(rt: &impl Abort, view: View<'v, M>) {
    let mut out = [9; 4];
    for (d, a, b, number) in &NO_PARTS {
        assert_eq!(rt; number_of(view.part(*d, *a, *b)), *number);
        assert_eq!(rt; number_of(view.part_summary(*d, *a, *b)), *number);
        assert_eq!(rt; number_of(view.copy(*d, *a, *b, &mut out)), *number);
    }
    assert_eq!(rt; number_of(view.copy(7, 0, 5, &mut out)), 8);
    assert_eq!(rt; out, [9; 4]);
    assert_eq!(rt; view.copy(1, 0, 4, &mut out), Ok(4));
    assert_eq!(rt; out, *b"mirr");
    assert_eq!(rt; number_of(view.document(12)), 5);
}

/// Asks about the documents, and what is not there.
pub(crate) fn ask<'v, K: Kind>(
    rt: &impl Abort,
    view: View<'v, K>,
    wanted: &Wanted<'_, K::Figures>,
) {
    ask_documents(rt, view, wanted.documents);
    ask_parts(rt, view, wanted.parts);
    ask_in_vain(rt, view);
}

/// Asks about the open draft.
pub(crate) fn ask_draft<'v, K: Kind>(
    rt: &impl Abort,
    view: View<'v, K>,
    id: DraftId,
    figures: &K::Figures,
) {
    let Ok(whole) = view.draft(id) else {
        panic!(rt; "the draft is strange")
    };
    assert!(rt; is_whole(whole, DRAFT, Some(figures)));
}

/// Asks about a draft that is none of this shelf's.
pub(crate) fn ask_strange<'v, M: Monoid>(rt: &impl Abort, view: View<'v, M>, id: DraftId) {
    assert_eq!(rt; number_of(view.draft(id)), 3);
}
