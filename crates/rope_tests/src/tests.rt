//! Trees, run.

use monoid::Monoid;
use monoid::fold::fold;
use monoid::karp_rabin::{KarpRabin, KarpRabinRow};
use monoid::line_column::LineColumn;
use monoid::pair::Pair;
use rope::record::{Record, Root};
use rope::store::Store;
use rope_cut::{cut, splice};
use rope_keep::{keep, lengthen, take_part};
use rope_read::whole::Whole;

/// Whether `text` is the text at `root`.
fn holds<'b, 'a, M: Monoid>(store: &Store<'b, 'a, M>, root: Root, text: &[u8]) -> bool {
    let here = Whole::new(store.view(), root).text();
    here.len() == text.len()
        && text
            .iter()
            .enumerate()
            .all(|(at, byte)| here.byte(at) == Ok(*byte))
}

/// Copies the text at `root` to the start of `out`, where it fits.
fn copies<'b, 'a, M: Monoid>(store: &Store<'b, 'a, M>, root: Root, out: &mut [u8]) -> bool {
    Whole::new(store.view(), root).text().copy(out).is_ok()
}

/// Whether the part `a` to `b` of the text at `root` has the summary of `text`.
fn sums_as<'b, 'a>(
    store: &Store<'b, 'a, Pair<LineColumn, KarpRabin>>,
    root: Root,
    a: usize,
    b: usize,
    text: &[u8],
) -> bool {
    let Ok(part) = Whole::new(store.view(), root).text().part(a, b) else {
        return false;
    };
    let told = part.summary().to_row();
    let value: Pair<LineColumn, KarpRabin> = fold(text);
    let row = value.to_row();
    told.first == row.first && told.second.h == row.second.h
}

const LINE: LineColumn = LineColumn {
    lines: 0,
    columns: 0,
};

const MARKED: Pair<LineColumn, KarpRabinRow> = Pair {
    first: LINE,
    second: KarpRabinRow { h: 0, w: 1, v: 1 },
};

#[test]
fn adds_and_cuts(rt: HostRuntime) {
    let build = [0u8; 1];
    let mut added = [0u8; 16];
    let mut records = [Record::blank(LINE); 600];
    let mut store: Store<LineColumn> = Store::new(&build, &mut added, &mut records);
    let short = keep(&mut store, b"one\n");
    let long = lengthen(&mut store, short, b"two");
    let part = cut(&mut store, long, 2, 6);
    assert!(rt; holds(&store, long, b"one\ntwo"));
    assert!(rt; holds(&store, part, b"e\ntw"));
    let mut out = [9u8; 5];
    assert!(rt; copies(&store, part, &mut out));
    assert!(rt; out[0] == b'e' && out[3] == b'w' && out[4] == 9);
}

#[test]
fn splices_a_text_into_itself(rt: HostRuntime) {
    let mut build = [10u8; 640];
    build[99] = 1;
    build[100] = 2;
    build[320] = 3;
    build[639] = 4;
    let mut added = [0u8; 1];
    let mut records = [Record::blank(MARKED); 300];
    let mut store: Store<Pair<LineColumn, KarpRabin>> = Store::new(
        &build,
        &mut added,
        &mut records,
    );
    let text = take_part(&mut store, 0, 640);
    let twice = splice(&mut store, text, 100, 200, text);
    assert!(rt; holds(&store, text, &build));
    assert!(rt; sums_as(&store, twice, 0, 100, &build[0..100]));
    assert!(rt; sums_as(&store, twice, 100, 740, &build));
    assert!(rt; sums_as(&store, twice, 740, 1180, &build[200..640]));
    assert!(rt; !sums_as(&store, twice, 99, 739, &build));
}

// A root beyond the records that are used, also of those that are lent, counts as that of the empty text.
#[test]
fn takes_any_root(rt: HostRuntime) {
    let mut added = [0u8; 4];
    let mut records = [Record::blank(LINE); 40];
    let mut store: Store<LineColumn> = Store::new(b"", &mut added, &mut records);
    let text = keep(&mut store, b"one\n");
    assert!(rt; holds(&store, text, b"one\n"));
    for root in [None, Some(1), Some(39), Some(40), Some(u32::MAX)] {
        let whole = Whole::new(store.view(), root);
        assert!(rt; holds(&store, root, b""));
        assert_eq!(rt; (whole.len(), whole.height()), (0, 0));
        assert_eq!(rt; whole.summary(), LINE);
    }
}
