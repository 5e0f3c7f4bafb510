//! The summaries that are told, of a shelf that keeps every one: a pair of two shelves' monoids.
use crate::figures::TOLD;
use crate::lists::BARE;
use crate::reach::{Lent, begin, end, reach_one};
use crate::texts::BUILD;
use monoid::Monoid;
use monoid::karp_rabin::KarpRabin;
use monoid::pair::Pair;
use refusal::Refusal;
use rope::record::Record;
use shelf_promise::told;
use shelf_view::marked::Marked;
use text_shelf::shelf::Shelf;

/// All that the shelves with names keep of a text.
pub(crate) type All = Pair<Marked, KarpRabin>;

/// The fingerprint's digits, lines and columns, and h, w and v.
pub(crate) type Figures = (&'static [u8; 32], u32, u32, u32, u32, u32);

/// A document, or a part of one.
#[derive(Clone, Copy)]
pub(crate) enum Ask {
    Document(u32),
    Part(u32, usize, usize),
}

fn has(value: All, figures: Figures) -> bool {
    let (digits, lines, columns, h, w, v) = figures;
    let (here, rolling) = (value.first.second, value.second.to_row());
    value.first.first.to_hex() == *digits
        && (here.lines, here.columns) == (lines, columns)
        && (rolling.h, rolling.w, rolling.v) == (h, w, v)
}

/// Whether the answer is the value with these figures, or the refusal of this number.
pub(crate) fn is_told(answer: Result<All, Refusal>, wanted: Result<Figures, u8>) -> bool {
    match (answer, wanted) {
        (Ok(value), Ok(figures)) => has(value, figures),
        (Err(why), Err(number)) => why.number() == number,
        _ => false,
    }
}

fn tell<'b, 'a, M: Monoid>(shelf: &Shelf<'b, 'a, M>, ask: Ask) -> Result<M, Refusal> {
    match ask {
        Ask::Document(d) => told::summary(shelf, d),
        Ask::Part(d, a, b) => told::part_summary(shelf, d, a, b),
    }
}

/// The first question that is answered otherwise.
fn wrong<'b, 'a>(
    shelf: &Shelf<'b, 'a, All>,
    table: &[(Ask, Result<Figures, u8>)],
) -> Option<usize> {
    table
        .iter()
        .position(|(ask, wanted)| !is_told(tell(shelf, *ask), *wanted))
}

#[test]
fn summaries_are_told(rt: HostRuntime) {
    let mut added = [0; 40];
    let mut records = [Record::blank(All::empty().to_row()); 600];
    let mut places = [None; 9];
    let shelf: Shelf<All> = reach_one(&rt, &mut added, &mut records, &mut places);
    told::calls(&shelf);
    assert_eq!(rt; wrong(&shelf, &TOLD), None);
}

const NONE: Figures = (b"00000001000000000000000000000001", 0, 0, 0, 1, 1);

static TOLD_BARE: [(Ask, Result<Figures, u8>); 5] = [
    (Ask::Document(0), Ok(NONE)),
    (Ask::Document(1), Ok(NONE)),
    (Ask::Document(2), Err(5)),
    (Ask::Part(1, 0, 0), Ok(NONE)),
    (Ask::Part(1, 0, 1), Err(6)),
];

#[test]
fn a_bare_shelf_is_told(rt: HostRuntime) {
    let mut places = [None; 1];
    let lent = Lent {
        build: BUILD,
        added: &mut [],
        records: &mut [],
        places: &mut places,
        mark: 7,
    };
    let (mut shelf, draft) = begin(&rt, lent, &BARE);
    end(&rt, &mut shelf, draft);
    assert_eq!(rt; wrong(&shelf, &TOLD_BARE), None);
}
