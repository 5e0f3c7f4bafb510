//! The questions of a marked shelf alone.
use refusal::Refusal;
use shelf_view::marked::Marked;
use shelf_view::sameness::Sameness;
use shelf_view::view::View;
use std::process::Abort;

/// Two documents with a place in each, how many bytes, and how they compare, or the refusal's number.
type Compared = (u32, usize, u32, usize, usize, Result<Sameness, u8>);

/// Document 1 stands in document 5 at place 100.
static COMPARED: [Compared; 12] = [
    (1, 0, 5, 100, 139, Ok(Sameness::Alike)),
    (1, 0, 5, 99, 139, Ok(Sameness::Different)),
    (1, 7, 5, 107, 6, Ok(Sameness::Alike)),
    (1, 7, 5, 107, 5, Ok(Sameness::Equal)),
    (1, 7, 5, 108, 5, Ok(Sameness::Different)),
    (2, 309, 5, 417, 0, Ok(Sameness::Equal)),
    (1, 1, 5, 100, 139, Err(6)),
    (1, 0, 5, 279, 139, Err(6)),
    (1, 1, 5, 0, usize::MAX, Err(6)),
    (1, 0, 5, 1, usize::MAX, Err(6)),
    (12, 0, 5, 418, 0, Err(5)),
    (1, 140, 12, 0, 0, Err(5)),
];

fn compare<'v>(rt: &impl Abort, view: View<'v, Marked>) {
    for (i, (d, a, e, b, n, wanted)) in COMPARED.iter().enumerate() {
        let answer = view.same(*d, *a, *e, *b, *n);
        assert_eq!(rt; answer.map_err(Refusal::number), *wanted, "comparison {i}");
    }
}

/// A document and two places, a fingerprint, and the window, or the refusal's number.
type Back = (u32, usize, usize, &'static [u8], Result<&'static [u8], u8>);

/// Fingerprints of document 5 with its bytes from 120 to 123 replaced: by four bytes, by none, by five, by six; and its own.
static BACK: [Back; 10] = [
    (
        5,
        120,
        123,
        b"14a267f636437b87755c05cb7d4854f7",
        Ok(b"old!"),
    ),
    (5, 120, 123, b"39fe14d7239f18ba6a34f67e101a48d4", Ok(b"")),
    (
        5,
        120,
        123,
        b"77143e5c7b2bccc20cbc573d72288213",
        Ok(b"\xff\xfe\x01ab"),
    ),
    (5, 120, 123, b"516b8a54094827dd460fb3415a773b93", Err(10)),
    (5, 120, 123, b"3c99990d32de1c9463647b8a0b1fd97a", Ok(b".ne")),
    (
        5,
        119,
        124,
        b"3c99990d32de1c9463647b8a0b1fd97a",
        Ok(b"e.net"),
    ),
    (5, 120, 123, b"3C99990d32de1c9463647b8a0b1fd97a", Err(9)),
    (5, 120, 123, b"3c99990d32de1c9463647b8a0b1fd97b", Err(9)),
    (5, 120, 418, b"3c99990d32de1c9463647b8a0b1fd97a", Err(6)),
    (12, 120, 123, b"3c99990d32de1c9463647b8a0b1fd97a", Err(5)),
];

/// Whether the window is read back into a buffer of nines, whose other bytes stay, or refused with nothing written.
fn reads_back<'v>(view: View<'v, Marked>, row: &Back) -> bool {
    let (d, a, b, digits, wanted) = row;
    let mut out = [9; 8];
    let answer = view.read_back(*d, *a, *b, digits, &mut out);
    match (answer, wanted) {
        (Ok(n), Ok(window)) => {
            n == window.len()
                && out
                    .strip_prefix(*window)
                    .is_some_and(|rest| rest.iter().all(|b| *b == 9))
        }
        (Err(why), Err(number)) => why.number() == *number && out == [9; 8],
        _ => false,
    }
}

fn read_back<'v>(rt: &impl Abort, view: View<'v, Marked>) {
    for (i, row) in BACK.iter().enumerate() {
        assert!(rt; reads_back(view, row), "read-back {i}");
    }
    let small = view.read_back(5, 120, 123, b"", &mut [9; 4]);
    assert_eq!(rt; small, Err(Refusal::SmallBuffer));
}

/// Asks how documents compare, and for windows.
pub(crate) fn ask_marked<'v>(rt: &impl Abort, view: View<'v, Marked>) {
    compare(rt, view);
    read_back(rt, view);
}
