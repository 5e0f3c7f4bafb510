//! What is told of the texts, by the formulas over their bytes, reckoned apart from the code.
use crate::marks::{Compared, Window};
use crate::summaries::{Ask, Figures};

// Fingerprints of the documents of the one list of strings, by their numbers, and of document 3 of the other. Document 9 is
// document 3 again, as is document 1 of the other.
pub(crate) const DIGITS_EMPTY: &[u8; 32] = b"00000001000000000000000000000001";

pub(crate) const DIGITS_1: &[u8; 32] = b"3e8b23940d1cd49c7b7ea47b0eedad76";

pub(crate) const DIGITS_2: &[u8; 32] = b"00014e35000103390000906b00007004";

pub(crate) const DIGITS_3: &[u8; 32] = b"225ba45324671d9256d0e6b50ef21b43";

pub(crate) const DIGITS_4: &[u8; 32] = b"08b0a9181ab64e2538831fde1037124d";

pub(crate) const DIGITS_5: &[u8; 32] = b"251e9876494ca22f2871a9f4384ae314";

pub(crate) const DIGITS_6: &[u8; 32] = b"3e4d36281948a90b6e383271002e53cf";

pub(crate) const DIGITS_7: &[u8; 32] = b"3e2542416d1b4a986d85413b3d49f4ff";

pub(crate) const DIGITS_8: &[u8; 32] = b"26359c6c0585e03b3b77f23c302b3969";

pub(crate) const DIGITS_OTHER_3: &[u8; 32] = b"66a4cfb313d5ed2d111efa4731478f82";

/// Of the documents and parts of the one list of strings.
pub(crate) static TOLD: [(Ask, Result<Figures, u8>); 25] = [
    (Ask::Document(0), Ok((DIGITS_EMPTY, 0, 0, 0, 1, 1))),
    (
        Ask::Document(1),
        Ok((DIGITS_1, 7, 14, 833220017, 832633821, 865436738)),
    ),
    (
        Ask::Document(2),
        Ok((DIGITS_2, 0, 4, 1106600708, 984943658, 361797696)),
    ),
    (
        Ask::Document(3),
        Ok((DIGITS_3, 7, 14, 37670565, 832633821, 865436738)),
    ),
    (
        Ask::Document(4),
        Ok((DIGITS_4, 7, 14, 2061876044, 1400285365, 118325526)),
    ),
    (
        Ask::Document(5),
        Ok((DIGITS_5, 2, 0, 1653778374, 823378840, 1191613895)),
    ),
    (
        Ask::Document(6),
        Ok((DIGITS_6, 9, 14, 1620787783, 996497972, 2081357974)),
    ),
    (
        Ask::Document(7),
        Ok((DIGITS_7, 2, 11, 1232078519, 937186357, 21478616)),
    ),
    (
        Ask::Document(8),
        Ok((DIGITS_8, 5, 14, 117497894, 1351934195, 714412905)),
    ),
    (
        Ask::Document(9),
        Ok((DIGITS_3, 7, 14, 37670565, 832633821, 865436738)),
    ),
    (Ask::Document(10), Err(5)),
    (Ask::Document(u32::MAX), Err(5)),
    (Ask::Part(0, 0, 0), Ok((DIGITS_EMPTY, 0, 0, 0, 1, 1))),
    (
        Ask::Part(1, 10, 130),
        Ok((
            b"6597aa2d7d282a832960d4e31f340cde",
            7,
            8,
            1768952835,
            280090412,
            940495685,
        )),
    ),
    (
        Ask::Part(3, 45, 51),
        Ok((
            b"00dc85f9016b0961004c93f5007e1106",
            1,
            0,
            530605391,
            470211272,
            1483866096,
        )),
    ),
    (
        Ask::Part(5, 5, 15),
        Ok((
            b"0aa23e306396fab977dcab135b148e1b",
            1,
            3,
            1990512050,
            2007237709,
            39655793,
        )),
    ),
    (
        Ask::Part(6, 40, 90),
        Ok((
            b"2113e02476d467061ab7266b0e2c6e00",
            3,
            24,
            118469598,
            937186357,
            21478616,
        )),
    ),
    (Ask::Part(6, 151, 151), Ok((DIGITS_EMPTY, 0, 0, 0, 1, 1))),
    (
        Ask::Part(9, 63, 65),
        Ok((
            b"0000020c000000990000018300000071",
            0,
            2,
            1882488,
            282475249,
            1475608308,
        )),
    ),
    (
        Ask::Part(8, 0, 86),
        Ok((DIGITS_8, 5, 14, 117497894, 1351934195, 714412905)),
    ),
    (Ask::Part(10, 1, 0), Err(5)),
    (Ask::Part(u32::MAX, 0, 0), Err(5)),
    (Ask::Part(6, 9, 8), Err(6)),
    (Ask::Part(2, 0, 5), Err(6)),
    (Ask::Part(4, usize::MAX, usize::MAX), Err(6)),
];

/// Of a document of the one and one of the other.
pub(crate) static OF_TWO: [Compared; 9] = [
    (1, 1, Ok((DIGITS_1, DIGITS_3))),
    (3, 1, Ok((DIGITS_3, DIGITS_3))),
    (9, 1, Ok((DIGITS_3, DIGITS_3))),
    (4, 3, Ok((DIGITS_4, DIGITS_OTHER_3))),
    (0, 4, Ok((DIGITS_EMPTY, DIGITS_EMPTY))),
    (7, 0, Ok((DIGITS_7, DIGITS_EMPTY))),
    (10, 1, Err(5)),
    (1, 5, Err(5)),
    (10, 5, Err(5)),
];

/// Of two documents of the one.
pub(crate) static OF_ONE: [Compared; 6] = [
    (1, 3, Ok((DIGITS_1, DIGITS_3))),
    (3, 9, Ok((DIGITS_3, DIGITS_3))),
    (9, 3, Ok((DIGITS_3, DIGITS_3))),
    (0, 0, Ok((DIGITS_EMPTY, DIGITS_EMPTY))),
    (2, 5, Ok((DIGITS_2, DIGITS_5))),
    (3, 10, Err(5)),
];

/// Fingerprints that windows in documents of the one give.
pub(crate) static WINDOWS: [Window; 13] = [
    (3, 46, 50, DIGITS_1, Ok(b"8080")),
    (1, 46, 50, DIGITS_4, Ok(b"")),
    (4, 46, 46, DIGITS_3, Ok(b"8081")),
    (1, 46, 50, b"0d3463c637d142d06300ab0362876f2e", Ok(b"65536")),
    (
        6,
        58,
        59,
        b"5ecaab317a4cd1e35ff45a2a497164af",
        Ok(b"\x00\xff"),
    ),
    (9, 46, 46, DIGITS_3, Ok(b"")),
    (0, 0, 0, b"00000169000002300000004e00000079", Ok(b"\nz")),
    (1, 46, 50, b"1759dd213c5ad89d16abc700639d4580", Err(10)),
    (3, 46, 50, b"3E8B23940D1CD49C7B7EA47B0EEDAD76", Err(9)),
    (3, 46, 50, b"3e8b23940d1cd49c7b7ea47b0eedad77", Err(9)),
    (3, 46, 50, b"3e8b23940d1cd49c7b7ea47b0eedad7", Err(9)),
    (3, 50, 46, b"", Err(6)),
    (10, 1, 0, b"", Err(5)),
];
