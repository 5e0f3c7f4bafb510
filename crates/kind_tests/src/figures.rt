//! What each kind tells of the documents, of the parts and of the draft, by its formula over their bytes.
use crate::kind::Kind;
use byte_range::range::ByteRange;
use monoid::karp_rabin::KarpRabin;
use monoid::line_column::LineColumn;
use shelf_view::marked::Marked;

/// The figures of each document and part, and of the draft before its seal.
pub(crate) struct Wanted<'w, F> {
    pub(crate) documents: &'w [F],
    pub(crate) parts: &'w [F],
    pub(crate) draft: F,
}

pub(crate) static LINES: Wanted<'static, <LineColumn as Kind>::Figures> = Wanted {
    documents: &[
        (0, 0),
        (4, 36),
        (17, 75),
        (16, 66),
        (15, 56),
        (19, 75),
        (34, 75),
        (50, 66),
        (32, 1),
        (1, 1),
        (5, 3),
        (0, 0),
    ],
    parts: &[
        (0, 0),
        (3, 17),
        (0, 2),
        (6, 9),
        (19, 18),
        (50, 65),
        (0, 1),
        (2, 39),
    ],
    draft: (5, 3),
};

pub(crate) static ROLLING: Wanted<'static, <KarpRabin as Kind>::Figures> = Wanted {
    documents: &[
        (0, 1, 1),
        (1939646123, 1260973671, 1781956381),
        (1532744541, 1502883016, 1969821526),
        (1772547581, 1796198014, 1904464630),
        (473849040, 1105222769, 309578541),
        (903762124, 151687230, 2027524866),
        (323781222, 1114057121, 86202708),
        (1348175692, 624917313, 1036598841),
        (1099836788, 1356701299, 1942887387),
        (1720248352, 143542612, 1118597219),
        (2020731514, 784559590, 979065440),
        (0, 1, 1),
    ],
    parts: &[
        (0, 1, 1),
        (146679150, 1908194298, 940032459),
        (806845, 282475249, 1475608308),
        (1289491770, 881140534, 224097996),
        (1983055024, 463482574, 36922127),
        (1590210195, 739712623, 1582501463),
        (116, 16807, 1407677000),
        (2116195391, 997389814, 154510096),
    ],
    draft: (2020731514, 784559590, 979065440),
};

pub(crate) static MARKS: Wanted<'static, <Marked as Kind>::Figures> = Wanted {
    documents: &[
        (b"00000001000000000000000000000001", 0, 0),
        (b"421e625d0dc2b49b1b15f01a5b543231", 4, 36),
        (b"731367130177c348430219fe22e6f159", 17, 75),
        (b"2e632fff63a84d1a14f8ea251da5e767", 16, 66),
        (b"66df228d031d09d0344f302a7e66f066", 15, 56),
        (b"3c99990d32de1c9463647b8a0b1fd97a", 19, 75),
        (b"60fd317b438c53450aa9e1407c6d7713", 34, 75),
        (b"194f67ed2f8b7c2264a4152321dcaac8", 50, 66),
        (b"0bbbb3aa1e8997133723a639786e1979", 32, 1),
        (b"753418022df9a00e1b05cc620f80ea62", 1, 1),
        (b"0d0ba69c2e91fa193e48e54146286ddc", 5, 3),
        (b"00000001000000000000000000000001", 0, 0),
    ],
    parts: &[
        (b"00000001000000000000000000000001", 0, 0),
        (b"5f4f828866626a3c1e04cbca6f73c2d4", 3, 17),
        (b"00000125000002b50000007300000110", 0, 2),
        (b"6f989b1138933d7546c60f0c349beeda", 6, 9),
        (b"422966974896aa725a79c33350add836", 19, 18),
        (b"487a82811682b92411c5564464fa6d5c", 50, 65),
        (b"00000016000000090000001100000007", 0, 1),
        (b"3e455a08701387fc0c8f53b40c9ed4b1", 2, 39),
    ],
    draft: (b"0d0ba69c2e91fa193e48e54146286ddc", 5, 3),
};

pub(crate) static RANGES: Wanted<'static, <ByteRange as Kind>::Figures> = Wanted {
    documents: &[
        (255, 0),
        (10, 120),
        (10, 255),
        (10, 195),
        (10, 195),
        (10, 255),
        (10, 255),
        (10, 255),
        (10, 255),
        (10, 195),
        (1, 126),
        (255, 0),
    ],
    parts: &[
        (255, 0),
        (10, 120),
        (47, 108),
        (10, 121),
        (10, 195),
        (10, 255),
        (115, 115),
        (1, 126),
    ],
    draft: (1, 126),
};
