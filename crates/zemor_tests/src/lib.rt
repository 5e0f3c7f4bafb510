//! Examples of the fingerprint, run.
#![tactic(auto)]

#[cfg(test)]
mod tests {
    use monoid::Monoid;
    use monoid::karp_rabin::{KarpRabin, KarpRabinRow, text};
    use monoid::pair::Pair;
    use refusal::Refusal;
    use zemor::matrix::{Entries, Sl2};
    use zemor::peel::ops::peel;
    use zemor::text::fingerprint;
    use zemor::window::ops::read_back;

    const AA: Entries = Entries {
        a: 399,
        b: 325,
        c: 275,
        d: 224,
    };

    // The library keeps p to itself, and a test writes its numbers out.
    const P: u32 = 2147483647;

    // Whether reading back between `front` and `back` tells just `window`.
    fn tells(front: &[u8], wanted: Entries, back: &[u8], window: &[u8]) -> bool {
        let whole = Sl2::from_row(wanted);
        let told = read_back(fingerprint(front), whole, fingerprint(back));
        told.is_ok_and(|w| w.as_slice() == window)
    }

    // Whether reading back between `front` and `back` finds no window.
    fn tells_none(front: &[u8], wanted: Entries, back: &[u8]) -> bool {
        let whole = Sl2::from_row(wanted);
        read_back(fingerprint(front), whole, fingerprint(back)).is_err_and(|e| e
            == Refusal::NoWindow)
    }

    // The word and the length of the bits that are told.
    fn peeled(e: Entries) -> Option<(u64, u32)> {
        peel(Sl2::from_row(e)).map(|s| (s.word, s.len))
    }

    fn read(text: &[u8]) -> Result<Entries, Refusal> {
        Sl2::from_hex(text).map(|x| x.to_row())
    }

    // Whether h and w of Karp and Rabin's fingerprint of `bytes` are these, and v is the inverse of w.
    fn rolls(bytes: &[u8], h: u32, w: u32) -> bool {
        let row = text::fingerprint(bytes).to_row();
        row.h == h && row.w == w && row.w as u64 * row.v as u64 % P as u64 == 1
    }

    #[test]
    fn rolls_over_texts(rt: HostRuntime) {
        assert!(rt; rolls(b"", 0, 1));
        assert!(rt; rolls(&[0], 1, 16807));
        assert!(rt; rolls(b"a", 98, 16807));
        assert!(rt; rolls(b"ab", 98 * 16807 + 99, 282475249));
        assert!(rt; rolls(b"ba", 1663991, 282475249));
        assert!(rt; rolls(b"port=8080;\n", 445689513, 823564440));
        assert!(rt;
            rolls(
                b"the quick brown fox jumps over the lazy dog",
                1283233466,
                1551901393,
            )
        );
        assert!(rt; rolls(&[255; 1000], 1818098871, 522329230));
    }

    #[test]
    fn turns_rows_of_no_value_into_the_empty_value(rt: HostRuntime) {
        let good = fingerprint(b"ab").to_row();
        let bad = Entries {
            d: good.d + 1,
            ..good
        };
        assert!(rt; Sl2::check_row(good).is_some_and(|x| x.to_row() == good));
        assert!(rt; Sl2::check_row(bad).is_none());
        assert_eq!(rt; Sl2::from_row(bad), Sl2::empty());
        // of a pair, one such half is enough
        let half = Pair {
            first: good,
            second: KarpRabinRow { h: P, w: 1, v: 1 },
        };
        assert!(rt; Pair::<Sl2, KarpRabin>::check_row(half).is_none());
        let empty = Pair::<Sl2, KarpRabin>::from_row(half).to_row();
        assert_eq!(rt; empty.first, Entries::IDENTITY);
        assert_eq!(rt; (empty.second.h, empty.second.w), (0, 1));
    }

    // Rows that are no values' are joined by the same formula, whatever their numbers.
    #[test]
    fn joins_any_rows(rt: HostRuntime) {
        let most = Entries {
            a: u32::MAX,
            b: u32::MAX,
            c: u32::MAX,
            d: u32::MAX,
        };
        let two = Entries {
            a: 2,
            b: 2,
            c: 2,
            d: 2,
        };
        assert_eq!(rt; Sl2::join_rows(most, most), two);
    }

    #[test]
    fn reads_back(rt: HostRuntime) {
        assert!(rt;
            tells(b"a", AA, b"", b"a"),
            "the second byte of ab was written as a"
        );
        assert!(rt;
            tells(b"", Entries::IDENTITY, b"", b""),
            "the whole of ab was taken away"
        );
        assert!(rt;
            tells_none(b"a", Entries::IDENTITY, b""),
            "no window undoes the first byte"
        );
        assert!(rt;
            tells(
                b"lease=",
                fingerprint(b"lease=86400;").to_row(),
                b";",
                b"86400",
            )
        );
        assert!(rt; tells_none(b"lease=", fingerprint(b"lease=864000;").to_row(), b";"));
    }

    #[test]
    fn peels(rt: HostRuntime) {
        assert_eq!(rt; peeled(Entries::IDENTITY), Some((0, 0)));
        let bit_one = Entries {
            a: 1,
            b: 0,
            c: 1,
            d: 1,
        };
        assert_eq!(rt; peeled(bit_one), Some((1, 1)));
        assert_eq!(rt; peeled(AA), Some((97 * 256 + 97, 16)));
    }

    #[test]
    fn reads_digits(rt: HostRuntime) {
        let ab = fingerprint(b"ab");
        assert!(rt; ab.to_hex().as_slice() == b"0000014500000240000000e00000018d".as_slice());
        assert_eq!(rt; read(b"0000014500000240000000e00000018d"), Ok(ab.to_row()));
        assert_eq!(rt;
            read(b"0000014500000240000000E00000018d"),
            Err(Refusal::BadFingerprint),
            "an upper-case digit"
        );
        assert_eq!(rt;
            read(b"0000014500000240000000e00000018"),
            Err(Refusal::BadFingerprint),
            "31 digits"
        );
        assert_eq!(rt;
            read(b"0000014500000240000000e00000018d0"),
            Err(Refusal::BadFingerprint),
            "33 digits"
        );
        assert_eq!(rt;
            read(b"0000014500000240000000e00000018e"),
            Err(Refusal::BadFingerprint),
            "another determinant"
        );
        assert_eq!(rt;
            read(b"7fffffff000000017ffffffe00000000"),
            Err(Refusal::BadFingerprint),
            "an entry p"
        );
        let edge = Entries {
            a: 0,
            b: 1,
            c: P - 1,
            d: 0,
        };
        assert_eq!(rt; read(b"00000000000000017ffffffe00000000"), Ok(edge));
    }
}
