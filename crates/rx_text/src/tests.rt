//! Texts whose lines, words, numerals and names are known.
use super::*;

#[test]
fn numerals(rt: HostRuntime) {
    let rows: [(&[u8], Option<Numeral>); 9] = [
        (b"0", Some(Numeral::Word(0))),
        (
            b"18446744073709551615",
            Some(Numeral::Word(18446744073709551615)),
        ),
        (b"18446744073709551616", Some(Numeral::Beyond)),
        (b"100000000000000000000", Some(Numeral::Beyond)),
        (b"", None),
        (b"00", None),
        (b"07", None),
        (b"+7", None),
        (b"7a", None),
    ];
    for (text, number) in rows {
        assert_eq!(rt; Numeral::of(text), number);
    }
    assert_eq!(rt; number_below(b"255", 256), Ok(255));
    assert_eq!(rt; number_below(b"256", 256), Err(LineCause::Number));
    assert_eq!(rt; number_below(b"0256", 256), Err(LineCause::Form));
}

#[test]
fn lines_and_words(rt: HostRuntime) {
    let mut lines = Lines::of(b"int a 8 200\n\nend");
    let line = lines.next_line().expect(&rt, "a first line");
    assert!(rt;
        four_words(line).is_some_and(|w| w.1 == b"a".as_slice() && w.3 == b"200".as_slice())
    );
    assert!(rt; two_words(line).is_none());
    let empty = lines.next_line().expect(&rt, "an empty line");
    assert_eq!(rt; empty.len(), 0);
    assert!(rt; lines.next_line().is_none());
    assert!(rt; !lines.is_done());
    assert!(rt;
        two_words(b"lwe_dim 8").is_some_and(|w| w.0 == b"lwe_dim".as_slice()
            && w.1 == b"8".as_slice())
    );
}

#[test]
fn names(rt: HostRuntime) {
    let name = Name::of(b"in_2").expect(&rt, "a name");
    let copy = name;
    assert!(rt; copy == name);
    assert!(rt; Name::of(b"in_3") != Some(name));
    assert_eq!(rt; name.as_str(), "in_2");
    assert!(rt; Name::of(b"abcdefghijklmnopqrstuvwxyz012345").is_some());
    for text in [
        b"".as_slice(),
        b"2in",
        b"in-2",
        b"In",
        b"abcdefghijklmnopqrstuvwxyz0123456",
    ] {
        assert!(rt; Name::of(text).is_none());
    }
}
