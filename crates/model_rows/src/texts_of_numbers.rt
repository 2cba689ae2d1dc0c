//! Numbers, cut texts, and points as texts.
use std::test::Fail;
use texts::{
    Chance, Score, SignedScore, cut, first_line, number_of, point_at, signed_at, small, value_of,
};

#[test]
fn reads_numbers(rt: HostRuntime) {
    let texts: [(&str, Option<u64>); 9] = [
        ("0", Some(0)),
        ("907", Some(907)),
        ("18446744073709551615", Some(18_446_744_073_709_551_615)),
        ("18446744073709551616", None),
        ("00", None),
        ("07", None),
        ("", None),
        ("+1", None),
        ("1 ", None),
    ];
    for (text, n) in texts {
        assert_eq!(rt; small(text.as_bytes()), n, "at {text}");
    }
    let most = 99_999_999_999_999_999_999_999_999_999_999_999_999;
    let nines = b"99999999999999999999999999999999999999";
    assert_eq!(rt; number_of(nines), Some(most));
    assert_eq!(rt; number_of(b"100000000000000000000000000000000000000"), None);
    assert_eq!(rt; (value_of(b"007"), value_of(b"7.")), (Some(7), None));
}

#[test]
fn cuts_texts(rt: HostRuntime) {
    let (front, rest) = cut(b"a|b|c", b'|');
    assert_eq!(rt; front, "a".as_bytes());
    assert_eq!(rt; rest, "b|c".as_bytes());
    let (whole, nothing) = cut(b"abc", b'|');
    assert_eq!(rt; whole, "abc".as_bytes());
    assert_eq!(rt; nothing, "".as_bytes());
    let lines = first_line(b"\nb\n");
    assert_eq!(rt; lines.is_some(), true);
    if let Some((line, rest)) = lines {
        assert_eq!(rt; line, "".as_bytes());
        assert_eq!(rt; rest, "b\n".as_bytes());
    }
    assert_eq!(rt; first_line(b"end").is_none(), true);
}

#[test]
fn reads_points(rt: HostRuntime) {
    let texts: [(&str, Option<i128>, &str); 7] = [
        ("1.000000000000", Some(1_000_000_000_000), ""),
        ("-1.000000000000", Some(-1_000_000_000_000), ""),
        ("-0.100000000000..0.1", Some(-100_000_000_000), "..0.1"),
        ("-0.000000000000", None, ""),
        ("0.000000000000", Some(0), ""),
        ("--1.000000000000", None, ""),
        ("-1.00000000000", None, ""),
    ];
    for (text, units, rest) in texts {
        let found = signed_at(text.as_bytes(), 12);
        assert_eq!(rt; found.is_some(), units.is_some(), "at {text}");
        if let (Some((found, tail)), Some(units)) = (found, units) {
            assert_eq!(rt; found, units, "at {text}");
            assert_eq!(rt; tail, rest.as_bytes(), "at {text}");
        }
    }
    assert_eq!(rt; point_at(b"-1.000000000", 9).is_none(), true);
}

#[test]
fn prints_points(rt: HostRuntime) -> Result<(), Fail> {
    let score = Score {
        units: 2_000_000_000_034,
    };
    let chance = Chance {
        units: 1_000_000_000,
    };
    let text = format!(in rt.alloc(); "{score}|{chance}")?;
    assert_eq!(rt; text.as_str(), "2.000000000034|1.000000000");
    let low = SignedScore { units: -1 };
    let none = SignedScore { units: 0 };
    let text = format!(in rt.alloc(); "{low}|{none}")?;
    assert_eq!(rt; text.as_str(), "-0.000000000001|0.000000000000");
    Ok(())
}
