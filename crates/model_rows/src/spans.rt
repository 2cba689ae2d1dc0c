//! Spans: as texts, mixed, and compared.
use fixed_span::{Span, Verdict, compare, mix, push_span, read_span, span_text};
use std::test::Fail;

const MOST: i128 = 10_000_000_000_000_000_000_000_000_000_000_000_000;

#[test]
fn reads_what_it_writes(rt: HostRuntime) -> Result<(), Fail> {
    let spans = [
        (Span { lo: 0, hi: 0 }, 12, "0.000000000000"),
        (
            Span {
                lo: 1,
                hi: 2_000_000_000_000,
            },
            12,
            "0.000000000001..2.000000000000",
        ),
        (
            Span {
                lo: 999_999_999,
                hi: 1_000_000_000,
            },
            9,
            "0.999999999..1.000000000",
        ),
        (
            Span { lo: MOST, hi: MOST },
            12,
            "10000000000000000000000000.000000000000",
        ),
    ];
    for (span, decimals, text) in spans {
        let bytes = span_text(rt.alloc(), span, decimals)?;
        assert_eq!(rt; bytes.as_slice(), text.as_bytes());
        assert_eq!(rt; read_span(bytes.as_slice(), decimals), Some(span));
    }
    let mut line = String::from_str(rt.alloc(), "score|")?;
    push_span(&mut line, &Span { lo: 5, hi: 6 }, 9)?;
    assert_eq!(rt; line.as_str(), "score|0.000000005..0.000000006");
    Ok(())
}

#[test]
fn reads_no_other_text(rt: HostRuntime) {
    let texts = [
        "",
        "1",
        "1.0",
        "00.000000000",
        "-1.000000000",
        "1.0000000000",
        "1.000000000.",
        "1.000000000..",
        "1.000000000..1.000000000",
        "1.000000000..0.999999999",
        "1.000000000..2.00000000",
        "1.000000000..2.000000000 ",
        "10000000000000000000000000000.000000001",
    ];
    for text in texts {
        assert_eq!(rt; read_span(text.as_bytes(), 9), None, "at {text}");
    }
}

#[test]
fn mixes_outward(rt: HostRuntime) {
    let spans = [
        Span { lo: 10, hi: 11 },
        Span { lo: -7, hi: -7 },
        Span { lo: 0, hi: 3 },
        Span { lo: 1, hi: 1 },
    ];
    assert_eq!(rt; mix([1, 2, 3, 4], spans, 10), Span { lo: 0, hi: 1 });
    assert_eq!(rt; mix([0, 3, 0, 0], spans, 3), Span::point(-7));
    assert_eq!(rt; mix([0, 1, 1, 0], spans, 2), Span { lo: -4, hi: -2 });
    assert_eq!(rt; mix([0, 1, 0, 1], spans, 2), Span::point(-3));
    let sum = Span { lo: -1, hi: 2 }.add(Span { lo: 4, hi: 4 });
    assert_eq!(rt; sum, Span { lo: 3, hi: 6 });
}

#[test]
fn compares_spans(rt: HostRuntime) {
    let low = Span { lo: 1, hi: 2 };
    let high = Span { lo: 3, hi: 4 };
    let touching = Span { lo: 2, hi: 3 };
    assert_eq!(rt; compare(low, high), Verdict::Less);
    assert_eq!(rt; compare(high, low), Verdict::Greater);
    assert_eq!(rt; compare(low, touching), Verdict::Undecided);
    assert_eq!(rt; compare(low, low), Verdict::Undecided);
    assert_eq!(rt; compare(Span::point(2), Span::point(2)), Verdict::Level);
    assert_eq!(rt; compare(Span::point(2), low), Verdict::Undecided);
}
