//! Lines of reports against texts that were worked out by hand.
use report_lines::{line_of, push_line};
use std::test::Fail;

#[test]
fn reads_lines(rt: HostRuntime) -> Result<(), Fail> {
    let mut buffer = String::new(rt.alloc());
    for (text, is_line) in [
        ("axlab|1|match", true),
        ("axlab|1|matches", false),
        ("axlab|1|tournament", true),
        ("game|3|0|5|1|dilemma|yes", true),
        ("game|3|0|5|1|dilemma|no", false),
        ("game|3|0|1000001|1|dilemma|no", false),
        ("noise|1|100", true),
        ("noise|01|100", false),
        (
            "match|A|B|1|3.000000000000|3.000000000000|level|sure|1|1|1|0|0|0",
            true,
        ),
        (
            "match|A|B|2|3.000000000000|3.000000000000|level|sure|1|1|1|0|0|0",
            false,
        ),
        (
            "match|A|B|1|0.000000000001..0.500000000000|0.500000000001|right|mixed",
            true,
        ),
        ("entry|A|0.000000000000|1|0|0", true),
        ("entry|A|1.000000000000..2.500000000000|undecided|2|1", true),
        ("entry|A|0.000000000000|4294967296|0|0", false),
        ("entry|A|0.000000000000|1|00|0", false),
        ("end", true),
        ("end|", false),
        ("", false),
    ] {
        let found = line_of(&mut buffer, text.as_bytes())?;
        assert_eq!(rt; found.is_some(), is_line, "at {text}");
        if let Some(line) = found {
            let mut printed = String::new(rt.alloc());
            push_line(&mut printed, &line)?;
            assert_eq!(rt; printed.as_str(), text);
        }
    }
    Ok(())
}

#[test]
fn reads_heads_of_both_versions(rt: HostRuntime) -> Result<(), Fail> {
    let mut buffer = String::new(rt.alloc());
    for (text, is_line) in [
        ("axlab|1|drill", true),
        ("axlab|2|match", true),
        ("axlab|2|tournament", true),
        ("axlab|2|drill", false),
        ("axlab|0|match", false),
        ("axlab|3|match", false),
        ("axlab|02|match", false),
        ("game|2|-1|3|0|dilemma|yes", true),
        ("game|-3|-6|-1|-5|dilemma|yes", true),
        ("game|-3|-6|-1|-5|dilemma|no", false),
        ("game|-1000000|0|1000000|-1|dilemma|no", true),
        ("game|-1000001|0|5|1|dilemma|no", false),
        ("game|3|-0|5|1|dilemma|yes", false),
        ("game|3|-01|5|1|dilemma|no", false),
        ("game|3|+0|5|1|dilemma|yes", false),
        ("game|3|--1|5|1|dilemma|yes", false),
        ("own|A|0|1", true),
        ("own|win stay|500|1000", true),
        ("own|A|51|100", false),
        ("own|A|0|0", false),
        ("own|A|1", false),
        ("own|A|1|100|", false),
        ("own||0|1", false),
        ("own|A|-0|1", false),
    ] {
        let found = line_of(&mut buffer, text.as_bytes())?;
        assert_eq!(rt; found.is_some(), is_line, "at {text}");
        if let Some(line) = found {
            let mut printed = String::new(rt.alloc());
            push_line(&mut printed, &line)?;
            assert_eq!(rt; printed.as_str(), text);
        }
    }
    Ok(())
}

#[test]
fn reads_scores_below_0(rt: HostRuntime) -> Result<(), Fail> {
    let mut buffer = String::new(rt.alloc());
    for (text, is_line) in [
        (
            "match|A|B|1|-1.000000000000|-1.000000000000|level|sure|0|0|0|0|0|1",
            true,
        ),
        (
            "match|A|B|1|-0.100000000000..0.100000000000|-0.100000000001|left|mixed",
            true,
        ),
        (
            "match|A|B|1|-0.200000000000..-0.100000000000|0.000000000000|right|mixed",
            true,
        ),
        (
            "match|A|B|1|-0.100000000000..-0.200000000000|0.000000000000|right|mixed",
            false,
        ),
        (
            "match|A|B|1|-0.000000000000|0.000000000000|level|mixed",
            false,
        ),
        (
            "match|A|B|1|-0.000000000000..0.100000000000|1.000000000000|right|mixed",
            false,
        ),
        (
            "match|A|B|1|-1.00000000000|1.000000000000|right|mixed",
            false,
        ),
        (
            "match|A|B|1|-1000000000000000000000.000000000001|1.000000000000|right|mixed",
            false,
        ),
        ("entry|A|-1.000000000000|1|0|0", true),
        (
            "entry|A|-10000000000000000000000000.000000000000|1|0|0",
            true,
        ),
        (
            "entry|A|-10000000000000000000000000.000000000001|1|0|0",
            false,
        ),
        ("entry|A|-0.000000000000|1|0|0", false),
        ("first|A|1.000000000000", true),
        ("first|A|-1.000000000000", false),
        ("total|-1.000000000000", false),
    ] {
        let found = line_of(&mut buffer, text.as_bytes())?;
        assert_eq!(rt; found.is_some(), is_line, "at {text}");
        if let Some(line) = found {
            let mut printed = String::new(rt.alloc());
            push_line(&mut printed, &line)?;
            assert_eq!(rt; printed.as_str(), text);
        }
    }
    Ok(())
}
