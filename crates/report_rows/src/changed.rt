//! With each byte of a report changed in turn, `read_report` is to take the texts, and to refuse the
//! lines, that the small reader does.
use crate::reader::first_bad;
use crate::shared::refused_line;
use std::alloc::Global;
use std::test::Fail;

// A sure match, in which each play came once, and two mixed ones; a tournament with a match of an entry
// with itself, and one in which two ranks are undecided and an entry plays no match; the drill of the greatest
// number, with the greatest total. Two are of version 2, with payoffs and scores below 0.
const REPORTS: [&str; 8] = [
    "axlab|1|match\ngame|3|0|5|1|dilemma|yes\nnoise|0|1\nmatch|grudger|alternator|4|9.000000000000|9.000000000000|level|sure|2|2|1|1|1|1\nend\n",
    "axlab|1|match\ngame|3|0|5|1|dilemma|yes\nnoise|0|1\nmatch|third|coop|1|4.333333333333..4.333333333334|1.000000000000|left|mixed\nend\n",
    "axlab|1|match\ngame|4|1|5|3|dilemma|yes\nnoise|5|10\nmatch|A B|A B|250|500.000000000001..500.000000000002|499.999999999999..500.000000000001|undecided|mixed\nend\n",
    "axlab|1|tournament\ngame|3|0|5|1|dilemma|yes\nnoise|0|1\nmatch|grudger|alternator|4|9.000000000000|9.000000000000|level|sure|2|2|1|1|1|1\nmatch|grudger|coin|2|4.333333333333..4.333333333334|1.000000000000|left|mixed\nmatch|coin|coin|1|2.250000000000..2.250000000001|2.250000000000..2.250000000001|undecided|mixed\nentry|grudger|13.333333333333..13.333333333334|1|1|0\nentry|alternator|9.000000000000|2|0|0\nentry|coin|3.250000000000..3.250000000001|3|0|0\nend\n",
    "axlab|1|tournament\ngame|3|0|5|1|dilemma|yes\nnoise|1|9\nmatch|b|a|250|500.000000000001..500.000000000002|499.999999999999..500.000000000001|undecided|mixed\nentry|a|499.999999999999..500.000000000001|undecided|0|1\nentry|b|500.000000000001..500.000000000002|undecided|0|1\nentry|c|0.000000000000|3|0|0\nend\n",
    "axlab|2|match\ngame|2|-1|3|0|dilemma|yes\nnoise|0|1\nown|a b|0|1\nown|c|50|100\nmatch|a b|c|4|-3.000000000000|9.000000000000|right|sure|3|0|0|3|0|1\nend\n",
    "axlab|2|tournament\ngame|-9|-10|0|-9|dilemma|no\nnoise|0|1\nown|b|1|9\nown|a|0|1\nown|c|4|9\nmatch|b|a|2|-10.000000000002..-10.000000000001|-0.000000000001..0.000000000001|right|mixed\nentry|a|-0.000000000001..0.000000000001|undecided|1|0\nentry|b|-10.000000000002..-10.000000000001|3|0|0\nentry|c|0.000000000000|undecided|0|0\nend\n",
    "axlab|1|drill\ndrill|18446744073709551615|64|1000000000\nfirst|d09|10000000000000000000000000.000000000000\nfirst|d 4|0.000000000001\nfirst|d09|189876529801.500000000000\ntotal|9999999999999999999999999.999999999999\nend\n",
];

// What comes in the place of a byte.
const CHANGES: [&str; 15] = [
    "", "0", "1", "4", "9", "|", ".", "..", "\n", "\r", " ", "a", "~", "é", "-",
];

// Compares both readers where each change stands in place of the byte at a place.
fn check_place(alloc: Global, text: &str, place: usize) -> Result<(), Fail> {
    let (front, back) = text.as_bytes().split_at_checked(place).ok_or("no place")?;
    let (_, back) = back.split_first().ok_or("no byte")?;
    for change in CHANGES {
        let mut bytes = front.to_vec(alloc)?;
        bytes.extend_from_slice(change.as_bytes())?;
        bytes.extend_from_slice(back)?;
        let changed = std::str::from_utf8(&bytes)?;
        let got = refused_line(alloc, changed)?;
        let wanted = first_bad(alloc, changed)?;
        if got != wanted {
            let told = format!(in alloc; "line {got}, wanted {wanted}, at {changed}")?;
            return Err(Fail::new(told));
        }
    }
    Ok(())
}

// Checks a report at each of its places.
fn check_report(alloc: Global, text: &str) -> Result<(), Fail> {
    if first_bad(alloc, text)? != 0 {
        return Err(Fail::from("no report"));
    }
    for place in 0..text.len() {
        check_place(alloc, text, place)?;
    }
    Ok(())
}

#[test]
fn refuses_the_first_changed_line(rt: HostRuntime) -> Result<(), Fail> {
    for report in REPORTS {
        check_report(rt.alloc(), report)?;
    }
    Ok(())
}
