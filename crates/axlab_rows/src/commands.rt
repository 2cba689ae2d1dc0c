//! What each command prints, how often it reads files, and how often it advances players.
use crate::call::{Around, ECHO, calm, run};
use axlab_core::Status;
use std::test::Fail;

/// A machine that repeats the other's last move, with its rows in a file.
pub(crate) const FILED: &str = r#"version = 1
[[entry]]
name = "echo"
kind = "machine"
start = 0
opening = "C"
file = "machine.csv"
[[entry]]
name = "defector"
kind = "plug"
plug = "Defector"
[match]
left = "echo"
right = "defector"
turns = 5
"#;

/// The same, and a second machine whose rows are in another file.
pub(crate) const FILED_TWICE: &str = r#"version = 1
[[entry]]
name = "echo"
kind = "machine"
start = 0
opening = "C"
file = "machine.csv"
[[entry]]
name = "defector"
kind = "plug"
plug = "Defector"
[[entry]]
name = "other"
kind = "machine"
start = 0
opening = "C"
file = "echo.csv"
[match]
left = "echo"
right = "defector"
turns = 5
"#;

const ECHOED: &str =
    "axlab|1|match\ngame|3|0|5|1|dilemma|yes\nnoise|0|1\nmatch|echo|defector|5|4.000000000000|9.000000000000|right|sure|1|0|0|1|0|4\nend\n";

const LONGEST: &str = r#"version = 1
[[entry]]
name = "tft"
kind = "plug"
plug = "Tit For Tat"
[[entry]]
name = "alternator"
kind = "plug"
plug = "Alternator"
[match]
left = "tft"
right = "alternator"
turns = 1_000_000_000_000
"#;

const LONGEST_REPORT: &str =
    "axlab|1|match\ngame|3|0|5|1|dilemma|yes\nnoise|0|1\nmatch|tft|alternator|1000000000000|2499999999998.000000000000|2500000000003.000000000000|right|sure|500000000001|500000000000|1|500000000000|499999999999|0\nend\n";

const TRUSTING: &str = r#"version = 1
[[entry]]
name = "coop"
kind = "plug"
plug = "Cooperator"
[[entry]]
name = "defector"
kind = "plug"
plug = "Defector"
[match]
left = "coop"
right = "defector"
turns = 1_000_000_000_000
"#;

const TRUSTING_REPORT: &str =
    "axlab|1|match\ngame|3|0|5|1|dilemma|yes\nnoise|0|1\nmatch|coop|defector|1000000000000|0.000000000000|5000000000000.000000000000|right|sure|1000000000000|0|0|1000000000000|0|0\nend\n";

const NOISY: &str = r#"version = 1
[noise]
n = 1
e = 10
[[entry]]
name = "tft"
kind = "plug"
plug = "Tit For Tat"
[match]
left = "tft"
right = "tft"
turns = 1
"#;

const NOISY_REPORT: &str =
    "axlab|1|match\ngame|3|0|5|1|dilemma|yes\nnoise|1|10\nmatch|tft|tft|1|2.890000000000|2.890000000000|level|mixed\nend\n";

const THREE: &str = r#"version = 1
[[entry]]
name = "tft"
kind = "plug"
plug = "Tit For Tat"
[[entry]]
name = "defector"
kind = "plug"
plug = "Defector"
[[entry]]
name = "coop"
kind = "plug"
plug = "Cooperator"
[tournament]
turns = 5
"#;

const THREE_REPORT: &str = r#"axlab|1|tournament
game|3|0|5|1|dilemma|yes
noise|0|1
match|tft|defector|5|4.000000000000|9.000000000000|right|sure|1|0|0|1|0|4
match|tft|coop|5|15.000000000000|15.000000000000|level|sure|5|5|5|0|0|0
match|defector|coop|5|25.000000000000|0.000000000000|left|sure|0|5|0|0|5|0
entry|tft|19.000000000000|2|0|0
entry|defector|34.000000000000|1|2|0
entry|coop|15.000000000000|3|0|0
end
"#;

// Two entries that draw lots, and one that doesn't.
const THIRDS: &str = r#"version = 1
[[entry]]
name = "x"
kind = "memory-one"
den = 3
opening = 1
weights = [1, 1, 1, 1]
[[entry]]
name = "y"
kind = "memory-one"
den = 3
opening = 1
weights = [1, 1, 1, 1]
[[entry]]
name = "coop"
kind = "plug"
plug = "Cooperator"
[tournament]
turns = 1
"#;

const THIRDS_REPORT: &str = r#"axlab|1|tournament
game|3|0|5|1|dilemma|yes
noise|0|1
match|x|y|1|1.888888888888..1.888888888889|1.888888888888..1.888888888889|undecided|mixed
match|x|coop|1|4.333333333333..4.333333333334|1.000000000000|left|mixed
match|y|coop|1|4.333333333333..4.333333333334|1.000000000000|left|mixed
entry|x|6.222222222221..6.222222222223|undecided|1|1
entry|y|6.222222222221..6.222222222223|undecided|1|1
entry|coop|2.000000000000|3|0|0
end
"#;

const DRILL_REPORT: &str =
    "axlab|1|drill\ndrill|7|64|1000000000\nfirst|d55|189876529801.000000000000\ntotal|9046445515680.000000000000\nend\n";

// The words and the lab, the report, how often the library is read, and the least and the most advances
// of both sides together. A sure match takes at least two for each pair of rows that it meets, and at most
// four for each pair that there is; a mixed one at least four for each row of both entries.
const ANSWERED: [(&str, &str, &str, u32, u64, u64); 8] = [
    ("match lab", FILED, ECHOED, 2, 4, 8),
    ("match lab", FILED_TWICE, ECHOED, 3, 4, 8),
    ("match lab", LONGEST, LONGEST_REPORT, 1, 6, 16),
    ("match lab", TRUSTING, TRUSTING_REPORT, 1, 2, 4),
    ("match lab", NOISY, NOISY_REPORT, 1, 16, u64::MAX),
    ("tournament lab", THREE, THREE_REPORT, 1, 8, 20),
    ("tournament lab", THIRDS, THIRDS_REPORT, 1, 88, u64::MAX),
    ("drill 7", "", DRILL_REPORT, 0, 1, u64::MAX),
];

#[test]
fn answers_each_command(rt: HostRuntime) -> Result<(), Fail> {
    for (words, lab, report, calls, least, most) in ANSWERED {
        let around = Around {
            machine: ECHO,
            ..calm(lab.as_bytes())
        };
        let ran = run(rt.alloc(), words, around)?;
        assert_eq!(rt; ran.status, Status::Answered, "{words} {lab}");
        assert_eq!(rt; std::str::from_utf8(&ran.out)?, report);
        assert_eq!(rt; ran.err.len(), 0);
        assert_eq!(rt; ran.calls, calls, "{words} {lab}");
        assert!(rt;
            least <= ran.advances && ran.advances <= most,
            "{} advances, {words} {lab}",
            ran.advances
        );
    }
    Ok(())
}
