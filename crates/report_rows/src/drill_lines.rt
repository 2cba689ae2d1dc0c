//! The report of a drill, for the small reader.
use crate::reader::{fields_of, is_name, units, whole};
use crate::table::MOST_TOTAL;
use std::alloc::Global;
use std::test::Fail;

const MOST_NUMBER: u128 = 18_446_744_073_709_551_615;

// A line behind the first.
#[derive(Clone, Copy, PartialEq, Eq)]
enum Shown {
    Drill,
    First,
    Total,
    End,
}

// What a line shows, where it is one of a drill.
fn shown_on(fields: &[&str]) -> Option<Shown> {
    match fields {
        ["drill", number, "64", "1000000000"] => {
            whole(*number, MOST_NUMBER)?;
            Some(Shown::Drill)
        }
        ["first", name, total] => {
            units(*total, MOST_TOTAL)?;
            if is_name(*name) {
                Some(Shown::First)
            } else {
                None
            }
        }
        ["total", sum] => {
            units(*sum, MOST_TOTAL)?;
            Some(Shown::Total)
        }
        ["end"] => Some(Shown::End),
        _ => None,
    }
}

// Whether a line may stand behind another one, above which there are so many of machines.
fn may_follow(before: Option<Shown>, machines: u32, next: Shown) -> bool {
    match next {
        Shown::Drill => before.is_none(),
        Shown::First => (before == Some(Shown::Drill) || before == Some(Shown::First))
            && machines < 64,
        Shown::Total => before == Some(Shown::Drill) || before == Some(Shown::First),
        Shown::End => before == Some(Shown::Total),
    }
}

/// The first bad line from line 2 on; 0 where there is none.
pub(crate) fn bad_in_drill(alloc: Global, text: &str) -> Result<u32, Fail> {
    let mut before: Option<Shown> = None;
    let mut machines: u32 = 0;
    let mut rest = text;
    for number in 2..100u32 {
        let Some((line, more)) = rest.split_once('\n') else {
            return Ok(number);
        };
        let fields = fields_of(alloc, line)?;
        let Some(next) = shown_on(&fields) else {
            return Ok(number);
        };
        if !may_follow(before, machines, next) {
            return Ok(number);
        }
        if next == Shown::End {
            return Ok(if more.is_empty() { 0 } else { number + 1 });
        }
        machines = number - 2;
        before = Some(next);
        rest = more;
    }
    Err(Fail::from("a long report"))
}
