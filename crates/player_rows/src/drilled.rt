//! Drilled machines against draws that were worked out apart from these crates, by a program of a few lines.
use drill::{drill_name, drill_sheets};
use player_core::Sheet;
use std::alloc::Global;
use std::fmt::Write;
use std::test::Fail;

// The number, the place of a machine, and the machine: its opening, its plays and its nexts in
// hexadecimal, for each state for heard C and for heard D.
const CASES: [(u64, usize, &str); 9] = [
    (
        0,
        0,
        "C DCCCDCDDCDDCCCCDDDDCCDDCDDCCDCCC 16857513f6b376902b8202375ffc27d9",
    ),
    (
        0,
        1,
        "C CDCCCDCDCCDDCCDCDDCDCCCDCCDCCCCD e0b2633692578fae7972c4b640ffde2e",
    ),
    (
        0,
        63,
        "C CCDDDCDCDDDDCCCCDCCCDCCDCCCCDDCD 50c0d9302d952cf4252593e90d2cf774",
    ),
    (
        7,
        0,
        "C DCCDCCCDCDDDCCCCDCCCDDDDCDCCDDDC f425b8a12f53cc92c6063cae21319c87",
    ),
    (
        7,
        1,
        "C CDCDCDCCDDDCDDDCCDCDCDCCCCDCCCCC 61353e119ebd9ae3273618fb5576d488",
    ),
    (
        7,
        63,
        "C CDDDDCDDCDDCDDDDCCDDDDDDDCCDCCDC d5cef9b5be7e156f39a827f8a9d37b12",
    ),
    (
        u64::MAX,
        0,
        "D DDDCDCDDDDCDDCCDDDDDCCCCCCDCCDCC b69ab3ea698c1d57c3ef7e278be96d04",
    ),
    (
        u64::MAX,
        1,
        "C DDCDCDCCDCDCCDCCCDCCDCCCCCDDCCDC 33e0f6c4b3fd6fa6393224414b05f22b",
    ),
    (
        u64::MAX,
        63,
        "D DDCDDDDDDCDCDDCCDDCDCCDDDCDDDDDD dda7f2e9ad0f2dce9c0ce70017f4e9d9",
    ),
];

fn move_of(weight: u32) -> char {
    if weight == 1 { 'C' } else { 'D' }
}

fn text_of(alloc: Global, sheet: &Sheet) -> Result<String, Fail> {
    let mut text = String::new(alloc);
    for weight in &sheet.opening {
        write!(text, "{}", move_of(*weight))?;
    }
    write!(text, " ")?;
    for weight in &sheet.table {
        write!(text, "{}", move_of(*weight))?;
    }
    write!(text, " ")?;
    for next in &sheet.next {
        write!(text, "{:x}", *next)?;
    }
    Ok(text)
}

#[test]
fn draws_machines(rt: HostRuntime) -> Result<(), Fail> {
    for (number, place, want) in CASES {
        let sheets = drill_sheets(rt.alloc(), number).map_err(|_| "no memory")?;
        assert_eq!(rt; sheets.len(), 64);
        let sheet = sheets.get(place).ok_or("no machine")?;
        let found = text_of(rt.alloc(), sheet)?;
        assert_eq!(rt; found.as_str(), want, "at {number} and {place}");
    }
    Ok(())
}

#[test]
fn names_machines(rt: HostRuntime) {
    for (place, want) in [(0, "d00"), (9, "d09"), (10, "d10"), (63, "d63")] {
        assert_eq!(rt; drill_name(place).bytes(), want.as_bytes(), "at {place}");
    }
}
