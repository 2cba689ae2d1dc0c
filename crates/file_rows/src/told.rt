//! Sheets and refusals in short.
use lab_ports::FileError;
use player_core::Sheet;
use std::alloc::Global;
use std::fmt::Write;
use std::test::Fail;

/// A sheet in short.
pub(crate) fn sheet_text(alloc: Global, sheet: &Sheet) -> Result<String, Fail> {
    let mut text = String::new(alloc);
    write!(
        text,
        "{:?} {} {} {} {} ",
        sheet.kind, sheet.den, sheet.own, sheet.other, sheet.first
    )?;
    write!(
        text,
        "{} {:?} {:?} {:?}",
        sheet.plug, sheet.opening, sheet.table, sheet.next
    )?;
    Ok(text)
}

/// Why a file isn't taken, in short.
pub(crate) fn error_text(alloc: Global, error: &FileError) -> Result<String, Fail> {
    let mut text = String::new(alloc);
    match error {
        FileError::Refused(refusal) => write!(text, "{refusal:?}")?,
        FileError::NoMemory => text.push_str("NoMemory")?,
    }
    for word in ["(Place { table:", ", entry:", ", key:", " })"] {
        text = text.replace(alloc, word, "")?;
    }
    Ok(text)
}
