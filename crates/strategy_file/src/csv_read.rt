//! Reads the records of a file that is held as bytes.
ghost use Rattle.std.specs.Prelude.{◌≡◌, ◌<◌, ◌∷◌, [], length, true, if◌then◌else◌, IfOk, IfErr};
ghost use Rattle.refusals.specs.declared.refusal.FileError.TheVariants.{NoMemory};
ghost use Rattle.csv.specs.Reading.{default_config, has_failed, records, strip_bom};
ghost use Rattle.csv.specs.Records.{fields_of};
ghost use Rattle.strategy_file.specs.CsvRead.{IsReading, bytes_left, records_left};

use csv::{ByteRecord, Reader, ReaderBuilder};
use refusals::FileError;
use std::alloc::Global;

/// A reader of the records of a file, the first of which is none apart from the others. They may have
/// any number of fields.
pub fn read_bytes(alloc: Global, bytes: &[u8]) -> Reader<&[u8]>
    ensures reading { IsReading result }
    ensures all { records_left result ≡ records default_config (strip_bom bytes.now) }
{
    ReaderBuilder::new()
        .has_headers(false)
        .flexible(true)
        .from_reader(alloc, bytes)
}

/// Takes the next record, if there is one.
///
/// # Errors
///
/// `NoMemory`, and the reader gives no more. Records may be of any length and need not be text, so
/// that nothing stops the reader but want of memory, since bytes that are held are read without fault.
pub fn take_record(reader: &mut Reader<&[u8]>, row: &mut ByteRecord) -> Result<bool, FileError>
    requires { IsReading reader.old }
    ensures reading { IfOk result (λ found. found ≡ true → IsReading reader.new) }
    ensures first { IfOk result (λ found. records_left reader.old ≡ (if found then fields_of row.new ∷ records_left reader.new else [])) }
    ensures shorter { IfOk result (λ found. found ≡ true → length (bytes_left reader.new) < length (bytes_left reader.old)) }
    ensures memory { IfErr result (λ error. error ≡ NoMemory) }
    ensures stopped { IfErr result (λ _. has_failed reader.new ≡ true) }
{
    let Ok(found) = reader.read_byte_record(row) else {
        return Err(FileError::NoMemory);
    };
    Ok(found)
}
