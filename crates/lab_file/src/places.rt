//! Places of keys.
ghost use Rattle.std.specs.Prelude.{◌≡◌};
ghost use Rattle.strategy_file.specs.SheetOf.{at};
ghost use Rattle.job_tables.specs.JobsOf.{top};

use refusals::{KeyName, Place, TableName};

/// A key of the top of the file.
pub fn top(key: KeyName) -> Place
    ensures { result ≡ top key }
{
    Place {
        table: TableName::Top,
        entry: 0,
        key,
    }
}

/// A key of the entry of this number.
pub fn in_entry(entry: u32, key: KeyName) -> Place
    ensures { result ≡ at entry key }
{
    Place {
        table: TableName::Entry,
        entry,
        key,
    }
}
