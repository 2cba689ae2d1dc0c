//! The sheets of vectors, lookup tables and plugs, from their numbers and lists.
ghost use Rattle.std.specs.Prelude.{◌≡◌, ◌∷◌, [], IfOk};
ghost use Rattle.history_model.specs.Name.{IsName};
ghost use Rattle.player_core.specs.Sheet.{IsVector, IsTable};
ghost use Rattle.strategy_file.specs.Sheets.{vector_with, table_with, plug_with};

use history_model::Name;
use player_core::{Kind, Sheet, no_name};
use std::alloc::{AllocError, Global};

fn single(alloc: Global, number: u32) -> Result<Vec<u32>, AllocError>
    ensures { IfOk result (λ list. list.items ≡ number ∷ []) }
{
    let mut list = Vec::new(alloc);
    list.push(number)?;
    Ok(list)
}

/// The sheet of a memory-one vector.
pub fn vector_with(
    alloc: Global,
    den: u32,
    opening: u32,
    weights: Vec<u32>,
) -> Result<Sheet, AllocError>
    requires { IsVector (vector_with den opening weights.items) }
    ensures { IfOk result (λ sheet. sheet ≡ vector_with den opening weights.items) }
{
    Ok(Sheet {
        kind: Kind::MemoryOne,
        den,
        own: 0,
        other: 0,
        first: 0,
        opening: single(alloc, opening)?,
        table: weights,
        next: Vec::new(alloc),
        plug: no_name(),
    })
}

/// How far a lookup table looks back: at so many own and other last plays, and at so many of the
/// other's first plays.
#[derive(Clone, Copy, Debug)]
pub struct Reach {
    pub own: u32,
    pub other: u32,
    pub first: u32,
}

/// The sheet of a lookup table.
pub fn table_with(
    alloc: Global,
    den: u32,
    reach: Reach,
    opening: Vec<u32>,
    table: Vec<u32>,
) -> Sheet
    requires { IsTable (table_with den reach.own reach.other reach.first opening.items table.items) }
    ensures { result ≡ table_with den reach.own reach.other reach.first opening.items table.items }
{
    Sheet {
        kind: Kind::Lookup,
        den,
        own: reach.own,
        other: reach.other,
        first: reach.first,
        opening,
        table,
        next: Vec::new(alloc),
        plug: no_name(),
    }
}

/// The sheet of a plug.
pub fn plug_with(alloc: Global, name: Name) -> Sheet
    requires { IsName name }
    ensures { result ≡ plug_with name }
{
    Sheet {
        kind: Kind::Plug,
        den: 1,
        own: 0,
        other: 0,
        first: 0,
        opening: Vec::new(alloc),
        table: Vec::new(alloc),
        next: Vec::new(alloc),
        plug: name,
    }
}
