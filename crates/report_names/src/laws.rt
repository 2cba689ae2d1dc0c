//! Laws of names.
ghost use Rattle.report_names.specs.Names.{NamesGrow};

/// Of names that are gathered, each where it first comes, each has a place and stands there, no two are
/// one, and there are no others.
pub fn names_grow()
    ensures { NamesGrow }
{}
