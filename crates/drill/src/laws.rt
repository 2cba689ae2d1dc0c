//! Laws, proved once. A caller has a law by calling its function, which does nothing.
ghost use Rattle.drill.specs.Drill.{DrillNamesDiffer};

/// No two machines of a drill have one name.
pub fn drill_names_differ()
    ensures { DrillNamesDiffer }
{}
