//! Laws, proved once. A caller has a law by calling its function, which does nothing.
ghost use Rattle.machine_rows.specs.RowsLaw.{SheetFollowsRows};

/// The sheet of a machine follows each row that it was read from: in the row's state, on the row's
/// heard move, it plays as the row says and goes to the row's next state.
pub fn sheet_follows_rows()
    ensures { SheetFollowsRows }
{}
