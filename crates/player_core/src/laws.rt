//! Laws, proved once, on plain lists of what contracts see of a side. A caller has a law by calling
//! its function, which does nothing. Where one place of a side has changed, `one_change` says what
//! that does to the side, and `keeping_lasts` that the bench goes on fitting.
ghost use Rattle.player_core.specs.Holder.{RowsAreHeld};
ghost use Rattle.player_core.specs.Laws.{CountsAddUp, EntriesPlay, KeepingLasts, LoadKeeps, OneChange, OnePlaceTakes, PlaysWalk, SureIsTested};

/// Plays move a player's mark along its automaton from where it was.
pub fn plays_walk()
    ensures { PlaysWalk }
{}

/// At most one place of a bench that fits takes a sheet.
pub fn one_place_takes()
    ensures { OnePlaceTakes }
{}

/// A load keeps kind and name, and a plug's automaton.
pub fn load_keeps()
    ensures { LoadKeeps }
{}

/// Sides that keep their plugs step by step keep them, and a bench that fits goes on fitting.
pub fn keeping_lasts()
    ensures { KeepingLasts }
{}

/// What a change at one place of a side changes.
pub fn one_change()
    ensures { OneChange }
{}

/// The counts of a side grow step by step.
pub fn counts_add_up()
    ensures { CountsAddUp }
{}

/// The test of sureness is exact.
pub fn sure_is_tested()
    ensures { SureIsTested }
{}

/// On a bench that fits, each side's player that takes a sheet plays what the sheet plays.
pub fn entries_play()
    ensures { EntriesPlay }
{}

/// What a table of rows holds as rows are written over its first, and when it is new.
pub fn rows_are_held()
    ensures { RowsAreHeld }
{}
