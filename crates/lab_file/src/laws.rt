//! Laws, proved once: a caller has one by calling its function, which does nothing.
ghost use Rattle.lab_file.specs.Limits.{MatchesAreKept};
ghost use Rattle.lab_file.specs.Notes.{LabsAreNoted, NotesTell};

pub use job_tables::laws::tournaments_ascend;
use player_core::laws::sure_is_tested;

/// What the notes of a bench tell of the automata that sheets play on it.
pub fn notes_tell()
    ensures { NotesTell }
{
    sure_is_tested();
}

/// Each plug of a lab that is read over notes has its note.
pub fn labs_are_noted()
    ensures { LabsAreNoted }
{}

/// A tournament that keeps the limits has no match that alone doesn't.
pub fn matches_are_kept()
    ensures { MatchesAreKept }
{}
