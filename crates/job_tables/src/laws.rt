//! Laws, proved once: a caller has one by calling its function, which does nothing.
ghost use Rattle.job_tables.specs.Tournament.{TournamentsAscend};

/// The matches of a tournament ascend, and are each pair that is played.
pub fn tournaments_ascend()
    ensures { TournamentsAscend }
{}
