//! Laws about the process: the contract of each function is one law, and its body does nothing.
ghost use Rattle.moran_chain.specs.Moran.{FixationBoundsSteps, FixationSolves, SolutionsAreFixation};

/// Where all fitness is above 0, the chances of fixation solve the equations of the process.
pub fn fixation_solves()
    ensures { FixationSolves }
{}

/// Where all fitness is above 0, each solution of these equations, of whatever signs, is the chances of
/// fixation.
pub fn solutions_are_fixation()
    ensures { SolutionsAreFixation }
{}

/// After any number of steps the first type has taken over at most with the chance of fixation, and died
/// out at most with the rest to 1.
pub fn fixation_bounds_steps()
    ensures { FixationBoundsSteps }
{}
