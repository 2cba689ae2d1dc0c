//! A law, proved once: a caller has it by calling its function, which does nothing.
ghost use Rattle.lab_ports.specs.Holding.{GrowthAddsUp};

/// A sink that took one text and then another took both.
pub fn growth_adds_up()
    ensures { GrowthAddsUp }
{}
