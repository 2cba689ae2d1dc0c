//! Tests alone: players, matches between them, totals and drilled machines against moves and counts that were
//! worked out by hand, or by a program apart from these crates. No clause says that the definitions mean what
//! they should.
#![tactic(auto)]

#[cfg(test)]
mod drilled;
#[cfg(test)]
mod echo;
#[cfg(test)]
mod grids;
#[cfg(test)]
mod machines;
#[cfg(test)]
mod matches;
#[cfg(test)]
mod plays;
#[cfg(test)]
mod plugs;
#[cfg(test)]
mod ranked;
#[cfg(test)]
mod tables;
#[cfg(test)]
mod vectors;
