//! Tests alone: the model, numbers and spans, chains, and lines of reports against values that were worked
//! out by hand, or by a program apart from these crates. No clause says that the definitions mean what they
//! should.
#![tactic(auto)]

#[cfg(test)]
mod automata;
#[cfg(test)]
mod games;
#[cfg(test)]
mod lines;
#[cfg(test)]
mod scores;
#[cfg(test)]
mod spans;
#[cfg(test)]
mod texts_of_numbers;
