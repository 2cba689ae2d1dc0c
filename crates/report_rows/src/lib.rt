//! Tests alone: reports both ways. Texts that were worked out by hand are made, read and refused; one byte after
//! the other is changed, and what is read is compared with what a small reader makes of it; and the largest
//! report goes both ways.
#![tactic(auto)]

#[cfg(test)]
mod changed;
#[cfg(test)]
mod drill_lines;
#[cfg(test)]
mod drills;
#[cfg(test)]
mod large;
#[cfg(test)]
mod matches;
#[cfg(test)]
mod pieces;
#[cfg(test)]
mod reader;
#[cfg(test)]
mod shared;
#[cfg(test)]
mod table;
#[cfg(test)]
mod tournaments;
