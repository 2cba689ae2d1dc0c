//! Tests alone: the top call over files and sinks in memory. Each command has a row here, with how often files
//! were read and players advanced, and so have what the ports fail in and the pieces of a report. All other rows
//! are files in rows/, on which the program runs.
#![tactic(auto)]

#[cfg(test)]
mod call;
#[cfg(test)]
mod commands;
#[cfg(test)]
mod faults;
#[cfg(test)]
mod pieces;
