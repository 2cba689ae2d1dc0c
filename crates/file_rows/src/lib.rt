//! Tests alone: ports, keys, entries, machines' files and labs against answers that were worked out by hand from
//! the rules for files. No clause says that the definitions mean what they should.
#![tactic(auto)]

#[cfg(test)]
mod entries;
#[cfg(test)]
mod keys;
#[cfg(test)]
mod labs;
#[cfg(test)]
mod machine_files;
#[cfg(test)]
mod ports;
#[cfg(test)]
mod told;
