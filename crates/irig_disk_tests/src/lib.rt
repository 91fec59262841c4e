//! Writes of texts, tested over folders in memory.
#![tactic(auto)]

#[cfg(test)]
mod disks;
#[cfg(test)]
mod tree_folders;
#[cfg(test)]
mod tree_stops;
#[cfg(test)]
mod tree_ways;
