//! The tests of `sata_disk`. They have a crate of their own, because a crate with tests is proved twice.
#![tactic(auto)]

#[cfg(test)]
mod caller;
#[cfg(test)]
mod host;
#[cfg(test)]
mod hosts;
#[cfg(test)]
mod memory;
#[cfg(test)]
mod queue;
#[cfg(test)]
mod rounds;
#[cfg(test)]
mod rows;
