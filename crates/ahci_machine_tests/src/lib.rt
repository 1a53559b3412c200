//! The tests of `ahci_machine`. They have a crate of their own, because a crate with tests is proved twice.
#![tactic(auto)]

#[cfg(test)]
mod tests;
