//! The tests of `pm_threads`. They stand in a crate of their own, because a crate with tests is
//! proved twice.
#![tactic(auto)]

#[cfg(test)]
mod tests;
