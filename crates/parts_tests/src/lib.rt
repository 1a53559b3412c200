//! The tests of the small crates below the host port and the multiplier. They share a crate of their own,
//! because a crate with tests is proved twice, and each check spends half a minute on the library first.
#![tactic(auto)]

#[cfg(test)]
mod tests;
