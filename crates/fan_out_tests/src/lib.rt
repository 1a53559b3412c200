//! The tests of `fan_out`. They have a crate of their own, because a crate with tests is proved twice.
#![tactic(auto)]

#[cfg(test)]
mod tests;
