//! The tests of links between threads, and of the runner of workers. They stand in a crate of their own, since a crate with
//! tests is proved twice.
#![tactic(auto)]

#[cfg(test)]
mod tests;
