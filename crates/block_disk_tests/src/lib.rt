//! The tests of `block_command`, `block_disk`, `block_queue`, `block_scheduler` and `block_engine`. They have a crate of their own, because a crate
//! with tests is proved twice.
#![tactic(auto)]

#[cfg(test)]
mod engine_tests;
#[cfg(test)]
mod queue_tests;
#[cfg(test)]
mod scheduler_tests;
#[cfg(test)]
mod tests;
