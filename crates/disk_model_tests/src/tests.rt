//! What no clause says: values from outside, that calls succeed, and each refusal of memory.

mod disk;
mod errors;
mod memory;
mod pages;
mod scripted;
mod steps;
mod writes;
