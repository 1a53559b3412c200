//! What no clause says: values from outside, that calls succeed, and each refusal of memory.

mod builders;
mod frames;
mod memory;
