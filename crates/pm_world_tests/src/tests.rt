//! What no clause says: values from outside, that calls succeed, and what refused memory leaves.

mod dropping;
mod found;
mod going;
mod liar;
mod lying;
mod memory;
mod reading;
mod refusals;
mod rig;
mod running;
mod sizes;
mod steps;
