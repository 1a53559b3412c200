//! What no clause says: values from outside, and that calls succeed.

mod alone;
mod recovering;
mod rig;
mod rows;
mod starting;
mod steps;
mod submitting;
mod vectors;
