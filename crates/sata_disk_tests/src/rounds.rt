//! Each kind of command, round after round, against a plain medium.

mod cuts;
mod queued;
mod single;
mod still;
mod trims;
mod troubles;
