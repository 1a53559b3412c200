//! Scenarios in which the lines play a driver: [`play_guest`] reads and writes the registers of an AHCI
//! controller and the memory of its guest, line after line. Behind the controller stand a port multiplier
//! and its disks, whose sectors are in memory or in files.
#![tactic(auto)]

mod board;
mod disk;
mod event;
mod event_json;
mod event_text;
mod medium;
mod mirror;
mod open;
mod opening;
mod parse;
mod progress;
mod register_text;
mod run;
mod structures;
mod telling;
mod text;
mod tracer;
mod warning;
mod why;

pub use run::play_guest;
pub use telling::Telling;
