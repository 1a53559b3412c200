//! What no clause of `guest_fetch` says: tables of a real driver, long tables, text, and that calls succeed.

mod driver;
mod long;
mod refused;
mod rig;
