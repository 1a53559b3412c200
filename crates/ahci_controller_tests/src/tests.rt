//! What no clause says: values from outside, what stock software does at its start, and that calls succeed.

mod linux;
mod of_ahci_registers;
mod of_guest_bytes;
mod registers;
mod rig;
mod sectors;
mod starts;
mod steps;
mod stops;
