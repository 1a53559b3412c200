//! What no clause says: values from outside, and that calls answer and succeed.
//!
//! A module is named after the crate that it tests, with a prefix, because a module and a library need
//! different names.

mod of_fis_view;
mod of_hba_commands;
mod of_host_memory;
mod of_pm_control;
mod of_pm_ports;
mod of_pm_registers;
mod of_port_errors;
mod of_rx_area;
mod of_slots;
mod pm_steps;
