//! Rows worked out from the standard.

mod answers;
mod commands;
mod fronts;
mod pages;
mod rows;
