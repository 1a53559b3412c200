//! What no clause says: values from outside, that calls succeed, and that two threads pass their items over a link.

mod links;
mod relay;
mod workers;
