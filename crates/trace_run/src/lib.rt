//! Scenarios: [`play_steps`] plays one line after the other on a world of devices, a port multiplier and a
//! host. What a line says of such a world, asks of its host and prints is public, for those who play it otherwise.
#![tactic(auto)]

mod blame;
mod due;
mod event;
mod event_json;
mod opening;
mod parse;
mod places;
mod reason;
mod refused;
mod round_step;
mod run;
mod text;
mod tickets;
mod tracer;
mod watch;

pub use opening::{Opening, Sizes};
pub use parse::{Common, Setting, View};
pub use run::play_steps;
pub use text::{Reply, print_view};
pub use watch::Watch;
