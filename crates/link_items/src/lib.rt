//! What goes over the links between disks, multiplier and host.
//!
//! A FIS is an item with the order of its kind of link: [`FromDevice`], [`ToHost`] and [`Down`]. The first
//! two orders are those of the multiplier's laws. [`order_goes_on`] says what can come next in each. A
//! presence link carries a [`Presence`] for each connection that comes or goes.
#![tactic(auto)]

mod items;
mod laws;

pub use items::{Down, FromDevice, Presence, ToHost};
pub use laws::order_goes_on;
