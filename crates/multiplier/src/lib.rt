//! A Serial ATA port multiplier, as its frames see it: 1 to 15 device ports and the control port Fh.
//!
//! A [`Multiplier`] takes frames from the host ([`Multiplier::from_host`]) and from devices
//! ([`Multiplier::from_device`]), each into a place for one frame, and forwards them
//! ([`Multiplier::next_down`], [`Multiplier::next_up`]). A frame on its way up has the number of its port as
//! PM Port; a frame on its way down has 0. Places are served in a circle. [`waits_for_at_most_fifteen`] and
//! [`is_passed_over_at_most_fifteen_times`] say how often a place can be passed over. A frame that was given
//! and found no room further on can be put back before anything else is done. Then all is as before.
//!
//! When a device goes ([`Multiplier::gone`]), the frames that wait at its port are dropped.
//! [`frames_pass_in_order`] says what a list of calls does, from any multiplier on.
//! [`goes_up_in_stamped_order`] says in which order the stamps of frames go up.
//! [`control_frames_show_removals`] says what a frame of the control port shows of removals.
//!
//! `specs/Rules.antt` has what each call does, over the value of `specs/State.antt`, where `IsSound` is what
//! holds for every multiplier. `specs/Arbiter.antt` has the circle, `specs/Passing.antt` what passes over
//! many calls, `specs/Orders.antt` and `specs/Stamping.antt` the order of stamps.
#![tactic(auto)]

mod given;
mod laws;
mod multiplier;

pub use given::{Given, Source};
pub use laws::{
    control_frames_show_removals, frames_pass_in_order, goes_up_in_stamped_order,
    is_passed_over_at_most_fifteen_times, ports_that_forward_have_connections,
    waits_for_at_most_fifteen,
};
pub use multiplier::{Multiplier, Passed, PmRefusal};
