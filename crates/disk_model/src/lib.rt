//! Devices behind the fan-out ports of a port multiplier.
//!
//! A device is any type that implements [`Device`]: it takes FISes from the host, gives FISes to it, and is
//! told when it is plugged in. Its contract says that each of its runs, as a list of what it received, sent
//! and was told, is one that its plan allows, and that it is silent only where the plan allows nothing.
//!
//! A [`Disk`] keeps sectors in memory and queues reads and writes by tag (native command queuing). A
//! [`Scripted`] device sends what a script says. A [`Unit`] is one of the two.
//!
//! Who stands before a disk and speaks for it asks what the disk sends next, [`Disk::due`], and has it sent to
//! nobody, [`Disk::drop_next`].
//!
//! The ledger of `specs/Ledger.antt` is what the FISes of a disk's run tell by themselves. Laws about every
//! run tie the disk to it: [`medium_is_of_ended_writes`], [`reads_are_of_their_start`],
//! [`setups_name_what_moves`], [`answers_each_command_once`], [`answers_commands_in_order`],
//! [`errors_are_of_their_command`] and [`is_silent_where_nothing_is_owed`]. The law [`ends_tell_the_same`]
//! carries them over the link to a listener at its other end. [`reads_have_the_first_writes`] and
//! [`media_show_the_last_write`] say which writes a read shows.
#![tactic(auto)]

mod answer;
mod chunk;
mod device;
mod disk;
mod laws;
mod page;
mod plan;
mod request;
mod scripted;
mod unit;

pub use answer::{Fault, Page};
pub use device::Device;
pub use disk::{Disk, DiskError, Due};
pub use laws::{
    answers_commands_in_order, answers_each_command_once, data_lies_where_it_is_put,
    disks_begin_anew, disks_in_reset_take_no_command, ends_tell_the_same, ends_tell_the_same_anew,
    errors_are_of_their_command, is_silent_where_nothing_is_owed, later_connections_tell_of_all,
    loaded_disks_show_their_sectors, media_show_the_last_write, medium_is_of_ended_writes,
    reads_are_of_their_start, reads_have_the_first_writes, setups_name_what_moves,
};
pub use plan::{DiskPlan, Order, Profile};
pub use request::Command;
pub use scripted::Scripted;
pub use unit::Unit;
