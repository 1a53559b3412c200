//! The theorem of the machine (`ahci_machine`): what its guest sees is what its media have.
//!
//! Each function here is a law: its clauses hold of every machine, and it runs no code. It joins the laws of `machine_laws` with those of
//! the disks.
#![tactic(auto)]

mod bytes;
mod commands;
mod completions;
mod crossing;
mod ends;
mod fed;
mod flushes;
mod follows;
mod identity;
mod in_turn;
mod issued_work;
mod moments;
mod orders;
mod over_all;
mod own_slots;
mod own_writes;
mod parts;
mod pio;
mod pio_reads;
mod read_back;
mod reads;
mod single_reads;
mod single_writes;
mod standing;
mod stored_singles;
mod stored_writes;
mod tags;
mod transfers;
mod writes;

pub use bytes::{
    completed_reads_are_brought, completed_reads_are_written, filled_bytes_were_brought,
    queued_reads_are_brought,
};
pub use commands::{commands_come_from_slots, disks_hear_their_guest};
pub use completions::{commands_are_as_supplied, completions_are_of_their_slots};
pub use crossing::ordered_links_keep_places;
pub use ends::{completions_are_of_devices, ends_come_from_devices};
pub use fed::fed_data_are_of_their_slots;
pub use flushes::{flushes_are_answered, flushes_are_of_their_slots, flushes_follow_writes};
pub use follows::{data_follow_setups, data_go_as_asked, fed_data_follow_setups};
pub use identity::slots_name_their_disks_commands;
pub use in_turn::commands_go_in_turn;
pub use issued_work::{
    commands_are_counted_alike, issues_move_as_supplied, queued_completions_are_whole,
    unqueued_completions_are_whole,
};
pub use moments::data_are_of_slots;
pub use orders::commands_are_sent_once;
pub use over_all::{
    reads_follow_writes_among_slots, reads_follow_writes_over_all, slots_tell_of_writes,
    unheard_is_spared,
};
pub use own_slots::{carried_data_were_taken, payload_goes_to_its_own_slot};
pub use own_writes::{data_come_from_their_own_slot, writes_are_as_supplied};
pub use parts::payload_comes_from_devices;
pub use pio::{
    commands_are_settled_in_turn, commands_await_their_ends, unqueued_commands_are_of_their_slots,
};
pub use pio_reads::{pages_go_in_turn, unqueued_reads_are_read};
pub use read_back::{completed_reads_follow_writes, guests_read_back};
pub use reads::reads_are_as_supplied;
pub use single_reads::{
    completed_single_reads_are_brought, completed_single_reads_are_sent,
    filled_single_reads_were_brought, single_data_are_counted, single_data_go_in_turn,
};
pub use single_writes::{
    data_come_behind_commands, single_data_go_in_order, single_writes_are_as_supplied,
};
pub use standing::slots_have_one_command;
pub use stored_singles::{completed_single_writes_are_stored, writes_are_named};
pub use stored_writes::{
    completed_writes_are_stored, data_go_of_queued_writes, queued_commands_alone_are_served,
    queued_writes_are_as_supplied,
};
pub use tags::tags_are_counted;
pub use transfers::transfers_are_answered;
pub use writes::writes_come_from_guests;
