//! The two views of one disk that a host has: the ledger that the FISes at its end of the link tell, and the
//! history of the device's events at its port.
#![tactic(auto)]

mod laws;

pub use laws::{
    answers_keep_the_same, both_views_go_on_together, data_fills_what_moves, data_keeps_the_same,
    devices_are_set_aside, disks_are_followed_to_their_errors, disks_are_watched_to_their_errors,
    done_is_honest, each_fis_has_its_outcome, fises_are_heard_as_told, hosts_are_careful,
    hosts_begin_anew, issues_and_commands_keep_the_same, lines_lead_to_beginning_anew,
    names_are_of_what_ended, others_leave_a_device, port_and_ledger_stay_joined,
    reports_are_honest, reports_are_honest_anew, reports_are_honest_in_each_phase,
    reports_are_honest_later, setups_keep_the_same, task_files_stay_fine,
};
