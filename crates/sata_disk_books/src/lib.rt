//! What the books of a `SataDisk` (`sata_disk`) have at each moment of a run.
#![tactic(auto)]

mod counts;
mod last;
mod laws;

pub use counts::{data_are_asked_in_turn, data_are_counted, data_are_taken, fises_tell};
pub use last::last_data_end_reads;
pub use laws::{commands_are_asked, data_are_given, ends_are_of_pages, places_are_tags};
