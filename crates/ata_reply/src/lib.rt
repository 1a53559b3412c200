//! The FISes by which an ATA disk answers (ACS-3, 6 and 7; Serial ATA 3.x, 10.5 and 13.6).
#![tactic(auto)]

mod reply;

pub use reply::{Announcement, AtaError, Failure, Reply, SetUp, data_frame};
