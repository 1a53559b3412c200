//! The received FIS area of an AHCI host port with FIS-based switching: one row of received FISes for each PM
//! Port.
//!
//! A [`RxArea`] borrows the 4,096 bytes. [`RxArea::post`] copies a FIS to its place in the row of the device
//! that sent it. The readers borrow one place of one device's row.
#![tactic(auto)]

mod area;

pub use area::{Posted, Posting, RxArea, posting_of};

/// The size of a received FIS area in bytes: 16 rows of 256 bytes (AHCI 1.3.1, 4.2.1 and 9.3, FIS-based
/// switching).
pub const RX_AREA: usize = 4096;
