//! The registers of a port multiplier (Serial ATA 3.x, 16.4): the general status and control registers (GSCR) of
//! its control port, and the port status and control registers (PSCR) of each of its device ports.
//!
//! [`PmRegisters`] is one value: what the host reads and writes by register commands, which devices are
//! present, and whether an asynchronous notification is due. GSCR\[32\], the ports that need attention, is
//! computed at each read and never stored.
#![tactic(auto)]

mod bits;
mod laws;
mod port;
mod registers;
mod words;

pub use laws::registers_follow_calls;
pub use registers::PmRegisters;
pub use words::{
    CONTROL_PORT, DET_MASK, DET_OFFLINE, FEATURE_NOTIFICATION, GSCR_ENABLED, GSCR_FEATURES,
    GSCR_MASK, GSCR_PORTS, GSCR_PRODUCT, GSCR_REVISION, GSCR_SUMMARY, PSCR_CONTROL, PSCR_ERROR,
    PSCR_STATUS, RegisterError, SERROR_F, SERROR_N, SERROR_X, STATUS_ESTABLISHED,
};
