//! The pages of 512 bytes that a disk gives of itself (ACS-3): IDENTIFY DEVICE data, logs, SMART data.
#![tactic(auto)]

mod bytes;
mod claims;
mod identity;
mod log;
mod ncq_error;
mod profile;
mod readings;
mod smart;
mod text;

pub use claims::{claims_are_decoded, claims_are_whole};
pub use identity::identify;
pub use log::{LogPage, reads_log};
pub use ncq_error::NcqError;
pub use profile::{Capacity, NumberFault, PhysicalSector, Profile, QueueDepth, Rotation, Rpm};
pub use readings::identity_is_read;
pub use smart::smart_page;
pub use text::{FirmwareRevision, IdentityText, ModelNumber, SerialNumber, TextFault};
