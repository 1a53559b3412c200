//! The command slots of a host port: what is issued in each, which of its bytes were transferred, and each
//! device's last setup.
//!
//! [`SlotTable`] is one value. Slots are numbered 0 to 31 (AHCI 1.3.1, the command list), devices 0 to 15,
//! like the ports of a multiplier. No call but `save` and `restore` of
//! [`Saved`](saved_state::Saved) takes memory. A call on one device leaves what belongs to another
//! as it was.
#![tactic(auto)]

mod answer;
mod laws;
mod list;
mod mask;
mod moved;
mod slot;
mod table;
mod work;

pub use answer::{Answered, ArriveError, Busy, Completed, SetupError, Stray};
pub use laws::words_mean_sets;
pub use table::{Context, SlotTable};
pub use work::{Kind, Work};
