//! Read after write of a `SataDisk` whose medium keeps what it was told to keep.
#![tactic(auto)]

mod laws;

pub use laws::{
    loads_bring_what_is_kept, reads_are_given_writes, reads_bring_writes, stores_are_of_writes,
    undisturbed_is_spared, writes_are_kept, writes_are_settled,
};
