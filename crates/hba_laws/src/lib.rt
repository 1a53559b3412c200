//! Laws over lists of what happens at an AHCI host port with FIS-based switching, and in the memory beside
//! it.
//!
//! Each function here is a law: its clauses hold of every host port of the crate `hba_fbs`, over every list
//! of its calls and of what its software writes between them. The functions run no code.
#![tactic(auto)]

mod laws;

pub use laws::{
    causes_stay, core_causes_stay, core_delivers, core_isolated, delivers, isolated, stays_sound,
    tables_stay, writes_are_gathered,
};
