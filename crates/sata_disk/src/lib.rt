//! A SATA disk whose sectors lie with the caller: FISes of the host come in, FISes of the disk go out, and the caller is asked to
//! load, store, flush and discard.
#![tactic(auto)]

mod disk;
mod hearing;
mod out;
mod pages;
mod trim;
mod unheard;

pub use disk::SataDisk;
pub use out::Out;
pub use unheard::Unheard;
