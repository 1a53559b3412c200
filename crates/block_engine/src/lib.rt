//! The one engine of a block disk: commands that move sectors, and beside them a FLUSH CACHE or a DATA SET MANAGEMENT.
#![tactic(auto)]

mod aside;
mod engine;
mod laws;
mod numbers;
mod request;

pub use aside::{AsideKind, AsideStage, asides_are_earned};
pub use engine::{Engine, EngineFis};
pub use laws::{
    data_are_named, discards_are_alone, ends_are_earned, failures_are_own, numbers_are_fresh,
    requests_are_apart, something_moves,
};
pub use request::{Answer, ErrorKind, Failure, Range, Request, What};
