//! Workers side by side, each in a thread of its own, whatever they are.
//!
//! A [`Worker`] says what is known of its end. [`run_three`] runs many workers of one kind beside two
//! others. It answers with the ends of all, and says of each end what its own worker promises. If a
//! thread cannot be made, all are stopped at once, and the answer is that memory was refused. Nothing
//! is said about who works when, or that anybody does.
//!
//! Each worker has a [`Post`]. The post counts turns in a row in which nothing moved anywhere in the
//! run, so a run ends once nothing moves any more. It lets a worker sleep that has nothing to do. By
//! it others wake that worker.
#![tactic(auto)]

mod post;
mod run;
mod signals;
mod worker;

pub use post::{Post, Spent};
pub use run::run_three;
pub use signals::{Signals, Who};
pub use worker::{Fault, Worker};
