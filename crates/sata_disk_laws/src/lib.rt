//! Laws over every run of a `SataDisk`: whatever FISes come, whatever is asked and answered, in whatever order.
#![tactic(auto)]

mod laws;

pub use laws::{
    aborted_until_read, answers_are_single, asides_are_earned, data_are_named, discards_are_alone,
    ends_are_earned, fises_are_told, log_tells_of_failure, numbers_are_fresh, open_is_under_way,
    parts_are_frames, requests_are_apart, silence_is_owed, singles_are_awaited, something_moves,
    stores_are_heard,
};
