//! Which connection is at a place for a device, and what is known of it.

ghost use Rattle.std.specs.Prelude.{◌≡◌, ◌<◌, MatchResult, Err, Some, None};
ghost use Rattle.std.specs.Result.{result_err};
ghost use Rattle.fan_out.specs.Seats.{after_sent, empty_seat, left, next_connection, plug_refusal, seated, sent_from, told};

mod saved;

use fis_view::{Frame, Stamp};
use thiserror::Error;

/// Why no device can be plugged in.
#[derive(Clone, Copy, Debug, PartialEq, Eq, Error)]
pub enum PlugError {
    /// There is no such port.
    #[error("no such port")]
    NoPort = 1,
    /// A device is there.
    #[error("already there")]
    AlreadyThere = 2,
    /// No connection number is left.
    #[error("no connection left")]
    Spent = 3,
}

/// No device is there.
#[derive(Clone, Copy, Debug, PartialEq, Eq, Error)]
#[error("not there")]
pub struct NotThere;

/// A place for a device: the connection that is there, or that was there last.
#[derive(Clone, Copy, Debug, PartialEq, Eq)]
pub struct Seat {
    // The last connection that came, 0 for none.
    pub(crate) last: u32,
    // Whether its device is there.
    pub(crate) is_there: bool,
    // The number of the next frame that the device sends.
    pub(crate) sent: u32,
    // Whether the device is to begin anew.
    pub(crate) begun: bool,
}

impl Seat {
    // To which no device came.
    pub(crate) fn empty() -> Seat
        ensures { result ≡ empty_seat }
    {
        Seat {
            last: 0,
            is_there: false,
            sent: 0,
            begun: false,
        }
    }

    // To which a device came, as this connection. It is to begin.
    pub(crate) fn of(conn: u32) -> Seat
        ensures { result ≡ seated conn }
    {
        Seat {
            last: conn,
            is_there: true,
            sent: 0,
            begun: true,
        }
    }

    // Whose device went.
    pub(crate) fn left(self) -> Seat
        ensures { result ≡ left self }
    {
        Seat {
            is_there: false,
            begun: false,
            ..self
        }
    }

    // The connection of the next device that is plugged in.
    pub(crate) fn next_connection(self) -> Result<u32, PlugError>
        ensures refusal { result_err result ≡ plug_refusal self }
        ensures value { MatchResult result (λ conn. (conn ≡ next_connection self) × (self.last < conn)) (λ _. Unit {0}) }
    {
        if self.is_there {
            return Err(PlugError::AlreadyThere);
        }
        if self.last == u32::MAX {
            return Err(PlugError::Spent);
        }
        Ok(self.last + 1)
    }

    // A frame that the device sends, with its stamp.
    pub(crate) fn sent_from(self, port: u8, mut frame: Frame) -> Frame
        ensures { result ≡ sent_from port self frame }
    {
        frame.set_stamp(Stamp {
            port,
            conn: self.last,
            number: self.sent,
            shown: [0; 15],
        });
        frame
    }

    // After it.
    pub(crate) fn after_sent(self) -> Seat
        ensures { result ≡ after_sent self }
    {
        Seat {
            sent: self.sent.saturating_add(1),
            ..self
        }
    }

    // After it was told that its device is to begin anew.
    pub(crate) fn told(self) -> Seat
        ensures { result ≡ told self }
    {
        Seat {
            begun: false,
            ..self
        }
    }
}
