//! A place for a device as words, and back.

ghost use Rattle.std.specs.Prelude.{◌≡◌};
ghost use Rattle.fan_out.specs.Saved.{KeepsSeat, is_at, put_seat, seat_apart, seat_fits};

use super::Seat;
use pm_ports::Port;
use saved_state::{RestoreError, Saved, Words};
use std::alloc::{AllocError, Global};

impl Default for Seat {
    ghost use Rattle.std.specs.Prelude.{◌≡◌};
    ghost use Rattle.fan_out.specs.Seats.{empty_seat};

    ghost is_default = { λ s. s ≡ empty_seat };

    fn default() -> Seat {
        Seat::empty()
    }
}

impl Seat {
    // Whether this connection is there, or none.
    fn is_at(self, present: Option<u32>) -> bool
        ensures { result ≡ is_at self present }
    {
        match present {
            Some(conn) => self.is_there && conn == self.last,
            None => !self.is_there,
        }
    }

    // Whether a port has its connections.
    pub(crate) fn fits(self, port: &Port) -> bool
        ensures { result ≡ seat_fits self port.now }
    {
        self.is_at(port.present()) && port.last() == self.last
    }
}

type Parts = (u32, bool, (u32, bool));

impl Saved for Seat {
    ghost put = { put_seat };

    ghost keeps = { KeepsSeat };

    ghost told_apart = { seat_apart };

    fn save(&self, words: &mut Words) -> Result<(), AllocError> {
        self.begun.save(words)?;
        self.sent.save(words)?;
        self.is_there.save(words)?;
        self.last.save(words)
    }

    fn restore(alloc: Global, words: &mut Words) -> Result<Seat, RestoreError> {
        match <Parts>::restore(alloc, words) {
            Ok((last, is_there, (sent, begun))) => Ok(Seat {
                last,
                is_there,
                sent,
                begun,
            }),
            Err(error) => Err(error),
        }
    }
}
