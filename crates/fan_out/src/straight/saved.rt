//! One device at the other end as words, and back.

ghost use Rattle.std.specs.Prelude.{◌≡◌};
ghost use Rattle.fan_out.specs.Saved.{KeepsStraight, put_straight, straight_apart, straight_fits};

use super::Straight;
use crate::seat::Seat;
use pm_ports::Port;
use saved_state::{RestoreError, Saved, Words};
use std::alloc::{AllocError, Global};

// Whether the seat has the connections of the port, and there is such a PM Port.
fn fits(port: &Port, seat: Seat, asked: u8) -> bool
    ensures { result ≡ straight_fits port.now seat asked }
{
    seat.fits(port) && asked < 16
}

impl Saved for Straight {
    ghost put = { put_straight };

    ghost keeps = { KeepsStraight };

    ghost told_apart = { straight_apart };

    fn save(&self, words: &mut Words) -> Result<(), AllocError> {
        self.asked.save(words)?;
        self.seat.save(words)?;
        self.port.save(words)
    }

    fn restore(alloc: Global, words: &mut Words) -> Result<Straight, RestoreError> {
        let (port, seat, asked) = match <(Port, Seat, u8)>::restore(alloc, words) {
            Ok(parts) => parts,
            Err(error) => return Err(error),
        };
        if !fits(&port, seat, asked) {
            return Err(RestoreError::Broken);
        }
        Ok(Straight { port, seat, asked })
    }
}
