//! A port multiplier whose devices come and go as words, and back.

ghost use Rattle.std.specs.Prelude.{◌≡◌, ◌<◌, length};
ghost use Rattle.fan_out.specs.Saved.{KeepsFan, fan_apart, fan_fits, fits_at, put_fan, seats_fit};

use super::Fan;
use crate::seat::Seat;
use multiplier::Multiplier;
use saved_state::{RestoreError, Saved, Words, save_all};
use std::alloc::{AllocError, Global};

// Whether seat `n` has the connections of its port.
fn fits_at(multiplier: &Multiplier, seats: &[Seat], n: u8) -> bool
    requires room { length seats.now ≡ 15 }
    requires there { n < 15 }
    ensures { result ≡ fits_at multiplier.now seats.now n }
{
    seats[usize::from(n)].fits(multiplier.port(n))
}

fn seats_fit(multiplier: &Multiplier, seats: &[Seat]) -> bool
    requires { length seats.now ≡ 15 }
    ensures { result ≡ seats_fit multiplier.now seats.now }
{
    for n in 0..15 {
        if !fits_at(multiplier, seats, n) {
            return false;
        }
    }
    true
}

// Whether there is a port, and each seat has the connections of its own.
fn fits(multiplier: &Multiplier, seats: &[Seat]) -> bool
    requires { length seats.now ≡ 15 }
    ensures { result ≡ fan_fits multiplier.now seats.now }
{
    multiplier.registers().ports() >= 1 && seats_fit(multiplier, seats)
}

impl Saved for Fan {
    ghost put = { put_fan };

    ghost keeps = { KeepsFan };

    ghost told_apart = { fan_apart };

    fn save(&self, words: &mut Words) -> Result<(), AllocError> {
        save_all(&self.seats, words)?;
        self.legacy.save(words)?;
        self.multiplier.save(words)
    }

    fn restore(alloc: Global, words: &mut Words) -> Result<Fan, RestoreError> {
        let (multiplier, legacy, seats) = match <(Multiplier, bool, [Seat; 15])>::restore(
            alloc, words,
        ) {
            Ok(parts) => parts,
            Err(error) => return Err(error),
        };
        if !fits(&multiplier, &seats) {
            return Err(RestoreError::Broken);
        }
        let ports = multiplier.registers().ports();
        Ok(Fan {
            multiplier,
            ports,
            legacy,
            seats,
        })
    }
}
