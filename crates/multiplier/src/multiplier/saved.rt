//! A multiplier as words, and back.

ghost use Rattle.std.specs.Prelude.{◌≡◌, ◌<◌, length};
ghost use Rattle.multiplier.specs.Saved.{KeepsMultiplier, answer_fits, down_fits, fits, fits_at, given_fits, multiplier_apart, port_fits, ports_fit, put_multiplier, removal_fits, removals_fit, up_fits};

use super::Multiplier;
use crate::given::Given;
use fis_view::{Frame, Stamp};
use pm_control::PmControl;
use pm_ports::Port;
use pm_registers::{CONTROL_PORT, PmRegisters};
use saved_state::{RestoreError, Saved, Words, save_all};
use std::alloc::{AllocError, Global};

type Parts = (
    (PmRegisters, PmControl, [Port; 15]),
    (Option<Frame>, u8, u32),
    (u32, Option<Given>),
);

// Whether a frame that waits to go up is stamped with its port, and its connection is not gone.
fn up_fits(n: u8, port: &Port) -> bool
    ensures { result ≡ up_fits n port.now.gone port.now.up }
{
    match port.hold() {
        None => true,
        Some(frame) => {
            let stamp = frame.stamp();
            stamp.port == n && !(0 < stamp.conn && stamp.conn <= port.highest_gone())
        }
    }
}

// Whether a frame that waits to go down is for the connection that is present.
fn down_fits(port: &Port) -> bool
    ensures { result ≡ down_fits port.now.present port.now.down }
{
    match (port.hold_down(), port.present()) {
        (None, _) => true,
        (Some(_), None) => false,
        (Some(frame), Some(conn)) => frame.stamp().conn == conn,
    }
}

// Whether a port fits its number, and what the registers show of it.
fn port_fits(n: u8, shown: bool, port: &Port) -> bool
    ensures { result ≡ port_fits n shown port.now }
{
    shown == port.present().is_some() && up_fits(n, port) && down_fits(port)
}

// Whether port `n` fits its number, and what the registers show of it.
fn fits_at(registers: &PmRegisters, ports: &[Port], n: u8) -> bool
    requires room { length ports.now ≡ 15 }
    requires there { n < 15 }
    ensures { result ≡ fits_at registers.now ports.now n }
{
    port_fits(n, registers.is_present(n), &ports[usize::from(n)])
}

fn ports_fit(registers: &PmRegisters, ports: &[Port]) -> bool
    requires { length ports.now ≡ 15 }
    ensures { result ≡ ports_fit registers.now ports.now }
{
    for n in 0..15 {
        if !fits_at(registers, ports, n) {
            return false;
        }
    }
    true
}

// Whether the connection of port `n` whose removal a stamp shows is gone.
fn removal_fits(ports: &[Port], stamp: &Stamp, n: u8) -> bool
    requires room { length ports.now ≡ 15 }
    requires there { n < 15 }
    ensures { result ≡ removal_fits ports.now stamp.now.shown n }
{
    stamp.shown[usize::from(n)] <= ports[usize::from(n)].highest_gone()
}

fn removals_fit(ports: &[Port], stamp: &Stamp) -> bool
    requires { length ports.now ≡ 15 }
    ensures { result ≡ removals_fit ports.now stamp.now.shown }
{
    for n in 0..15 {
        if !removal_fits(ports, stamp, n) {
            return false;
        }
    }
    true
}

// Whether a frame is an answer of the control port, and shows no removal that was not recorded.
fn answer_fits(ports: &[Port], answer: &Option<Frame>) -> bool
    requires { length ports.now ≡ 15 }
    ensures { result ≡ answer_fits ports.now answer.now }
{
    match answer {
        None => true,
        Some(frame) => {
            let stamp = frame.stamp();
            stamp.port == CONTROL_PORT && frame.bytes()[0] == 0x34 && removals_fit(ports, &stamp)
        }
    }
}

// Whether the place before the one that was served is a device port or the control port.
fn given_fits(given: Option<Given>) -> bool
    ensures { result ≡ given_fits given }
{
    match given {
        Some(Given::Up { before, .. }) => before <= CONTROL_PORT,
        Some(Given::Down { .. }) | None => true,
    }
}

// Whether all of it fits together.
fn fits(
    registers: &PmRegisters,
    ports: &[Port],
    answer: &Option<Frame>,
    served: u8,
    given: Option<Given>,
) -> bool
    requires { length ports.now ≡ 15 }
    ensures { result ≡ fits registers.now ports.now answer.now served given }
{
    served <= CONTROL_PORT
        && ports_fit(registers, ports)
        && answer_fits(ports, answer)
        && given_fits(given)
}

impl Saved for Multiplier {
    ghost put = { put_multiplier };

    ghost keeps = { KeepsMultiplier };

    ghost told_apart = { multiplier_apart };

    fn save(&self, words: &mut Words) -> Result<(), AllocError> {
        self.given.save(words)?;
        self.dropped.save(words)?;
        self.number.save(words)?;
        self.served.save(words)?;
        self.answer.save(words)?;
        save_all(&self.ports, words)?;
        self.control.save(words)?;
        self.registers.save(words)
    }

    fn restore(alloc: Global, words: &mut Words) -> Result<Multiplier, RestoreError> {
        let ((registers, control, ports), (answer, served, number), (dropped, given)) =
            match <Parts>::restore(alloc, words) {
                Ok(parts) => parts,
                Err(error) => return Err(error),
            };
        if !fits(&registers, &ports, &answer, served, given) {
            return Err(RestoreError::Broken);
        }
        Ok(Multiplier {
            registers,
            control,
            ports,
            answer,
            served,
            number,
            dropped,
            given,
        })
    }
}
