//! The registers of the whole multiplier.

ghost use Rattle.std.specs.Prelude.{List, ℕ, bit_and, false, true, not, ◌==◌, ◌&&◌, ◌<◌, ◌≡◌, ◌≤◌, ◌↔◌, IsTrue, Ok, OnOk, OnErr, Some};
ghost use Rattle.std.specs.Result.{result_err};
ghost use Rattle.pm_registers.specs.Bits.{shares, without, rises, bits_where};
ghost use Rattle.pm_registers.specs.Calls.{Call, after};
ghost use Rattle.pm_registers.specs.Port.{ShowsTruly};
ghost use Rattle.pm_registers.specs.RegisterMap.{after_insert, after_notice, after_restore, after_raise, after_remove, after_rule, after_write, control_written, forwards, gscr, may_change, opening, opening_with_port_0, port_at, read_at, register_at, settled, summary, with_port, write_rule};

mod saved;

use crate::bits::cleared;
use crate::port::PortRegisters;
use crate::words::{
    CONTROL_PORT, FEATURE_NOTIFICATION, GSCR_ENABLED, GSCR_FEATURES, GSCR_MASK, GSCR_PORTS,
    GSCR_PRODUCT, GSCR_REVISION, GSCR_SUMMARY, RegisterError,
};
use std::marker::Model;

/// The registers of a port multiplier, which devices are present, and whether a notification is due.
#[derive(Debug, Drop)]
pub struct PmRegisters {
    ports: u8,
    mask: u32,
    enabled: u32,
    bank: [PortRegisters; 15],
    due: bool,
}

impl Model for PmRegisters {
    ghost use Rattle.pm_registers.specs.RegisterMap.{IsSound, RegisterMap};

    ghost Value = { RegisterMap };

    ghost view = { λ r. record { ports = r.ports; mask = r.mask; enabled = r.enabled; bank = r.bank; due = r.due } };

    ghost invariant = { λ r. IsSound (record { ports = r.ports; mask = r.mask; enabled = r.enabled; bank = r.bank; due = r.due }) };
}

impl PmRegisters {
    /// The registers of a multiplier with this many device ports, when it starts.
    pub fn new(ports: u8) -> PmRegisters
        requires some { 1 ≤ ports }
        requires at_most { ports ≤ 15 }
        ensures { result ≡ opening ports }
    {
        PmRegisters {
            ports,
            mask: 0x0400_FFFF,
            enabled: 0,
            bank: [PortRegisters::new(); 15],
            due: false,
        }
    }

    /// The registers of a multiplier that starts with device port 0 open, for software that knows no
    /// multipliers (16.3.3, booting with legacy software), and with a device present at it or none. FISes pass
    /// such a device without a write to its registers.
    pub fn with_port_0_open(ports: u8, present: bool) -> PmRegisters
        requires some { 1 ≤ ports }
        requires at_most { ports ≤ 15 }
        ensures value { result ≡ opening_with_port_0 ports present }
        ensures passes { forwards result 0 ≡ present }
    {
        let mut registers = PmRegisters::new(ports);
        registers.set_port(0, PortRegisters::open(present));
        registers
    }

    /// The registers of device port `n`.
    fn port(&self, n: u8) -> PortRegisters
        requires { n < self.now.ports }
        ensures value { result ≡ port_at self.now n }
        ensures shows { ShowsTruly result }
    {
        self.bank[usize::from(n)]
    }

    #[tactic(auto, using(crate::proofs::ShownLemmas::sound_set))]
    fn set_port(&mut self, n: u8, port: PortRegisters)
        requires there { n < self.old.ports }
        requires shows { ShowsTruly port }
        ensures changed { self.new ≡ with_port self.old n port }
        ensures there { port_at self.new n ≡ port }
    {
        self.bank[usize::from(n)] = port;
    }

    /// GSCR\[32\]: the ports that need attention.
    fn summary(&self) -> u32
        ensures value { result ≡ summary self.now }
    {
        let mut bits = 0;
        for n in 0..self.ports {
            if self.bank[usize::from(n)].error & self.mask != 0 {
                bits |= 1 << n;
            }
        }
        bits
    }

    /// The value of GSCR number `register`.
    fn read_control(&self, register: u16) -> Option<u32>
        ensures { result ≡ gscr self.now register }
    {
        match register {
            GSCR_PRODUCT => Some(0x1001_5241),
            GSCR_REVISION => Some(0xE),
            GSCR_PORTS => Some(u32::from(self.ports)),
            GSCR_SUMMARY => Some(self.summary()),
            GSCR_MASK => Some(self.mask),
            GSCR_FEATURES => Some(FEATURE_NOTIFICATION),
            GSCR_ENABLED => Some(self.enabled),
            _ => None,
        }
    }

    /// Reads a register. Port 15 has the GSCRs, a device port has the PSCRs.
    pub fn read(&self, port: u8, register: u16) -> Result<u32, RegisterError>
        ensures value { result ≡ read_at self.now port register }
        // so it gives the value after the calls since the start
        ensures after_calls { (ports : ℕ) (calls : List Call) → self.now ≡ after (opening ports) calls →
            result ≡ read_at (after (opening ports) calls) port register }
    {
        let value = if port == CONTROL_PORT {
            self.read_control(register)
        } else if port < self.ports {
            self.port(port).read(register)
        } else {
            return Err(RegisterError::NoPort);
        };
        value.ok_or(RegisterError::NoRegister)
    }

    /// A write to GSCR number `register`. Writes to a read-only register change nothing.
    fn write_control(&mut self, register: u16, value: u32)
        ensures { self.new ≡ control_written self.old register value }
    {
        match register {
            GSCR_MASK => self.mask = value,
            GSCR_ENABLED => self.enabled = value & FEATURE_NOTIFICATION,
            _ => {}
        }
    }

    /// Ends a call that began with this GSCR\[32\]. If notifications are enabled and a bit of GSCR\[32\] went
    /// from 0 to 1, a notification is due.
    fn settle(&mut self, before: u32)
        ensures { self.new ≡ settled before self.old }
    {
        let risen = cleared(self.summary(), before);
        self.due = self.due || self.enabled & FEATURE_NOTIFICATION != 0 && risen != 0;
    }

    /// Writes a register, and acts on a write to PSCR\[2\]. It refuses what [`read`](Self::read) refuses. A
    /// write to a read-only register is no error and changes nothing.
    #[tactic(auto, using(crate::proofs::ShownLemmas::shows_written))]
    pub fn write(&mut self, port: u8, register: u16, value: u32) -> Result<(), RegisterError>
        ensures refusal { result_err result ≡ result_err (read_at self.old port register) }
        ensures after { self.new ≡ after_write self.old port register value }
        // the next read gives the value, through the mask of the register
        ensures seen { (was : ℕ) → register_at self.old port register ≡ Some was →
            register_at self.new port register
            ≡ Some (after_rule (write_rule port register) was value) }
        ensures ports { self.new.ports ≡ self.old.ports }
        // no write changes which devices are present
        ensures devices { (n : ℕ) → (port_at self.new n).present ≡ (port_at self.old n).present }
        // every other register stays, except those that a write to SControl acts on, and GSCR[32]
        ensures others { (p r : ℕ) → may_change port register p r ≡ false →
            register_at self.new p r ≡ register_at self.old p r }
    {
        self.read(port, register)?;
        let before = self.summary();
        if port == CONTROL_PORT {
            self.write_control(register, value);
        } else {
            let next = self.port(port).written(register, value);
            self.set_port(port, next);
        }
        self.settle(before);
        Ok(())
    }

    /// A device comes to device port `n`.
    #[tactic(auto, using(crate::proofs::ShownLemmas::shows_inserted))]
    pub fn insert(&mut self, n: u8)
        requires { n < self.old.ports }
        ensures { self.new ≡ after_insert self.old n }
    {
        let before = self.summary();
        let next = self.port(n).inserted();
        self.set_port(n, next);
        self.settle(before);
    }

    /// The device of device port `n` goes.
    #[tactic(auto, using(crate::proofs::ShownLemmas::shows_removed))]
    pub fn remove(&mut self, n: u8)
        requires { n < self.old.ports }
        ensures { self.new ≡ after_remove self.old n }
    {
        let before = self.summary();
        let next = self.port(n).removed();
        self.set_port(n, next);
        self.settle(before);
    }

    /// Sets bits in PSCR\[1\], the SError, of device port `n`.
    #[tactic(auto, using(crate::proofs::ShownLemmas::shows_raised))]
    pub fn raise(&mut self, n: u8, bits: u32)
        requires { n < self.old.ports }
        ensures { self.new ≡ after_raise self.old n bits }
    {
        let before = self.summary();
        let next = self.port(n).raised(bits);
        self.set_port(n, next);
        self.settle(before);
    }

    /// Whether FISes pass device port `n`, in both directions. A port that does not exist passes none.
    pub fn forwards(&self, n: u8) -> bool
        ensures { result ≡ forwards self.now n }
    {
        n < self.ports && self.port(n).forwards()
    }

    /// How many device ports there are.
    pub fn ports(&self) -> u8
        ensures { result ≡ self.now.ports }
    {
        self.ports
    }

    /// Whether a device is present at device port `n`. At one that does not exist none is.
    pub fn is_present(&self, n: u8) -> bool
        requires { n < 15 }
        ensures { result ≡ (port_at self.now n).present }
    {
        self.bank[usize::from(n)].present
    }

    /// Whether a notification is due: since the last one, a call left notifications enabled and took a bit of
    /// GSCR\[32\] from 0 to 1.
    pub fn notice_due(&self) -> bool
        ensures { IsTrue result ↔ (self.now.due ≡ true) }
    {
        self.due
    }

    /// The notification was made and is no longer due.
    pub fn clear_notice(&mut self)
        ensures { self.new ≡ after_notice self.old }
    {
        self.due = false;
    }

    /// Takes back the notification that was made, so one is due again.
    pub fn restore_notice(&mut self)
        ensures { self.new ≡ after_restore self.old }
    {
        self.due = true;
    }
}
