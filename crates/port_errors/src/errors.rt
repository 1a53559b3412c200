//! The errors of a host port.

ghost use Rattle.std.specs.Prelude.{◌≡◌, ◌+◌, ◌*◌, ◌<◌, Some, None, is_some, length, true, unwrap_or, IfSome};
ghost use Rattle.std.specs.Int.{from_bool};
ghost use Rattle.port_errors.specs.Interrupts.{device_interrupts, interrupt_bits, port_interrupts};
ghost use Rattle.port_errors.specs.Errors.{AreErrors, Clears, KeepsCauses, LeavesOtherCauses, LeavesOthers, after_clear, cause_of, cleared_device, lowest_marked as lowest_marked_of, no_errors, port_cause_in, shown, with_alone, with_device, with_port, without};

mod saved;

use crate::cause::{DeviceCause, PortCause, Stop};
use crate::interrupts::Interrupts;
use std::marker::Model;

/// What PxFBS shows of an error (AHCI 1.3.1, section 3.3.16).
#[derive(Clone, Copy, Debug, PartialEq, Eq)]
pub struct FbsBits {
    /// SDE, Single Device Error: a device is faulty, and the port is not stopped.
    pub sde: bool,
    /// DWE, Device With Error: the PM Port of the reported device. 0 where SDE is 0.
    pub dwe: u8,
}

impl FbsBits {
    /// The two fields at their places in PxFBS: SDE in bit 2, DWE from bit 16 on. All other bits are 0.
    pub fn in_register(self) -> u32
        ensures { result ≡ 4 * from_bool self.sde + 65536 * self.dwe }
    {
        u32::from(self.sde) * 4 + u32::from(self.dwe) * 0x1_0000
    }
}

/// The errors of a host port: the faulty devices, each with its first cause, the device that the port
/// reports, and what stopped the port as a whole (AHCI 1.3.1, 9.3, FIS-based switching: error handling). A
/// device is named by its PM Port, 0 to 15.
#[derive(Debug, Drop)]
pub struct PortErrors {
    causes: [Option<DeviceCause>; 16],
    reported: Option<u8>,
    port: Option<Stop>,
}

impl Model for PortErrors {
    ghost use Rattle.port_errors.specs.Errors.{AreErrors, Errors};

    ghost Value = { Errors };

    ghost view = { λ e. record { causes = e.causes; reported = e.reported; port = e.port } };

    ghost invariant = { λ e. AreErrors (record { causes = e.causes; reported = e.reported; port = e.port }) };
}

impl Default for PortErrors {
    ghost use Rattle.std.specs.Prelude.{◌≡◌};
    ghost use Rattle.port_errors.specs.Errors.{no_errors};

    ghost is_default = { λ e. e ≡ no_errors };

    fn default() -> PortErrors {
        PortErrors::new()
    }
}

// The faulty device with the lowest PM Port.
fn lowest_marked(causes: &[Option<DeviceCause>]) -> Option<u8>
    requires { length causes.now ≡ 16 }
    ensures { result ≡ lowest_marked_of causes.now }
{
    match causes.iter().position(|cause| cause.is_some()) {
        Some(dev) => Some(dev as u8),
        None => None,
    }
}

impl PortErrors {
    /// No device is faulty, and the port is not stopped.
    pub fn new() -> PortErrors
        ensures { result ≡ no_errors }
    {
        PortErrors {
            causes: [None; 16],
            reported: None,
            port: None,
        }
    }

    /// A law for callers; it runs no code. It says what every value keeps.
    pub fn keeps_rules(&self)
        ensures { AreErrors self.now }
    {
        let _ = &self.causes;
    }

    /// Marks a device as faulty, and returns the bits of PxIS that this cause sets. The first cause of a
    /// device is kept. The first faulty device is the reported one.
    pub fn device(&mut self, dev: u8, cause: DeviceCause) -> Interrupts
        requires { dev < 16 }
        ensures interrupts { interrupt_bits result ≡ device_interrupts cause }
        ensures after { self.new ≡ with_device self.old dev cause }
        ensures own { cause_of self.new dev ≡ Some (unwrap_or (cause_of self.old dev) cause) }
        ensures others { LeavesOthers dev self.old self.new }
        ensures kept { KeepsCauses self.old self.new }
    {
        let at = dev as usize;
        let first = self.causes[at].unwrap_or(cause);
        self.causes[at] = Some(first);
        self.reported = Some(self.reported.unwrap_or(dev));
        cause.interrupts()
    }

    /// Stops the port as a whole, and returns the bits of PxIS that this sets. The first cause is kept. No
    /// device gains or loses a fault.
    pub fn port(&mut self, cause: PortCause) -> Interrupts
        ensures interrupts { interrupt_bits result ≡ port_interrupts cause }
        ensures after { self.new ≡ with_port self.old cause }
        ensures own { self.new.port ≡ Some (unwrap_or self.old.port (Stop.Port cause)) }
        ensures devices { self.new.causes ≡ self.old.causes }
        ensures kept { KeepsCauses self.old self.new }
    {
        self.port = Some(self.port.unwrap_or(Stop::Port(cause)));
        cause.interrupts()
    }

    /// Marks a device that is alone at the port as faulty, which stops the port too, and returns the bits of
    /// PxIS that this cause sets. The first cause of a device is kept, and so is what stopped the port first.
    pub fn alone(&mut self, dev: u8, cause: DeviceCause) -> Interrupts
        requires { dev < 16 }
        ensures interrupts { interrupt_bits result ≡ device_interrupts cause }
        ensures after { self.new ≡ with_alone self.old dev cause }
        ensures own { cause_of self.new dev ≡ Some (unwrap_or (cause_of self.old dev) cause) }
        ensures others { LeavesOtherCauses dev self.old self.new }
        ensures stopped { self.new.port ≡ Some (unwrap_or self.old.port Stop.Device) }
        ensures kept { KeepsCauses self.old self.new }
    {
        let interrupts = self.device(dev, cause);
        self.port = Some(self.port.unwrap_or(Stop::Device));
        interrupts
    }

    /// Clears the fault of a device. Where it was the reported one, the lowest device that is still faulty is
    /// reported.
    pub fn forget(&mut self, dev: u8)
        requires { dev < 16 }
        ensures after { self.new ≡ without self.old dev }
        ensures own { cause_of self.new dev ≡ None }
        ensures others { LeavesOthers dev self.old self.new }
    {
        self.causes[dev as usize] = None;
        if self.reported == Some(dev) {
            self.reported = lowest_marked(&self.causes);
        }
    }

    /// Clears the fault of the device that PxFBS shows, as PxFBS.DEC does, and returns that device. The
    /// lowest device that is still faulty is reported next. Where PxFBS shows no device, returns None and
    /// changes nothing.
    pub fn clear_device(&mut self) -> Option<u8>
        ensures cleared { result ≡ cleared_device self.old }
        ensures after { self.new ≡ after_clear self.old }
        ensures clears { IfSome result (λ dev. Clears self.old dev self.new) }
    {
        let bits = self.fbs_bits();
        if !bits.sde {
            return None;
        }
        self.forget(bits.dwe);
        Some(bits.dwe)
    }

    /// Clears every fault, and what stopped the port, as a falling PxCMD.ST does.
    pub fn stop(&mut self)
        ensures { self.new ≡ no_errors }
    {
        *self = PortErrors::new();
    }

    /// Whether a device is faulty.
    pub fn faulty(&self, dev: u8) -> bool
        requires { dev < 16 }
        ensures { result ≡ is_some (cause_of self.now dev) }
    {
        self.causes[dev as usize].is_some()
    }

    /// The first cause of a faulty device, None where it is not faulty. It stands until
    /// [`forget`](PortErrors::forget), [`clear_device`](PortErrors::clear_device) or
    /// [`stop`](PortErrors::stop) ends it.
    pub fn cause(&self, dev: u8) -> Option<DeviceCause>
        requires { dev < 16 }
        ensures { result ≡ cause_of self.now dev }
    {
        self.causes[dev as usize]
    }

    /// Whether an error stopped the port: one of the port, or of a device that is alone at it.
    pub fn stopped(&self) -> bool
        ensures { result ≡ is_some self.now.port }
    {
        self.port.is_some()
    }

    /// The first cause that stopped the port as a whole, None where it is not stopped or a device stopped it.
    /// Only [`stop`](PortErrors::stop) ends it.
    pub fn port_cause(&self) -> Option<PortCause>
        ensures { result ≡ port_cause_in self.now.port }
    {
        match self.port {
            Some(Stop::Port(cause)) => Some(cause),
            Some(Stop::Device) | None => None,
        }
    }

    /// What PxFBS shows.
    pub fn fbs_bits(&self) -> FbsBits
        ensures bits { result ≡ shown self.now.reported self.now.port }
        ensures errors { AreErrors self.now }
    {
        match (self.reported, self.port) {
            (Some(dev), None) => FbsBits {
                sde: true,
                dwe: dev,
            },
            _ => FbsBits { sde: false, dwe: 0 },
        }
    }
}
