//! What no clause says: values from outside, and that the calls answer them.

use bitflags::Flags;
use port_errors::{DeviceCause, Interrupts, PortCause, PortErrors};
use std::marker::Model;
use std::process::Abort;

/// A step of a test.
#[derive(Clone, Copy)]
enum Step {
    /// A device fails, and these bits of PxIS are set.
    Fails(u8, DeviceCause, u32),
    /// The port is stopped, and these bits of PxIS are set.
    Stops(PortCause, u32),
    /// A device is faulty for this cause, or is not faulty.
    Has(u8, Option<DeviceCause>),
    /// The cause that stopped the port.
    IsStopped(Option<PortCause>),
    /// What PxFBS shows.
    Shows(u32),
    /// A device is forgotten.
    Forgets(u8),
    /// The device that PxFBS shows is cleared: this one, or none.
    Clears(Option<u8>),
    /// ST falls.
    Falls,
}

/// The errors of a port. Clauses see it as a number, and its functions have no contract, so a test is proved with little
/// work.
#[derive(Drop)]
struct Rig {
    errors: PortErrors,
}

impl Model for Rig {
    ghost use Rattle.std.specs.Prelude.{ℕ};

    ghost Value = { ℕ };

    ghost view = { λ _. 0 };
}

impl Rig {
    fn fails(&mut self, dev: u8, cause: DeviceCause, bits: u32) -> bool {
        dev < 16 && self.errors.device(dev, cause).bits() == bits
    }

    fn has(&self, dev: u8, cause: Option<DeviceCause>) -> bool {
        dev < 16 && self.errors.cause(dev) == cause && self.errors.faulty(dev) == cause.is_some()
    }

    fn forgets(&mut self, dev: u8) -> bool {
        if dev < 16 {
            self.errors.forget(dev);
            return true;
        }
        false
    }

    /// Whether a step is as it says.
    fn passes(&mut self, step: Step) -> bool {
        match step {
            Step::Fails(dev, cause, bits) => self.fails(dev, cause, bits),
            Step::Stops(cause, bits) => self.errors.port(cause).bits() == bits,
            Step::Has(dev, cause) => self.has(dev, cause),
            Step::IsStopped(cause) => {
                self.errors.port_cause() == cause && self.errors.stopped() == cause.is_some()
            }
            Step::Shows(value) => self.errors.fbs_bits().in_register() == value,
            Step::Forgets(dev) => self.forgets(dev),
            Step::Clears(dev) => self.errors.clear_device() == dev,
            Step::Falls => {
                self.errors.stop();
                true
            }
        }
    }

    /// The number of the first step that is not as it says.
    fn first_wrong(&mut self, steps: &[Step]) -> Option<usize> {
        for (i, step) in steps.iter().enumerate() {
            if !self.passes(*step) {
                return Some(i);
            }
        }
        None
    }
}

/// Each step of a port without errors is as it says.
fn play(rt: &impl Abort, errors: PortErrors, steps: &[Step]) {
    let mut rig = Rig { errors };
    assert_eq!(rt; rig.first_wrong(steps), None, "the number of a step");
}

/// The interrupt bits of each cause, as PxIS shows them.
static CAUSES: [Step; 21] = [
    Step::Fails(0, DeviceCause::TaskFile, 0x4000_0000),
    Step::Has(0, Some(DeviceCause::TaskFile)),
    Step::Fails(1, DeviceCause::BadTag, 0x0800_0000),
    Step::Has(1, Some(DeviceCause::BadTag)),
    Step::Fails(2, DeviceCause::Overflow, 0x0100_0000),
    Step::Has(2, Some(DeviceCause::Overflow)),
    Step::Fails(3, DeviceCause::Stray, 0x0800_0000),
    Step::Has(3, Some(DeviceCause::Stray)),
    Step::Fails(4, DeviceCause::Twice, 0x0800_0000),
    Step::Has(4, Some(DeviceCause::Twice)),
    Step::Fails(5, DeviceCause::Fragments, 0x0800_0000),
    Step::Has(5, Some(DeviceCause::Fragments)),
    Step::Fails(6, DeviceCause::Short, 0x0800_0000),
    Step::Has(6, Some(DeviceCause::Short)),
    Step::Fails(7, DeviceCause::BadFis, 0x0800_0000),
    Step::Has(7, Some(DeviceCause::BadFis)),
    Step::Fails(8, DeviceCause::WrongWay, 0x0800_0000),
    Step::Has(8, Some(DeviceCause::WrongWay)),
    Step::Stops(PortCause::BadControl, 0x2800_0000),
    Step::Stops(PortCause::Bus, 0x2800_0000),
    Step::IsStopped(Some(PortCause::BadControl)),
];

#[test]
fn causes_set_bits(rt: HostRuntime) {
    play(&rt, PortErrors::new(), &CAUSES);
}

/// The numbers of the causes.
#[test]
fn causes_have_their_numbers(rt: HostRuntime) {
    for (number, cause) in [
        (1u8, DeviceCause::TaskFile),
        (2, DeviceCause::BadTag),
        (3, DeviceCause::Overflow),
        (4, DeviceCause::Stray),
        (5, DeviceCause::Twice),
        (6, DeviceCause::Fragments),
        (7, DeviceCause::Short),
        (8, DeviceCause::BadFis),
        (9, DeviceCause::WrongWay),
    ] {
        assert!(rt; cause as u8 == number);
    }
    assert!(rt; PortCause::BadControl as u8 == 1 && PortCause::Bus as u8 == 2);
}

/// Device 5 fails, then device 1: PxFBS shows 5, then 1 once the fault of 5 is cleared. The first cause stands.
static FIRST: [Step; 14] = [
    Step::Shows(0),
    Step::Fails(5, DeviceCause::Stray, 0x0800_0000),
    Step::Fails(1, DeviceCause::TaskFile, 0x4000_0000),
    Step::Fails(5, DeviceCause::Twice, 0x0800_0000),
    Step::Shows(0x0005_0004),
    Step::Has(5, Some(DeviceCause::Stray)),
    Step::Has(2, None),
    Step::Forgets(2),
    Step::Shows(0x0005_0004),
    Step::Forgets(5),
    Step::Shows(0x0001_0004),
    Step::Has(5, None),
    Step::Forgets(1),
    Step::Shows(0),
];

#[test]
fn first_faulty_device_is_reported(rt: HostRuntime) {
    play(&rt, PortErrors::new(), &FIRST);
}

/// While the port is stopped PxFBS shows no device, though one is faulty.
static SHOWS_NONE: [Step; 9] = [
    Step::Fails(15, DeviceCause::Short, 0x0800_0000),
    Step::Shows(0x000F_0004),
    Step::IsStopped(None),
    Step::Stops(PortCause::Bus, 0x2800_0000),
    Step::Has(15, Some(DeviceCause::Short)),
    Step::Shows(0),
    Step::Falls,
    Step::IsStopped(None),
    Step::Has(15, None),
];

#[test]
fn a_stopped_port_shows_no_device(rt: HostRuntime) {
    play(&rt, PortErrors::default(), &SHOWS_NONE);
}

/// The bits by their places in PxIS.
#[test]
fn bits_have_their_places(rt: HostRuntime) {
    for (bit, flag) in [
        (0u32, Interrupts::DHRS),
        (1, Interrupts::PSS),
        (2, Interrupts::DSS),
        (3, Interrupts::SDBS),
        (4, Interrupts::UFS),
        (24, Interrupts::OFS),
        (27, Interrupts::IFS),
        (29, Interrupts::HBFS),
        (30, Interrupts::TFES),
    ] {
        assert!(rt; flag.bits() == 1_u32.wrapping_shl(bit), "{bit}");
    }
    assert!(rt; Interrupts::all().bits() == 0x6900_001F);
}

/// Devices 5, 1 and 3: each call clears the one that PxFBS shows, and the lowest one left is shown next.
static CLEARS: [Step; 14] = [
    Step::Clears(None),
    Step::Fails(5, DeviceCause::Stray, 0x0800_0000),
    Step::Fails(1, DeviceCause::Stray, 0x0800_0000),
    Step::Fails(3, DeviceCause::Stray, 0x0800_0000),
    Step::Clears(Some(5)),
    Step::Has(5, None),
    Step::Shows(0x0001_0004),
    Step::Clears(Some(1)),
    Step::Has(1, None),
    Step::Shows(0x0003_0004),
    Step::Clears(Some(3)),
    Step::Has(3, None),
    Step::Shows(0),
    Step::Clears(None),
];

#[test]
fn clears_what_is_shown(rt: HostRuntime) {
    play(&rt, PortErrors::new(), &CLEARS);
}

/// While the port is stopped no device is cleared, though one is faulty.
static CLEARS_NONE: [Step; 5] = [
    Step::Fails(2, DeviceCause::BadTag, 0x0800_0000),
    Step::Stops(PortCause::Bus, 0x2800_0000),
    Step::Clears(None),
    Step::Has(2, Some(DeviceCause::BadTag)),
    Step::IsStopped(Some(PortCause::Bus)),
];

#[test]
fn a_stopped_port_clears_no_device(rt: HostRuntime) {
    play(&rt, PortErrors::new(), &CLEARS_NONE);
}
