//! The host port.

ghost use Rattle.std.specs.Prelude.{◌≡◌, ◌<◌, ◌==◌, ◌&&◌, not, if◌then◌else◌, ℕ, None, false, true, OnErr, OnOk};
ghost use Rattle.slots.specs.Commands.{own_slots};
ghost use Rattle.slots.specs.Slots.{slots_of};
ghost use Rattle.slots.specs.Table.{IsTable};
ghost use Rattle.port_errors.specs.Errors.{AreErrors, after_clear, cleared_device, no_errors, port_cause_in};
ghost use Rattle.std.specs.Result.{result_err};
ghost use Rattle.hba_fbs.specs.Issuing.{any_beside as any_beside_of, any_slot, commands_with, is_busy, view_with};
ghost use Rattle.hba_fbs.specs.Offering.{WritesBy, active_by, aimed_by, asked_by, commands_by, is_apart_by, issue_refusal_by, refusal_by, slots_refusal_by, view_by, view_issued_by, write_refusal_by};
ghost use Rattle.hba_fbs.specs.Writing.{apart_refusal as apart_refusal_of, errors_after, view_cleared};
ghost use Rattle.hba_fbs.specs.Reading.{read_at, shown_device as shown_device_of, value_of};
ghost use Rattle.hba_fbs.specs.Views.{Flushes, IsCorePort, LeavesOtherViews, opening_port, stopped_view, view_of};

mod saved;

use crate::bits::{DEC, UNKNOWN, bit, has_bit, raised};
use crate::error::{NoRegister, WriteError};
use crate::issue::{aimed, any_bad, any_beside, any_busy, any_other, issue_all};
use crate::offers::Offers;
use crate::register::Register;
use crate::registers::Registers;
use crate::state::{DeviceState, state_of, stop_all};
use hba_commands::Command;
use port_errors::{DeviceCause, Interrupts, PortCause, PortErrors};
use slots::SlotTable;
use std::marker::Model;

/// A host port that holds no memory: it decides, and whoever has the memory moves the bytes.
#[derive(Drop)]
pub struct PortCore {
    /// Its own registers.
    pub(crate) registers: Registers,
    /// What is issued in each slot, and the last setup of each device.
    pub(crate) slots: SlotTable,
    /// The faulty devices, and what stopped the port.
    pub(crate) errors: PortErrors,
    /// By device: its task file, whether it is in software reset, and the block of its last PIO Setup.
    pub(crate) states: [DeviceState; 16],
    /// By slot: the command that was issued last.
    pub(crate) commands: [Option<Command>; 32],
    /// The running number of the next frame that goes out.
    pub(crate) number: u32,
    /// The device of the slot that was issued last, 15 before any. Without FIS-based switching it is the active
    /// device.
    pub(crate) active: u8,
}

impl Model for PortCore {
    ghost use Rattle.hba_fbs.specs.Views.{IsCorePort, Port};

    ghost Value = { Port };

    ghost view = { λ p. record {
      registers = p.registers;
      slots = p.slots;
      errors = p.errors;
      states = p.states;
      commands = p.commands;
      number = p.number;
      active = p.active;
    } };

    ghost invariant = { λ p. IsCorePort (record {
      registers = p.registers;
      slots = p.slots;
      errors = p.errors;
      states = p.states;
      commands = p.commands;
      number = p.number;
      active = p.active;
    }) };
}

// The active device after a write of PxCI for a device.
fn active_with(active: u8, dev: u8, value: u32) -> u8
    requires active { active < 16 }
    requires dev { dev < 16 }
    ensures value { result ≡ (if value == 0 then active else dev) }
    ensures low { result < 16 }
{
    if value == 0 { active } else { dev }
}

impl PortCore {
    /// A new port: no command is issued, and the port is stopped.
    pub fn new() -> PortCore
        ensures { result ≡ opening_port }
    {
        PortCore {
            registers: Registers::new(),
            slots: SlotTable::new(),
            errors: PortErrors::new(),
            states: [DeviceState::new(); 16],
            commands: [None; 32],
            number: 0,
            active: 15,
        }
    }

    /// The rules that hold for every port, its slots and its errors. The call has no effect.
    pub fn keeps_rules(&self)
        ensures port { IsCorePort self.now }
        ensures slots { IsTable self.now.slots }
        ensures errors { AreErrors self.now.errors }
    {
        self.slots.keeps_rules();
        let _ = self.errors.fbs_bits();
    }

    /// The device whose task file PxTFD shows: with FIS-based switching the one in PxFBS.DEV, and else the active one.
    pub fn shown_device(&self) -> u8
        ensures is { result ≡ shown_device_of self.now }
        ensures low { result < 16 }
    {
        if self.registers.switching {
            self.registers.chosen
        } else {
            self.active
        }
    }

    // The value of a register.
    #[tactic(auto, unfolding(crate::specs::Reading::value_of))]
    fn value(&self, register: Register) -> u32
        ensures { result ≡ value_of register self.now }
    {
        let registers = self.registers;
        match register {
            Register::Clb => registers.clb,
            Register::Clbu => registers.clbu,
            Register::Fb => registers.fb,
            Register::Fbu => registers.fbu,
            Register::Is => registers.interrupts | raised(registers.unknown, Interrupts::UFS),
            Register::Ie => registers.enabled,
            Register::Cmd => registers.cmd(),
            Register::Tfd => state_of(&self.states, self.shown_device()).task_file(),
            Register::Sig => registers.signature,
            Register::Serr => bit(registers.unknown, UNKNOWN),
            Register::Sact => registers.armed | self.slots.queued(),
            Register::Ci => self.slots.ci(),
            Register::Sntf => u32::from(registers.notified),
            Register::Fbs => registers.fbs() + self.errors.fbs_bits().in_register(),
        }
    }

    /// The value of the register at this offset.
    pub fn read(&self, offset: u32) -> Result<u32, NoRegister>
        ensures { result ≡ read_at self.now offset }
    {
        let Some(register) = Register::at(offset) else {
            return Err(NoRegister);
        };
        Ok(self.value(register))
    }

    /// The first cause of a device's fault, None while it is not faulty. The cause stands until the device is
    /// flushed, PxFBS.DEC clears it, PxCMD.ST falls, or the link or the port is reset.
    pub fn cause(&self, dev: u8) -> Option<DeviceCause>
        requires { dev < 16 }
        ensures { result ≡ (view_of dev self.now).fault }
    {
        self.errors.cause(dev)
    }

    /// The first cause that stopped the whole port, None while no error of the port has stopped it. None too
    /// where a device did, without FIS-based switching: then `cause` names what it was. The cause stands until
    /// PxCMD.ST falls, or the link or the port is reset.
    pub fn port_cause(&self) -> Option<PortCause>
        ensures { result ≡ port_cause_in self.now.errors.port }
    {
        self.errors.port_cause()
    }

    /// Whether a device is in software reset: a control frame with SRST set went out to it, and no signature
    /// has come since.
    pub fn resetting(&self, dev: u8) -> bool
        requires { dev < 16 }
        ensures { result ≡ (view_of dev self.now).state.resetting }
    {
        self.states[dev as usize].resetting
    }

    /// Whether the signature of an ATA device came from a device, and was not ignored, since the port was
    /// opened or the device was flushed last.
    pub fn signed(&self, dev: u8) -> bool
        requires { dev < 16 }
        ensures { result ≡ (view_of dev self.now).state.signed }
    {
        self.states[dev as usize].signed
    }

    /// Frees all slots of a device and answers their mask. Its fault and its reset end, its task file is again
    /// that of a new port, and it is not signed.
    pub fn flush_device(&mut self, dev: u8) -> u32
        requires { dev < 16 }
        ensures answer { result ≡ own_slots (slots_of dev self.old.slots) }
        ensures after { Flushes self.old dev self.new }
    {
        let freed = self.slots.flush(dev);
        self.errors.forget(dev);
        self.states[dev as usize] = DeviceState::new();
        freed
    }

    // The device for which a write of PxCI issues.
    fn aimed<O: Offers>(&self, value: u32, offers: &O) -> u8
        requires { O.can_offer offers.now }
        ensures is { result ≡ aimed_by self.now.registers (O.offer offers.now) value }
        ensures low { result < 16 }
    {
        aimed(self.registers, offers, value)
    }

    // Whether, without FIS-based switching, a write of PxCI for a device would issue beside another one.
    fn is_beside(&self, value: u32, dev: u8) -> bool
        ensures { result
            ≡ (not self.now.registers.switching && not (value == 0) && any_beside_of self.now.slots dev) }
    {
        !self.registers.switching && value != 0 && any_beside(&self.slots, dev)
    }

    // Whether a slot that a write of PxCI is to issue is not for the device at which the write is aimed.
    fn is_apart<O: Offers>(&self, value: u32, offers: &O) -> bool
        requires { O.can_offer offers.now }
        ensures { result ≡ is_apart_by self.now (O.offer offers.now) value }
    {
        let dev = self.aimed(value, offers);
        self.is_beside(value, dev) || any_other(offers, dev, value)
    }

    // The refusal of this.
    fn apart_refusal(&self) -> WriteError
        ensures { result ≡ apart_refusal_of self.now.registers }
    {
        if self.registers.switching {
            WriteError::WrongDevice
        } else {
            WriteError::OtherDevice
        }
    }

    // Why a write of PxCI is refused because of its slots.
    fn issue_refusal<O: Offers>(&self, value: u32, offers: &O) -> Option<WriteError>
        requires { O.can_offer offers.now }
        ensures { result ≡ issue_refusal_by self.now (O.offer offers.now) value }
    {
        if any_busy(&self.slots, value) {
            return Some(WriteError::SlotBusy);
        }
        if self.is_apart(value, offers) {
            return Some(self.apart_refusal());
        }
        if any_bad(offers, value) {
            return Some(WriteError::BadTable);
        }
        None
    }

    #[tactic(auto, unfolding(crate::specs::Offering::slots_refusal_by))]
    fn slots_refusal<O: Offers>(
        &self,
        register: Register,
        value: u32,
        offers: &O,
    ) -> Option<WriteError>
        requires { self.now.registers.started ≡ true → O.can_offer offers.now }
        ensures { result ≡ slots_refusal_by register self.now (O.offer offers.now) value }
    {
        match register {
            Register::Sact => any_busy(&self.slots, value).then_some(WriteError::SlotBusy),
            Register::Ci if self.registers.started => self.issue_refusal(value, offers),
            _ => None,
        }
    }

    // Why a write is refused.
    fn refusal<O: Offers>(&self, register: Register, value: u32, offers: &O) -> Option<WriteError>
        requires { self.now.registers.started ≡ true → O.can_offer offers.now }
        ensures { result ≡ refusal_by register self.now (O.offer offers.now) value }
    {
        if let Some(refusal) = self.registers.refusal(register, value) {
            return Some(refusal);
        }
        self.slots_refusal(register, value, offers)
    }

    // ST falls: all slots are freed, and all faults and resets end.
    fn stop(&mut self)
        ensures views { (n : ℕ) → n < 16 → view_of n self.new ≡ stopped_view (view_of n self.old) }
        ensures registers { self.new.registers ≡ self.old.registers }
        ensures errors { self.new.errors ≡ no_errors }
        ensures commands { self.new.commands ≡ self.old.commands }
        ensures number { self.new.number ≡ self.old.number }
        ensures active { self.new.active ≡ self.old.active }
    {
        let _ = self.slots.flush_all();
        self.errors.stop();
        stop_all(&mut self.states);
    }

    // Clears the device whose error PxFBS shows: its slots are freed, and its fault and its reset end.
    fn clear_device(&mut self)
        ensures views { (n : ℕ) → n < 16
            → view_of n self.new
            ≡ view_cleared n (cleared_device self.old.errors) (view_of n self.old) }
        ensures registers { self.new.registers ≡ self.old.registers }
        ensures errors { self.new.errors ≡ after_clear self.old.errors }
        ensures commands { self.new.commands ≡ self.old.commands }
        ensures number { self.new.number ≡ self.old.number }
        ensures active { self.new.active ≡ self.old.active }
    {
        if let Some(dev) = self.errors.clear_device() {
            let _ = self.slots.flush(dev);
            let state = state_of(&self.states, dev);
            self.states[dev as usize] = state.stopped();
        }
    }

    // Issues the commands in these slots for a device.
    fn issue_for<O: Offers>(&mut self, dev: u8, value: u32, offers: &O)
        requires dev { dev < 16 }
        requires can { O.can_offer offers.now }
        requires free { any_slot value (is_busy self.old.slots) ≡ false }
        ensures own { view_of dev self.new
            ≡ view_with dev (asked_by (O.offer offers.now) value) (view_of dev self.old) }
        ensures others { LeavesOtherViews dev self.old self.new }
        ensures registers { self.new.registers ≡ self.old.registers }
        ensures errors { self.new.errors ≡ self.old.errors }
        ensures commands { self.new.commands
            ≡ commands_with (asked_by (O.offer offers.now) value) self.old.commands }
        ensures number { self.new.number ≡ self.old.number }
        ensures active { self.new.active ≡ (if value == 0 then self.old.active else dev) }
    {
        issue_all(&mut self.slots, &mut self.commands, offers, dev, value);
        self.active = active_with(self.active, dev, value);
    }

    // Issues the commands in these slots.
    fn issue<O: Offers>(&mut self, value: u32, offers: &O)
        requires can { O.can_offer offers.now }
        requires free { any_slot value (is_busy self.old.slots) ≡ false }
        ensures own { let dev = aimed_by self.old.registers (O.offer offers.now) value in
            view_of dev self.new ≡ view_issued_by self.old.registers (O.offer offers.now) value (view_of dev self.old) }
        ensures others { LeavesOtherViews (aimed_by self.old.registers (O.offer offers.now) value)
            self.old self.new }
        ensures registers { self.new.registers ≡ self.old.registers }
        ensures errors { self.new.errors ≡ self.old.errors }
        ensures commands { self.new.commands
            ≡ commands_with (asked_by (O.offer offers.now) value) self.old.commands }
        ensures number { self.new.number ≡ self.old.number }
        ensures active { self.new.active ≡ (if value == 0 then self.old.active
            else aimed_by self.old.registers (O.offer offers.now) value) }
    {
        let dev = self.aimed(value, offers);
        self.issue_for(dev, value, offers);
    }

    // What an accepted write changes apart from the port's own registers.
    #[tactic(auto, unfolding(crate::specs::Offering::view_by, crate::specs::Writing::errors_after, crate::specs::Offering::commands_by, crate::specs::Offering::active_by))]
    fn act<O: Offers>(&mut self, register: Register, value: u32, offers: &O)
        requires can { self.old.registers.started ≡ true → O.can_offer offers.now }
        requires accepted { refusal_by register self.old (O.offer offers.now) value ≡ None }
        ensures views { (n : ℕ) → n < 16
            → view_of n self.new ≡ view_by register self.old (O.offer offers.now) value n }
        ensures registers { self.new.registers ≡ self.old.registers }
        ensures errors { self.new.errors ≡ errors_after register self.old value }
        ensures commands { self.new.commands ≡ commands_by register self.old (O.offer offers.now) value }
        ensures number { self.new.number ≡ self.old.number }
        ensures active { self.new.active ≡ active_by register self.old (O.offer offers.now) value }
    {
        match register {
            Register::Cmd => {
                if self.registers.falls(value) {
                    self.stop();
                }
            }
            Register::Ci => {
                if self.registers.started {
                    self.issue(value, offers);
                }
            }
            Register::Fbs => {
                if has_bit(value, DEC) {
                    self.clear_device();
                }
            }
            Register::Clb
            | Register::Clbu
            | Register::Fb
            | Register::Fbu
            | Register::Is
            | Register::Ie
            | Register::Tfd
            | Register::Sig
            | Register::Serr
            | Register::Sact
            | Register::Sntf => {}
        }
    }

    /// Writes a register: all bits of the value, or none if the write is refused. Ones written to PxCI issue
    /// the commands in those slots, as they are offered. A write of PxCMD that clears ST stops every device. A write of
    /// PxFBS with DEC set clears the device whose error PxFBS shows. Only a write of PxCI looks at the offers.
    pub fn write<O: Offers>(
        &mut self,
        offset: u32,
        value: u32,
        offers: &O,
    ) -> Result<(), WriteError>
        requires can { self.old.registers.started ≡ true → O.can_offer offers.now }
        ensures refusal { result_err result ≡ write_refusal_by self.old (O.offer offers.now) offset value }
        ensures refused { OnErr result (self.new ≡ self.old) }
        ensures accepted { OnOk result (WritesBy self.old (O.offer offers.now) offset value self.new) }
    {
        let Some(register) = Register::at(offset) else {
            return Err(WriteError::NoRegister);
        };
        if let Some(refusal) = self.refusal(register, value, offers) {
            return Err(refusal);
        }
        self.act(register, value, offers);
        self.registers = self.registers.written(register, value);
        Ok(())
    }
}
