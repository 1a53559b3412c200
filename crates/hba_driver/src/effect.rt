//! What a tick does to port and memory.

ghost use Rattle.std.specs.Prelude.{◌≡◌, ◌+◌, ◌*◌, ◌^◌, ◌<◌, ◌≤◌, true, length, replicate};
ghost use Rattle.std.specs.List.{list_all};
ghost use Rattle.host_memory.specs.Memory.{overwritten};
ghost use Rattle.hba_driver.specs.Effects.{Acts, ActsAll, Commands, Tries, clearing, effects_of, emptied, is_effect, issuing, opening_write as opening_write_of, order_effects, prds_with, restart_write as restart_write_of, stage_effects, table_of as table_of_slot};
ghost use Rattle.hba_driver.specs.Modes.{clears_with as clears_with_in, enabled as enabled_in};
ghost use Rattle.hba_driver.specs.declared.mode.Mode.TheVariants.{Switching, CommandBased};
ghost use Rattle.hba_driver.specs.Turns.{IsAct};
ghost use Rattle.hba_driver.specs.Drivers.{IsOrder};

use crate::mode::Mode;
use crate::order::{CONTROL_PORT, Order};
use crate::path::Stage;
use crate::sight::{CI, CLB, CLBU, CMD, FB, FBS, FBU, IS, SACT, SNTF};
use crate::turn::Act;
use fis_view::H2dFields;
use hba_commands::write_command;
use hba_fbs::HostPort;
use host_memory::{HostMemory, Prd};

/// One thing that a tick does to port or memory.
#[derive(Clone, Copy, Debug, PartialEq, Eq)]
pub(crate) enum Effect {
    /// A value is written to the register at an offset.
    Writes(u32, u32),
    /// A device is flushed.
    Flushes(u8),
    /// The row of a device in the received area is set to 0.
    Empties(u8),
    /// A command is written into a slot. The flag says whether its data goes to the driver's buffer.
    Commands(u8, H2dFields, bool),
}

/// The driver's buffer.
const BUFFER: Prd = Prd {
    address: 0x10_0000,
    bytes: 0x200,
};
/// The slot of commands to the multiplier.
const CONTROL_SLOT: u8 = 31;
/// The slot of the driver's own commands to devices.
const DEVICE_SLOT: u8 = 30;

fn bit(k: u8) -> u32
    requires { k < 32 }
    ensures { result ≡ 2 ^ k }
{
    1 << k
}

/// The address of a slot's command table.
pub(crate) fn table_of(slot: u8) -> u32
    ensures { result ≡ table_of_slot slot }
{
    0x2000 + 0x1000 * u32::from(slot)
}

fn put(structure: &mut [u8], at: usize, bytes: &[u8])
    requires { at + length bytes.now ≤ length structure.old }
    ensures { structure.new ≡ overwritten structure.old at bytes.now }
{
    structure[at..at + bytes.len()].copy_from_slice(bytes);
}

fn empty_row(memory: &mut HostMemory, dev: u8)
    requires { dev < 16 }
    ensures { memory.new ≡ emptied dev memory.old }
{
    put(
        memory.structure_mut(),
        0x1000 + 0x100 * dev as usize,
        &[0; 256],
    );
}

fn write_own(memory: &mut HostMemory, slot: u8, fields: H2dFields, buffer: bool)
    requires { slot < 32 }
    ensures { Commands memory.old slot fields (prds_with buffer) memory.new }
{
    if buffer {
        write_command(memory, 0, slot, table_of(slot), &fields, &[BUFFER]);
    } else {
        write_command(memory, 0, slot, table_of(slot), &fields, &[]);
    }
}

fn try_write(port: &mut HostPort, memory: &HostMemory, offset: u32, value: u32)
    ensures { Tries port.old memory.now offset value port.new }
{
    match port.write(offset, value, memory) {
        Ok(()) => {}
        Err(_) => {}
    }
}

impl Effect {
    fn perform(self, port: &mut HostPort, memory: &mut HostMemory)
        requires { is_effect self ≡ true }
        ensures { Acts self port.old memory.old port.new memory.new }
    {
        match self {
            Effect::Writes(offset, value) => try_write(port, memory, offset, value),
            Effect::Flushes(dev) => {
                let _ = port.flush_device(dev);
            }
            Effect::Empties(dev) => empty_row(memory, dev),
            Effect::Commands(slot, fields, buffer) => write_own(memory, slot, fields, buffer),
        }
    }
}

// Performs the effects one after another.
#[tactic(auto, unfolding(crate::specs::Effects::ActsAll))]
fn perform_all(effects: &[Effect], port: &mut HostPort, memory: &mut HostMemory)
    requires { list_all is_effect effects.now ≡ true }
    ensures { ActsAll effects.now port.old memory.old port.new memory.new }
{
    if let [first, rest @ ..] = effects {
        first.perform(port, memory);
        port.keeps_rules();
        perform_all(rest, port, memory);
    }
}

// PxFBS.EN.
fn enabled(mode: Mode) -> u32
    ensures { result ≡ enabled_in mode }
{
    match mode {
        Mode::Switching => 1,
        Mode::CommandBased => 0,
    }
}

#[tactic(auto, unfolding(crate::specs::Effects::opening_write))]
fn opening_write(mode: Mode, k: u8) -> Effect
    requires { k < 7 }
    ensures value { result ≡ opening_write_of mode k }
    ensures possible { is_effect result ≡ true }
{
    match k {
        0 => Effect::Writes(CLB, 0),
        1 => Effect::Writes(CLBU, 0),
        2 => Effect::Writes(FB, 0x1000),
        3 => Effect::Writes(FBU, 0),
        4 => Effect::Writes(FBS, enabled(mode)),
        5 => Effect::Writes(CMD, 0x10),
        _ => Effect::Writes(CMD, 0x2_0011),
    }
}

#[tactic(auto, unfolding(crate::specs::Effects::restart_write))]
fn restart_write(k: u8) -> Effect
    requires { k < 2 }
    ensures value { result ≡ restart_write_of k }
    ensures possible { is_effect result ≡ true }
{
    match k {
        0 => Effect::Writes(IS, 0xFFFF_FFFF),
        _ => Effect::Writes(CMD, 0x2_0011),
    }
}

// PxFBS.DEC and EN.
fn clears_with(mode: Mode) -> u32
    ensures { result ≡ clears_with_in mode }
{
    match mode {
        Mode::Switching => 3,
        Mode::CommandBased => 2,
    }
}

// Clears the fault of a device: OFS, IFS and TFES in PxIS, and DEC, with the device and EN, in PxFBS.
fn clear_fault(mode: Mode, dev: u8, port: &mut HostPort, memory: &mut HostMemory)
    ensures { ActsAll (clearing mode dev) port.old memory.old port.new memory.new }
{
    let seen = Effect::Writes(IS, 0x4900_0000);
    let cleared = Effect::Writes(FBS, 0x100 * u32::from(dev) + clears_with(mode));
    perform_all(&[seen, cleared], port, memory);
}

// Writes the device and EN to PxFBS.
fn choose(dev: u8) -> Effect
    ensures { result ≡ Effect.Writes 64 (256 * dev + 1) }
{
    Effect::Writes(FBS, 0x100 * u32::from(dev) + 1)
}

// Writes the slot's bit to PxCI.
fn issue(slot: u8) -> Effect
    requires { slot < 32 }
    ensures { result ≡ Effect.Writes 56 (2 ^ slot) }
{
    Effect::Writes(CI, bit(slot))
}

impl Order {
    // Performs the order.
    #[tactic(auto, unfolding(crate::specs::Effects::order_effects))]
    fn perform(self, mode: Mode, port: &mut HostPort, memory: &mut HostMemory)
        requires { IsOrder self }
        ensures { ActsAll (order_effects mode self) port.old memory.old port.new memory.new }
    {
        match mode {
            Mode::Switching => self.perform_switching(port, memory),
            Mode::CommandBased => self.perform_alone(port, memory),
        }
    }

    // With FIS-based switching.
    #[tactic(auto, unfolding(crate::specs::Effects::order_effects))]
    fn perform_switching(self, port: &mut HostPort, memory: &mut HostMemory)
        requires { IsOrder self }
        ensures { ActsAll (order_effects Switching self) port.old memory.old port.new memory.new }
    {
        let Some(fields) = self.fields() else {
            return;
        };
        let own = Effect::Commands(CONTROL_SLOT, fields, false);
        let (chosen, issued) = (choose(CONTROL_PORT), issue(CONTROL_SLOT));
        match self {
            Order::Scan => {
                let noticed = Effect::Writes(SNTF, 0x8000);
                perform_all(&[noticed, own, chosen, issued], port, memory);
            }
            Order::Clear(dev) => {
                let (flush, empty) = (Effect::Flushes(dev), Effect::Empties(dev));
                perform_all(&[flush, empty, own, chosen, issued], port, memory);
            }
            _ => perform_all(&[own, chosen, issued], port, memory),
        }
    }

    // With command-based switching, where the device is that of the header, and no row is the device's own.
    #[tactic(auto, unfolding(crate::specs::Effects::order_effects))]
    fn perform_alone(self, port: &mut HostPort, memory: &mut HostMemory)
        requires { IsOrder self }
        ensures { ActsAll (order_effects CommandBased self) port.old memory.old port.new memory.new }
    {
        let Some(fields) = self.fields() else {
            return;
        };
        let own = Effect::Commands(CONTROL_SLOT, fields, false);
        let issued = issue(CONTROL_SLOT);
        match self {
            Order::Scan => {
                perform_all(&[Effect::Writes(SNTF, 0x8000), own, issued], port, memory);
            }
            Order::Clear(dev) => {
                perform_all(&[Effect::Flushes(dev), own, issued], port, memory);
            }
            _ => perform_all(&[own, issued], port, memory),
        }
    }
}

impl Stage {
    // Performs the stage, for a device.
    fn perform(self, mode: Mode, dev: u8, port: &mut HostPort, memory: &mut HostMemory)
        requires { dev < 15 }
        ensures { ActsAll (stage_effects mode dev self) port.old memory.old port.new memory.new }
    {
        let Some(fields) = self.fields(dev) else {
            return;
        };
        let own = Effect::Commands(DEVICE_SLOT, fields, self.reads_page());
        let issued = issue(DEVICE_SLOT);
        match mode {
            Mode::Switching => perform_all(&[own, choose(dev), issued], port, memory),
            Mode::CommandBased => perform_all(&[own, issued], port, memory),
        }
    }
}

// Issues the command of a request.
fn issue_request(
    mode: Mode,
    slot: u8,
    dev: u8,
    queued: bool,
    port: &mut HostPort,
    memory: &mut HostMemory,
)
    requires { slot < 30 }
    ensures { ActsAll (issuing mode slot dev queued) port.old memory.old port.new memory.new }
{
    let (armed, issued) = (Effect::Writes(SACT, bit(slot)), issue(slot));
    match (mode, queued) {
        (Mode::Switching, true) => perform_all(&[choose(dev), armed, issued], port, memory),
        (Mode::Switching, false) => perform_all(&[choose(dev), issued], port, memory),
        (Mode::CommandBased, true) => perform_all(&[armed, issued], port, memory),
        (Mode::CommandBased, false) => perform_all(&[issued], port, memory),
    }
}

impl Act {
    /// Performs the act on port and memory.
    #[tactic(auto, unfolding(crate::specs::Effects::effects_of))]
    pub(crate) fn perform(self, mode: Mode, port: &mut HostPort, memory: &mut HostMemory)
        requires { IsAct self }
        ensures { ActsAll (effects_of mode self) port.old memory.old port.new memory.new }
    {
        match self {
            Act::Opens(k) => perform_all(&[opening_write(mode, k)], port, memory),
            Act::Stops => perform_all(&[Effect::Writes(CMD, 0x2_0010)], port, memory),
            Act::Restarts(k) => perform_all(&[restart_write(k)], port, memory),
            Act::Clears(dev) => clear_fault(mode, dev, port, memory),
            Act::Orders(order) => order.perform(mode, port, memory),
            Act::Steps(dev, stage) => stage.perform(mode, dev, port, memory),
            Act::Issues(slot, dev, queued) => {
                issue_request(mode, slot, dev, queued, port, memory);
            }
        }
    }
}
