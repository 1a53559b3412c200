//! The host port beside a memory: what the core decides, with the bytes moved.

ghost use Rattle.std.specs.Prelude.{ℕ, ◌≡◌, ◌≢◌, ◌<◌, ◌≤◌, ◌+◌, [], None, Some, Ok, false, true, drop, is_some, length, IfOk, IfSome, OnErr, OnOk};
ghost use Rattle.std.specs.Result.{result_err};
ghost use Rattle.fis_view.specs.Seen.{frame_of};
ghost use Rattle.host_memory.specs.Memory.{Memory};
ghost use Rattle.host_memory.specs.Place.{total_of};
ghost use Rattle.port_errors.specs.Errors.{AreErrors, KeepsCauses, cause_of, port_cause_in};
ghost use Rattle.slots.specs.Commands.{own_slots};
ghost use Rattle.slots.specs.Slots.{KeepsFree, match_some, slots_of};
ghost use Rattle.slots.specs.Table.{IsTable};
ghost use Rattle.hba_fbs.specs.Deciding.{Decides, carries, room_if};
ghost use Rattle.hba_fbs.specs.Due.{due_of};
ghost use Rattle.hba_fbs.specs.Issuing.{is_busy};
ghost use Rattle.hba_fbs.specs.Offsets.{register_at};
ghost use Rattle.hba_fbs.specs.Posting.{posted as posted_registers};
ghost use Rattle.hba_fbs.specs.Reading.{read_at};
ghost use Rattle.hba_fbs.specs.Registers.{is_outside as is_outside_of};
ghost use Rattle.hba_fbs.specs.Resets.{link_reset, whole_reset};
ghost use Rattle.hba_fbs.specs.Sending.{Gives, MayRest, Order, data_fis, gathered, host_stamp, is_sent, outgoing};
ghost use Rattle.hba_fbs.specs.Tables.{Delivers, is_sound};
ghost use Rattle.hba_fbs.specs.Taking.{Hears, Ignores, PostsIn, errors_in, heard_now, heard_report, heard_view, ignores, place_in, port_of, row_for, settled as settled_registers, wrote_by};
ghost use Rattle.hba_fbs.specs.Turning.{IsFed, IsOrdered, outgoing_at};
ghost use Rattle.hba_fbs.specs.Views.{Flushes, IsPort, LeavesOtherViews, opening_port, view_of};
ghost use Rattle.hba_fbs.specs.Writing.{Writes, write_refusal};

use crate::due::Due;
use crate::error::{NoRegister, WriteError};
use crate::list::CommandList;
use crate::port::PortCore;
use crate::post::post;
use crate::register::Register;
use crate::registers::Registers;
use crate::report::TakeReport;
use crate::room::Room;
use crate::tables::{keep_due, receiving_table, sound_table};
use crate::take::admit;
use crate::turn::Turn;
use fis_view::{Fis, Frame, Stamp};
use hba_commands::Command;
use host_memory::{HostMemory, PrdTable};
use port_errors::{DeviceCause, PortCause};
use rx_area::Posted;
use std::alloc::{AllocError, Global};
use std::marker::Model;

/// The type of a Data FIS (Serial ATA 3.x, 10.5.12).
const DATA: u8 = 0x46;
/// A host port.
#[derive(Drop)]
pub struct HostPort {
    core: PortCore,
}

impl Model for HostPort {
    ghost use Rattle.hba_fbs.specs.Registers.{AreRegisters};
    ghost use Rattle.hba_fbs.specs.Views.{Port};

    ghost Value = { Port };

    ghost view = { λ p. p.core };

    ghost invariant = { λ p. AreRegisters p.core.registers };
}

// Posts a FIS in a row of the received area at `fb`, if there is one.
fn post_in(memory: &mut HostMemory, fb: u32, row: Option<u8>, fis: &Fis<'_>) -> Posted
    requires area { fb + 4096 ≤ 1048576 }
    requires row { IfSome row (λ n. n < 16) }
    ensures posted { result ≡ place_in row (Some fis.now) }
    ensures posts { PostsIn fb row (Some fis.now) memory.old.structure memory.new.structure }
    ensures client { memory.new.client ≡ memory.old.client }
{
    match row {
        Some(row) => post(memory, fb, row, fis),
        None => Posted::Nothing,
    }
}

// The head of a Data FIS to a device, in a vector with room for `len` bytes of data behind it.
fn data_head(alloc: Global, dev: u8, len: u32) -> Result<Vec<u8>, AllocError>
    ensures { IfOk result (λ bytes. bytes.items ≡ data_fis dev []) }
{
    let mut bytes = Vec::with_capacity(alloc, 4 + len as usize)?;
    bytes.extend_from_slice(&[DATA, dev, 0, 0])?;
    Ok(bytes)
}

// A Data FIS with bytes of a transfer, from `offset` on, as they are in client memory.
fn gather(
    alloc: Global,
    dev: u8,
    table: &PrdTable<'_>,
    client: &[u8],
    offset: u32,
    len: u32,
) -> Result<Vec<u8>, AllocError>
    requires client { table.now.client_len ≡ length client.now }
    requires fits { offset + len ≤ total_of table.now.prds }
    ensures bytes { IfOk result (λ bytes. bytes.items
        ≡ data_fis dev (gathered table.now.prds offset len client.now)) }
    ensures len { IfOk result (λ bytes. length bytes.items ≡ len + 4) }
{
    let mut bytes = data_head(alloc, dev, len)?;
    for part in table.parts(client, offset, len) {
        bytes.extend_from_slice(part)?;
    }
    Ok(bytes)
}

fn stamp(dev: u8, number: u32) -> Stamp
    ensures { result ≡ host_stamp dev number }
{
    Stamp {
        port: dev,
        conn: 0,
        number,
        shown: [0; 15],
    }
}

// The frame of a command.
fn order_frame(alloc: Global, dev: u8, cfis: &[u8; 20], number: u32) -> Result<Frame, AllocError>
    ensures { IfOk result (λ frame. frame
        ≡ record { bytes = cfis.now; stamp = host_stamp dev number }) }
{
    match Frame::from_bytes(alloc, cfis, stamp(dev, number)) {
        Ok(frame) => Ok(frame),
        Err(_) => Err(AllocError),
    }
}

// The payload of a Data FIS.
fn payload_of_fis<'f>(fis: &Fis<'f>) -> Option<&'f [u8]>
    ensures there { IfSome result (λ payload. payload.now ≡ drop 4 (frame_of fis.now)) }
    ensures none { result ≡ None → carries true fis.now ≡ false }
{
    match fis {
        Fis::Payload(fis) => Some(fis.payload()),
        _ => None,
    }
}

// Whether a write sets FRE or ST for an area that does not lie in the structure area.
fn is_outside(registers: Registers, offset: u32, value: u32) -> bool
    ensures { result
        ≡ match_some (register_at offset) false (λ register. is_outside_of register registers value) }
{
    match Register::at(offset) {
        Some(register) => registers.is_outside(register, value),
        None => false,
    }
}

impl HostPort {
    /// A new port: no command is issued, and the port is stopped.
    pub fn new() -> HostPort
        ensures { result ≡ opening_port }
    {
        HostPort {
            core: PortCore::new(),
        }
    }

    /// The rules that hold for every port, its slots and its errors. The call has no effect.
    pub fn keeps_rules(&self)
        ensures port { IsPort self.now }
        ensures slots { IsTable self.now.slots }
        ensures errors { AreErrors self.now.errors }
    {
        self.core.keeps_rules();
    }

    /// The value of the register at this offset.
    pub fn read(&self, offset: u32) -> Result<u32, NoRegister>
        ensures { result ≡ read_at self.now offset }
    {
        self.core.read(offset)
    }

    /// The first cause of a device's fault, None while it is not faulty. The cause stands until the device is
    /// flushed, PxFBS.DEC clears it, PxCMD.ST falls, or the link or the port is reset.
    pub fn cause(&self, dev: u8) -> Option<DeviceCause>
        requires { dev < 16 }
        ensures { result ≡ (view_of dev self.now).fault }
    {
        self.core.cause(dev)
    }

    /// The first cause that stopped the whole port, None while no error of the port has stopped it. None too
    /// where a device did, without FIS-based switching: then `cause` names what it was. The cause stands until
    /// PxCMD.ST falls, or the link or the port is reset.
    pub fn port_cause(&self) -> Option<PortCause>
        ensures { result ≡ port_cause_in self.now.errors.port }
    {
        self.core.port_cause()
    }

    /// Whether a device is in software reset: a control frame with SRST set went out to it, and no signature
    /// has come since.
    pub fn resetting(&self, dev: u8) -> bool
        requires { dev < 16 }
        ensures { result ≡ (view_of dev self.now).state.resetting }
    {
        self.core.resetting(dev)
    }

    /// Whether the signature of an ATA device came from a device, and was not ignored, since the port was
    /// opened or the device was flushed last.
    pub fn signed(&self, dev: u8) -> bool
        requires { dev < 16 }
        ensures { result ≡ (view_of dev self.now).state.signed }
    {
        self.core.signed(dev)
    }

    /// Frees all slots of a device and answers their mask. Its fault and its reset end, its task file is again
    /// that of a new port, and it is not signed.
    pub fn flush_device(&mut self, dev: u8) -> u32
        requires { dev < 16 }
        ensures answer { result ≡ own_slots (slots_of dev self.old.slots) }
        ensures after { Flushes self.old dev self.new }
    {
        self.core.flush_device(dev)
    }

    /// Writes a register: all bits of the value, or none if the write is refused. Ones written to PxCI issue
    /// the commands in those slots. A write of PxCMD that clears ST stops every device. A write of PxFBS with
    /// DEC set clears the device whose error PxFBS shows. Only a write of PxCI looks at the memory.
    pub fn write(&mut self, offset: u32, value: u32, memory: &HostMemory) -> Result<(), WriteError>
        ensures refusal { result_err result ≡ write_refusal self.old memory.now offset value }
        ensures refused { OnErr result (self.new ≡ self.old) }
        ensures accepted { OnOk result (Writes self.old memory.now offset value self.new) }
    {
        let registers = self.core.registers();
        if is_outside(registers, offset, value) {
            return Err(WriteError::BadTable);
        }
        self.core
            .write(offset, value, &CommandList { registers, memory })
    }

    /// The port's own registers.
    pub fn registers(&self) -> Registers
        ensures { result ≡ self.now.registers }
    {
        self.core.registers()
    }

    /// Whether a command is issued in a slot, which is not done yet.
    pub fn is_issued(&self, slot: u8) -> bool
        requires { slot < 32 }
        ensures { result ≡ is_busy self.now.slots slot }
    {
        self.core.is_issued(slot)
    }

    /// The bytes of a write that [`next_out`](HostPort::next_out) gathers next, None where it gives no data next. Whoever
    /// keeps the bytes elsewhere puts them to their places before that.
    pub fn due(&self) -> Option<Due>
        ensures value { result ≡ due_of self.now }
        ensures slot { IfSome result (λ due. due.slot < 32) }
        ensures few { IfSome result (λ due. due.len ≤ 8192) }
    {
        self.core.due()
    }

    /// A COMRESET: commands, faults and resets end, and what devices told is gone, their signature and their notifications
    /// too; ST is 0. The addresses, FRE, PMA, PxFBS.EN and DEV stay, and frames are counted on.
    pub fn reset_link(&mut self)
        ensures { self.new ≡ link_reset self.old }
    {
        self.core.reset_link();
    }

    /// A reset of the whole controller: the addresses alone stay, and frames are counted on.
    pub fn reset(&mut self)
        ensures { self.new ≡ whole_reset self.old }
    {
        self.core.reset();
    }

    // Where the received area begins, while the port runs.
    fn area(&self) -> u32
        requires { self.now.registers.started ≡ true }
        ensures value { result ≡ self.now.registers.fb }
        ensures inside { result + 0x1000 ≤ 0x100000 }
    {
        self.core.area()
    }

    // Hears a FIS that may come from this PM Port, and writes its payload.
    #[tactic(auto, using(crate::proofs::DataLemmas::delivers_at))]
    fn hear_over(&mut self, dev: u8, fis: &Fis<'_>, memory: &mut HostMemory) -> TakeReport
        requires dev { dev < 16 }
        requires healthy { (view_of dev self.old).fault ≡ None }
        ensures decides { Decides self.old dev
            (room_if (is_sound memory.old self.old.commands (view_of dev self.old).slots))
            (Some fis.now) result self.new }
        ensures structure { memory.new.structure ≡ memory.old.structure }
        ensures client { Delivers memory.old self.old.commands (drop 4 (frame_of fis.now))
            result.wrote memory.new.client }
        ensures kept { KeepsCauses self.old.errors self.new.errors }
    {
        let Some(payload) = payload_of_fis(fis) else {
            return self.core.hear_good(dev, Room::Whole, fis);
        };
        let found = receiving_table(&self.core, memory, dev);
        let Some(found) = found else {
            return self.core.hear_good(dev, Room::NoTable, fis);
        };
        let report = self.core.hear_good(dev, Room::Whole, fis);
        if let Some(wrote) = report.wrote {
            memory.scatter(found.at, found.count, wrote.offset, payload);
        }
        report
    }

    // Hears a FIS that may come from this PM Port.
    fn hear_good(&mut self, dev: u8, fis: &Fis<'_>, memory: &mut HostMemory) -> TakeReport
        requires dev { dev < 16 }
        requires healthy { (view_of dev self.old).fault ≡ None }
        requires running { self.old.registers.started ≡ true }
        ensures own { view_of dev self.new
            ≡ heard_view dev (view_of dev self.old)
            (is_sound memory.old self.old.commands (view_of dev self.old).slots) (Some fis.now) }
        ensures others { LeavesOtherViews dev self.old self.new }
        ensures reports { result
            ≡ heard_report dev (place_in (row_for self.old dev) (Some fis.now))
            (heard_now self.old memory.old dev (Some fis.now)) }
        ensures registers { self.new.registers
            ≡ settled_registers (posted_registers self.old.registers dev
            (view_of dev self.old).state.resetting fis.now)
            (heard_now self.old memory.old dev (Some fis.now)) }
        ensures errors { self.new.errors
            ≡ errors_in self.old.registers.switching self.old.errors dev
            (heard_now self.old memory.old dev (Some fis.now)).fault }
        ensures commands { self.new.commands ≡ self.old.commands }
        ensures number { self.new.number ≡ self.old.number }
        ensures active { self.new.active ≡ self.old.active }
        ensures frees { KeepsFree self.old.slots self.new.slots }
        ensures posts { PostsIn self.old.registers.fb (row_for self.old dev) (Some fis.now)
            memory.old.structure memory.new.structure }
        ensures client { Delivers memory.old self.old.commands (drop 4 (frame_of fis.now))
            (wrote_by (heard_now self.old memory.old dev (Some fis.now)).happening)
            memory.new.client }
        ensures kept { KeepsCauses self.old.errors self.new.errors }
    {
        let (fb, row) = (self.area(), self.core.row(dev));
        let report = self.hear_over(dev, fis, memory);
        let _ = post_in(memory, fb, row, fis);
        keep_due(&self.core, memory, fis);
        report
    }

    // Takes a frame from this PM Port.
    fn take_from(&mut self, dev: u8, frame: &Frame, memory: &mut HostMemory) -> TakeReport
        requires dev { dev < 16 }
        ensures ignored { ignores dev self.old frame.now.bytes ≡ true
            → Ignores dev self.old memory.old result self.new memory.new }
        ensures heard { ignores dev self.old frame.now.bytes ≡ false
            → Hears dev self.old memory.old frame.now.bytes result self.new memory.new }
        ensures kept { KeepsCauses self.old.errors self.new.errors }
        ensures own { (other : ℕ) → other ≢ dev
            → cause_of self.new.errors other ≡ cause_of self.old.errors other }
    {
        let fis = frame.fis();
        if self.core.is_ignored(dev, &fis) {
            return TakeReport::ignored(dev);
        }
        match admit(dev, fis) {
            Some(fis) => self.hear_good(dev, &fis, memory),
            None => self.core.hear_bad(dev),
        }
    }

    /// Takes a FIS from a device or from the control port. It is either ignored, or posted and heard. A
    /// device that sends something wrong is faulty until it is flushed or cleared; the others go on. An error
    /// of the control port or of the memory stops the port. No FIS changes a cause that already stands, and
    /// none gives another device a cause.
    pub fn take(&mut self, frame: &Frame, memory: &mut HostMemory) -> TakeReport
        ensures ignored { ignores (port_of frame.now.bytes) self.old frame.now.bytes ≡ true
            → Ignores (port_of frame.now.bytes) self.old memory.old result self.new memory.new }
        ensures heard { ignores (port_of frame.now.bytes) self.old frame.now.bytes ≡ false
            → Hears (port_of frame.now.bytes) self.old memory.old frame.now.bytes
            result self.new memory.new }
        ensures kept { KeepsCauses self.old.errors self.new.errors }
        ensures own { (other : ℕ) → other ≢ port_of frame.now.bytes
            → cause_of self.new.errors other ≡ cause_of self.old.errors other }
    {
        let dev = frame.pm_port();
        self.take_from(dev, frame, memory)
    }

    // Gives the data that is due to a device.
    fn give_data(
        &mut self,
        alloc: Global,
        memory: &HostMemory,
        dev: u8,
        slot: u8,
        offset: u32,
        len: u32,
    ) -> Result<Option<Frame>, AllocError>
        requires fed { IsFed self.old dev slot offset len }
        ensures gives { IfOk result (λ frame. Gives
            (outgoing_at self.old memory.now (Turn.Feeds dev slot offset len))
            self.old memory.now frame self.new) }
        ensures stops { result ≡ Ok None → is_some self.new.errors.port ≡ true }
        ensures refused { OnErr result ((self.new ≡ self.old) × (is_sent
            (outgoing_at self.old memory.now (Turn.Feeds dev slot offset len)) ≡ true)) }
    {
        let data = Turn::Feeds {
            dev,
            slot,
            offset,
            len,
        };
        let found = sound_table(&self.core, memory, dev, slot);
        let Some(table) = found else {
            self.core.fail();
            return Ok(None);
        };
        let bytes = gather(alloc, dev, &table, memory.client(), offset, len)?;
        let frame = Frame::from_vec(bytes, stamp(dev, self.core.number()));
        self.core.went(data);
        Ok(Some(frame))
    }

    // Gives the command of a device's slot.
    fn give_order(
        &mut self,
        alloc: Global,
        dev: u8,
        slot: u8,
        command: Command,
    ) -> Result<Option<Frame>, AllocError>
        requires ordered { IsOrdered self.old dev slot command }
        ensures gives { (memory : Memory) → IfOk result (λ frame. Gives (Order dev slot command)
            self.old memory frame self.new) }
        ensures refused { OnErr result (self.new ≡ self.old) }
        ensures given { IfOk result (λ frame. is_some frame ≡ true) }
    {
        let frame = order_frame(alloc, dev, &command.cfis, self.core.number())?;
        self.core.went(Turn::Orders { dev, slot, command });
        Ok(Some(frame))
    }

    /// Gives the next frame to go out, if there is one. Data comes first, for the lowest device that asked
    /// for it, with the bytes that are in client memory now. The command of the lowest slot that may be sent
    /// comes next. A PRD table that can no longer be used stops the port. If memory for the frame is refused,
    /// nothing changes.
    pub fn next_out(
        &mut self,
        alloc: Global,
        memory: &HostMemory,
    ) -> Result<Option<Frame>, AllocError>
        ensures gives { IfOk result (λ frame. Gives (outgoing self.old memory.now)
            self.old memory.now frame self.new) }
        ensures rests { (result ≡ Ok None) × (self.new ≡ self.old) → MayRest self.old }
        ensures refused { OnErr result ((self.new ≡ self.old)
            × (is_sent (outgoing self.old memory.now) ≡ true)) }
    {
        match self.core.next_out() {
            Turn::Rests => Ok(None),
            Turn::Feeds {
                dev,
                slot,
                offset,
                len,
            } => self.give_data(alloc, memory, dev, slot, offset, len),
            Turn::Orders { dev, slot, command } => self.give_order(alloc, dev, slot, command),
        }
    }
}
