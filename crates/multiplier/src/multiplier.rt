//! The port multiplier.

ghost use Rattle.std.specs.Prelude.{if◌then◌else◌, is_none, is_some, not, true, IfOk, IfSome, IsTrue, MatchOption, MatchResult, None, Ok, Some, replicate, slice_set, ◌<◌, ◌≡◌, ◌≤◌, option_copied};
ghost use Rattle.pm_ports.specs.Port.{empty_port, with_down};
ghost use Rattle.pm_registers.specs.RegisterMap.{forwards};
ghost use Rattle.multiplier.specs.Arbiter.{control_port};
ghost use Rattle.multiplier.specs.Rules.{CameRule, CanPutBackDown, CanPutBackUp, ControlGives, DropsOnly, FromDeviceRule, FromHostRule, GoneRule, HasRoom, HasRoomFor, KeepsPorts, NextDownRule, NextUpRule, PortGives, ToControl, ToDevice, UndoesDown, UndoesUp, may_go_back, put_back, refilled};
ghost use Rattle.multiplier.specs.declared.given.Source.TheVariants as source;
ghost use Rattle.multiplier.specs.State.{IsSound, ShowsRecorded, control_stamp, counted, falling, first_port, held, is_answer, next_place, opening, opening_with_port_0, passes_to, port_at, ready, removals, rising, stamped, with_port};

mod saved;

use crate::given::{Given, Source};
use fis_view::{Frame, Stamp};
use pm_control::PmControl;
use pm_ports::{GoneError, Offered, Port, PortError};
use pm_registers::{CONTROL_PORT, PmRegisters};
use std::alloc::{AllocError, Global};
use std::marker::Model;
use thiserror::Error;

/// Why a frame of the host is given back.
#[derive(Clone, Copy, Debug, PartialEq, Eq, Error)]
pub enum PmRefusal {
    /// The place that the frame needs is taken: the answer place of the control port, or the downward place
    /// of a port that forwards.
    #[error("hold full")]
    HoldFull = 1,
    /// There is no memory for the answer of the control port.
    #[error("out of memory")]
    OutOfMemory = 2,
}

/// Where a frame of the host went.
#[derive(Clone, Copy, Debug, PartialEq, Eq)]
pub enum Passed {
    /// To the control port, which answered it or has no answer to it.
    Control,
    /// On its way down to the device at this port.
    Down(u8),
    /// Nowhere: its port is absent or does not forward.
    Dropped,
}

/// A port multiplier with up to 15 device ports.
#[derive(Debug, Drop)]
pub struct Multiplier {
    registers: PmRegisters,
    control: PmControl,
    ports: [Port; 15],
    answer: Option<Frame>,
    served: u8,
    number: u32,
    dropped: u32,
    given: Option<Given>,
}

impl Model for Multiplier {
    ghost use Rattle.multiplier.specs.State.{IsSound, PmState};

    ghost Value = { PmState };

    ghost view = { λ m. record {
      registers = m.registers;
      resetting = m.control;
      ports = m.ports;
      answer = m.answer;
      served = m.served;
      number = m.number;
      dropped = m.dropped;
      given = m.given;
    } };

    ghost invariant = { λ m. IsSound (record {
      registers = m.registers;
      resetting = m.control;
      ports = m.ports;
      answer = m.answer;
      served = m.served;
      number = m.number;
      dropped = m.dropped;
      given = m.given;
    }) };
}

/// The frame with port `n` in its stamp.
fn stamped(n: u8, mut frame: Frame) -> Frame
    ensures { result ≡ stamped n frame }
{
    let stamp = frame.stamp();
    frame.set_stamp(Stamp { port: n, ..stamp });
    frame
}

/// The frame as it goes up from port `n`.
fn rising(n: u8, frame: Frame) -> Frame
    requires { n < 16 }
    ensures { result ≡ rising n frame }
{
    let mut frame = stamped(n, frame);
    frame.set_pm_port(n);
    frame
}

/// The frame as it goes down to this connection of a device.
fn falling(conn: u32, mut frame: Frame) -> Frame
    ensures { result ≡ falling conn frame }
{
    let stamp = frame.stamp();
    frame.set_pm_port(0);
    frame.set_stamp(Stamp { conn, ..stamp });
    frame
}

/// The running number after this one, which an answer may have used.
fn number_after(number: u32, answer: &Option<Frame>) -> u32
    ensures { result ≡ (if is_some answer.now then counted number else number) }
{
    match answer {
        Some(_) => number.saturating_add(1),
        None => number,
    }
}

/// The count of dropped frames, after one more was dropped or none.
fn dropped_after(dropped: u32, one_more: bool) -> u32
    ensures { result ≡ (if one_more then counted dropped else dropped) }
{
    if one_more {
        dropped.saturating_add(1)
    } else {
        dropped
    }
}

/// Fifteen ports to which no device came.
fn empty_ports() -> [Port; 15]
    ensures { result ≡ replicate 15 empty_port }
{
    Default::default()
}

/// Fifteen ports, at the first of which this connection is present, if there is one.
fn ports_with(device: Option<u32>) -> [Port; 15]
    requires { IfSome device (λ conn. 1 ≤ conn) }
    ensures { result ≡ slice_set (replicate 15 empty_port) 0 (first_port device) }
{
    let mut ports = empty_ports();
    if let Some(conn) = device {
        match ports[0].came(conn) {
            Ok(()) => {}
            Err(_) => unreachable!(),
        }
    }
    ports
}

impl Multiplier {
    /// A multiplier with this many device ports and no device. Port 0 is served first.
    pub fn new(ports: u8) -> Multiplier
        requires some { 1 ≤ ports }
        requires at_most { ports ≤ 15 }
        ensures { result ≡ opening ports }
    {
        Multiplier {
            registers: PmRegisters::new(ports),
            control: PmControl::new(),
            ports: empty_ports(),
            answer: None,
            served: CONTROL_PORT,
            number: 0,
            dropped: 0,
            given: None,
        }
    }

    /// A multiplier whose port 0 is open from the start, for software that knows no multipliers (16.3.3,
    /// booting with legacy software), with the device of this connection at it, or none. FISes pass that
    /// device at once. All else is as [`new`](Self::new) has it.
    pub fn with_port_0_open(ports: u8, device: Option<u32>) -> Multiplier
        requires some { 1 ≤ ports }
        requires at_most { ports ≤ 15 }
        requires counted { IfSome device (λ conn. 1 ≤ conn) }
        ensures value { result ≡ opening_with_port_0 ports device }
        ensures passes { passes_to result 0 ≡ device }
    {
        Multiplier {
            registers: PmRegisters::with_port_0_open(ports, device.is_some()),
            control: PmControl::new(),
            ports: ports_with(device),
            answer: None,
            served: CONTROL_PORT,
            number: 0,
            dropped: 0,
            given: None,
        }
    }

    /// The highest connection of each port whose removal was recorded.
    fn removals(&self) -> [u32; 15]
        ensures { result ≡ removals self.now }
    {
        let mut highest = [0; 15];
        for n in 0..15 {
            highest[n] = self.ports[n].highest_gone();
        }
        highest
    }

    /// The stamp of the next frame of the control port.
    fn control_stamp(&self) -> Stamp
        ensures { result ≡ control_stamp self.now }
    {
        Stamp {
            port: CONTROL_PORT,
            conn: 0,
            number: self.number,
            shown: self.removals(),
        }
    }

    /// Whether FISes pass port `n`, in both directions.
    fn forwards(&self, n: u8) -> bool
        ensures value { result ≡ forwards self.now.registers n }
        ensures there { IsTrue result → n < 15 }
    {
        self.registers.forwards(n)
    }

    /// The connection that a frame for port `n` goes to. A port that forwards has one.
    fn passes_to(&self, n: u8) -> Option<u32>
        ensures value { result ≡ passes_to self.now n }
        ensures there { MatchOption result (Unit {0}) (λ conn. n < 15) }
        ensures present { is_none result ≡ not (forwards self.now.registers n) }
        ensures conn { IfSome result (λ conn. (port_at self.now n).present ≡ Some conn) }
    {
        if self.forwards(n) {
            self.ports[usize::from(n)].present()
        } else {
            None
        }
    }

    /// Takes a frame from the host to the port that its PM Port names: to the control port, which answers it,
    /// or into the downward place of a port that forwards. A frame for a port that is absent or does not
    /// forward is dropped and counted. Where the place is taken, or there is no memory for the answer, the
    /// frame is given back.
    pub fn from_host(&mut self, alloc: Global, frame: Frame) -> Result<Passed, (Frame, PmRefusal)>
        ensures rule { FromHostRule self.old frame result self.new }
        ensures drops { DropsOnly self.old frame result }
        ensures ports { KeepsPorts self.old self.new }
    {
        let port = frame.pm_port();
        if port == CONTROL_PORT {
            return self.to_control(alloc, frame);
        }
        match self.passes_to(port) {
            Some(conn) => self.to_device(port, conn, frame),
            None => {
                self.dropped = dropped_after(self.dropped, true);
                self.given = None;
                Ok(Passed::Dropped)
            }
        }
    }

    /// Lets the control port answer a frame. The answer waits until it goes up.
    fn to_control(&mut self, alloc: Global, frame: Frame) -> Result<Passed, (Frame, PmRefusal)>
        ensures { ToControl self.old frame result self.new }
    {
        if self.answer.is_some() {
            return Err((frame, PmRefusal::HoldFull));
        }
        let stamp = self.control_stamp();
        match self
            .control
            .answer(alloc, &mut self.registers, &frame, stamp)
        {
            Ok(answer) => {
                self.number = number_after(self.number, &answer);
                self.answer = answer;
                self.given = None;
                Ok(Passed::Control)
            }
            Err(_) => Err((frame, PmRefusal::OutOfMemory)),
        }
    }

    /// Puts a frame into the downward place of port `n`.
    fn to_device(&mut self, n: u8, conn: u32, frame: Frame) -> Result<Passed, (Frame, PmRefusal)>
        requires there { n < 15 }
        requires present { (port_at self.old n).present ≡ Some conn }
        ensures { ToDevice self.old n conn frame result self.new }
    {
        let port = &mut self.ports[usize::from(n)];
        if !port.has_room_down() {
            return Err((frame, PmRefusal::HoldFull));
        }
        match port.put_down(falling(conn, frame)) {
            Ok(()) => {
                self.given = None;
                Ok(Passed::Down(n))
            }
            Err(_) => unreachable!(),
        }
    }

    /// Takes a frame from the device at port `n`, or gives it back where another one is held. A held frame
    /// has `n` as the port of its stamp. A frame of a connection that is gone is dropped.
    pub fn from_device(&mut self, n: u8, frame: Frame) -> Result<Offered, Frame>
        requires { n < self.old.registers.ports }
        ensures rule { FromDeviceRule self.old n frame result self.new }
        ensures ports { KeepsPorts self.old self.new }
    {
        let sent = frame.stamp();
        match self.ports[usize::from(n)].offer(stamped(n, frame)) {
            Ok(Offered::Held) => {
                self.given = None;
                Ok(Offered::Held)
            }
            Ok(Offered::Dropped) => Ok(Offered::Dropped),
            Err(mut frame) => {
                frame.set_stamp(sent);
                Err(frame)
            }
        }
    }

    /// Records that a device came to port `n`, as this connection, in the port and in the registers. It
    /// refuses what [`Port::came`] refuses, and nothing else.
    pub fn came(&mut self, n: u8, conn: u32) -> Result<(), PortError>
        requires { n < self.old.registers.ports }
        ensures { CameRule self.old n conn result self.new }
    {
        self.ports[usize::from(n)].came(conn)?;
        self.registers.insert(n);
        self.given = None;
        Ok(())
    }

    /// Records that the device of this connection went from port `n`, in the port and in the registers. It
    /// refuses what [`Port::gone`] refuses, and nothing else. Frames of the connection that wait at the port
    /// are dropped. The one on its way down counts as dropped.
    pub fn gone(&mut self, n: u8, conn: u32) -> Result<(), GoneError>
        requires { n < self.old.registers.ports }
        ensures { GoneRule self.old n conn result self.new }
    {
        let waits = !self.ports[usize::from(n)].has_room_down();
        self.ports[usize::from(n)].gone(conn)?;
        self.registers.remove(n);
        self.dropped = dropped_after(self.dropped, waits);
        self.given = None;
        Ok(())
    }

    /// Whether a place has a frame for the host.
    #[tactic(auto, using(crate::proofs::Holds::blocked, crate::proofs::Holds::held_if))]
    fn is_ready(&self, place: u8) -> bool
        ensures { result ≡ ready self.now place }
    {
        if place == CONTROL_PORT {
            return self.registers.notice_due() || self.answer.is_some();
        }
        place < self.registers.ports()
            && self.ports[usize::from(place)].is_ready(true)
            && self.forwards(place)
    }

    /// The place that is served next.
    fn next_place(&self) -> Option<u8>
        ensures value { result ≡ next_place self.now }
        ensures sound { IsSound self.now }
    {
        (self.served + 1..16)
            .chain(0..self.served + 1)
            .find(|place| self.is_ready(*place))
    }

    /// Gives the next frame for the host, from the place whose turn it is. A frame of a device goes up with
    /// the number of its port as PM Port and in its stamp. Only a notification needs memory. Where the
    /// allocator refuses it, nothing changes.
    pub fn next_up(&mut self, alloc: Global) -> Result<Option<Frame>, AllocError>
        ensures up { NextUpRule self.old result self.new }
        ensures can_put_back { IfOk result (λ up. IfSome up (λ frame. CanPutBackUp self.new frame)) }
        ensures ports { KeepsPorts self.old self.new }
    {
        let Some(place) = self.next_place() else {
            return Ok(None);
        };
        let frame = if place == CONTROL_PORT {
            self.control_gives(alloc)?
        } else {
            self.port_gives(place)
        };
        Ok(Some(frame))
    }

    /// Counts a place as served, and records how its frame is put back.
    fn serve(&mut self, place: u8, source: Source, frame: &Frame)
        requires { place ≤ control_port }
        ensures { self.new ≡ record self.old {
          served = place;
          given = may_go_back self.old source frame.now;
        } }
    {
        self.given = Some(Given::Up {
            before: self.served,
            source,
            stamp: frame.stamp(),
        });
        self.served = place;
    }

    /// Gives the frame that port `n` holds.
    fn port_gives(&mut self, n: u8) -> Frame
        requires there { n < 15 }
        requires ready { is_some (held self.old n) ≡ true }
        ensures { PortGives self.old n result self.new }
    {
        let forwards = self.forwards(n);
        match self.ports[usize::from(n)].take_held(forwards) {
            Some(frame) => {
                let source = Source::Held(frame.pm_port());
                let frame = rising(n, frame);
                self.serve(n, source, &frame);
                frame
            }
            None => unreachable!(),
        }
    }

    /// Gives the notification that is due, or else the answer of the control port.
    fn control_gives(&mut self, alloc: Global) -> Result<Frame, AllocError>
        requires { ready self.old control_port ≡ true }
        ensures { MatchResult result (λ frame. ControlGives self.old frame self.new)
            (λ _. (self.old.registers.due ≡ true) × (self.new ≡ self.old)) }
    {
        if self.registers.notice_due() {
            return self.notice(alloc);
        }
        match self.answer.take() {
            Some(frame) => {
                self.serve(CONTROL_PORT, Source::Answer, &frame);
                Ok(frame)
            }
            None => unreachable!(),
        }
    }

    /// Makes the notification that is due.
    fn notice(&mut self, alloc: Global) -> Result<Frame, AllocError>
        requires { self.old.registers.due ≡ true }
        ensures { MatchResult result (λ frame. ControlGives self.old frame self.new)
            (λ _. self.new ≡ self.old) }
    {
        let stamp = self.control_stamp();
        match PmControl::notice(alloc, &mut self.registers, stamp)? {
            Some(frame) => {
                self.number = self.number.saturating_add(1);
                self.serve(CONTROL_PORT, Source::Notice, &frame);
                Ok(frame)
            }
            None => unreachable!(),
        }
    }

    /// Puts back the frame that `next_up` gave, if nothing was called since. The multiplier is as before, and
    /// the next `next_up` gives the same frame.
    pub fn put_back_up(&mut self, frame: Frame)
        requires { CanPutBackUp self.old frame }
        ensures undoes { UndoesUp self.old frame self.new }
        ensures ports { KeepsPorts self.old self.new }
    {
        self.refill(frame);
    }

    /// Puts the frame that went up last into its place again, and makes the place before it the one served
    /// last.
    fn refill(&mut self, frame: Frame)
        requires { HasRoomFor self.old frame self.old.given }
        ensures { self.new ≡ put_back self.old frame self.old.given }
    {
        let Some(Given::Up { before, source, .. }) = self.given else {
            return;
        };
        let place = self.served;
        self.served = before;
        self.put_into(place, source, frame);
    }

    /// Puts the frame into its place again.
    fn put_into(&mut self, place: u8, source: Source, frame: Frame)
        requires { HasRoom self.old place frame source }
        ensures { self.new ≡ refilled self.old place frame source }
    {
        match source {
            Source::Held(pm_port) => self.hold_again(place, pm_port, frame),
            Source::Answer => self.answer_again(frame),
            Source::Notice => self.notice_again(&frame),
        }
    }

    /// Port `n` holds the frame again, with the PM Port that it had.
    fn hold_again(&mut self, n: u8, pm_port: u8, mut frame: Frame)
        requires { HasRoom self.old n frame (source.Held pm_port) }
        ensures { self.new ≡ refilled self.old n frame (source.Held pm_port) }
    {
        frame.set_pm_port(pm_port);
        self.ports[usize::from(n)].put_back_up(frame);
        self.given = None;
    }

    /// The answer waits again.
    fn answer_again(&mut self, frame: Frame)
        requires is { is_answer frame ≡ true }
        requires shows { ShowsRecorded self.old frame.stamp }
        ensures { self.new ≡ record self.old { answer = Some frame; given = None } }
    {
        self.answer = Some(frame);
        self.given = None;
    }

    /// The notification is due again, and its number is the next one.
    fn notice_again(&mut self, frame: &Frame)
        ensures { self.new ≡ refilled self.old 15 frame.now source.Notice }
    {
        self.number = frame.stamp().number;
        self.registers.restore_notice();
        self.given = None;
    }

    /// Gives the frame on its way down to the device at port `n`.
    pub fn next_down(&mut self, n: u8) -> Option<Frame>
        requires { n < self.old.registers.ports }
        ensures down { NextDownRule self.old n result self.new }
        ensures can_put_back { IfSome result (λ frame. CanPutBackDown self.new n frame) }
        ensures ports { KeepsPorts self.old self.new }
    {
        let frame = self.ports[usize::from(n)].take_down()?;
        self.given = Some(Given::Down {
            port: n,
            stamp: frame.stamp(),
        });
        Some(frame)
    }

    /// Puts back the frame that `next_down(n)` gave, if nothing was called since. The multiplier is as
    /// before, and the next `next_down(n)` gives the same frame.
    pub fn put_back_down(&mut self, n: u8, frame: Frame)
        requires { CanPutBackDown self.old n frame }
        ensures undoes { UndoesDown self.old n frame self.new }
        ensures ports { KeepsPorts self.old self.new }
    {
        self.refill_down(n, frame);
    }

    /// Puts the frame into the downward place of port `n` again.
    fn refill_down(&mut self, n: u8, frame: Frame)
        requires there { n < 15 }
        requires empty { (port_at self.old n).down ≡ None }
        requires present { (port_at self.old n).present ≡ Some frame.stamp.conn }
        ensures { self.new ≡ with_port self.old n (with_down (port_at self.old n) (Some frame)) }
    {
        self.ports[usize::from(n)].put_back_down(frame);
        self.given = None;
    }

    /// The registers as the host sees them. They also have which devices are present.
    pub fn registers(&self) -> &PmRegisters
        ensures { result.now ≡ self.now.registers }
    {
        &self.registers
    }

    /// What waits at port `n`, and which connection is present there. A port that does not exist is empty.
    pub fn port(&self, n: u8) -> &Port
        requires { n < 15 }
        ensures { result.now ≡ port_at self.now n }
    {
        &self.ports[usize::from(n)]
    }

    /// The frame that waits at port `n` to go up.
    pub fn hold(&self, n: u8) -> Option<&Frame>
        requires { n < self.now.registers.ports }
        ensures { option_copied result ≡ (port_at self.now n).up }
    {
        self.ports[usize::from(n)].hold()
    }

    /// The number of frames of the host that were dropped, at once or when their device went. The count stays
    /// at its largest value.
    pub fn dropped(&self) -> u32
        ensures { result ≡ self.now.dropped }
    {
        self.dropped
    }
}
