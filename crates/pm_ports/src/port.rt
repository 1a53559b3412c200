//! One fan-out port.

ghost use Rattle.std.specs.Prelude.{◌≡◌, if◌then◌else◌, None, MatchResult, is_some, is_none, option_copied};
ghost use Rattle.std.specs.Result.{result_err};
ghost use Rattle.pm_ports.specs.Port.{IsSound, came_refusal, empty_port, gone_refusal, is_up_to, left_in, next_up, with_connection, with_down, with_removal, with_up};
ghost use Rattle.pm_ports.specs.Offering.{IsOffered, IsPutDown};

mod saved;

use fis_view::Frame;
use std::marker::Model;
use thiserror::Error;

/// Why [`Port::came`] refuses a connection. There is no other refusal.
#[derive(Clone, Copy, Debug, PartialEq, Eq, Error)]
pub enum PortError {
    /// A device is present.
    #[error("already there")]
    AlreadyThere = 1,
    /// The connection is 0, or not above the last one that came.
    #[error("old connection")]
    OldConnection = 2,
}

/// Why [`Port::gone`] refuses a removal. There is no other refusal.
#[derive(Clone, Copy, Debug, PartialEq, Eq, Error)]
pub enum GoneError {
    /// The connection is not the present one.
    #[error("not there")]
    NotThere = 1,
}

/// What a port did with a frame that it took.
#[derive(Clone, Copy, Debug, PartialEq, Eq)]
pub enum Offered {
    /// The frame is held until it goes up.
    Held,
    /// The frame was dropped, because the removal of its connection was recorded.
    Dropped,
}

/// Whether a connection is at most the highest one that is gone.
fn is_up_to(highest: u32, conn: u32) -> bool
    ensures { result ≡ is_up_to highest conn }
{
    0 < conn && conn <= highest
}

/// What a place keeps when the connections up to the highest are gone.
fn left_in(highest: u32, place: Option<Frame>) -> Option<Frame>
    ensures { result ≡ left_in highest place }
{
    let frame = place?;
    if is_up_to(highest, frame.stamp().conn) {
        return None;
    }
    Some(frame)
}

/// A fan-out port: the connection that is present, the highest that is gone, and a place for one frame in
/// each direction.
#[derive(Debug, Drop)]
pub struct Port {
    present: Option<u32>,
    last: u32,
    gone: u32,
    up: Option<Frame>,
    down: Option<Frame>,
}

impl Model for Port {
    ghost use Rattle.pm_ports.specs.Port.{IsSound, PortState};

    ghost Value = { PortState };

    ghost view = { λ p. record { present = p.present; last = p.last; gone = p.gone; up = p.up; down = p.down } };

    ghost invariant = { λ p. IsSound (record {
      present = p.present;
      last = p.last;
      gone = p.gone;
      up = p.up;
      down = p.down;
    }) };
}

impl Default for Port {
    ghost use Rattle.std.specs.Prelude.{◌≡◌};
    ghost use Rattle.pm_ports.specs.Port.{empty_port};

    ghost is_default = { λ p. p ≡ empty_port };

    fn default() -> Port {
        Port::new()
    }
}

impl Port {
    /// A port that no device came to.
    pub fn new() -> Port
        ensures { result ≡ empty_port }
    {
        Port {
            present: None,
            last: 0,
            gone: 0,
            up: None,
            down: None,
        }
    }

    /// Records that a device came, as this connection. Waiting frames stay where they are: one of this very
    /// connection may have arrived before.
    pub fn came(&mut self, conn: u32) -> Result<(), PortError>
        ensures refusal { result_err result ≡ came_refusal self.old conn }
        ensures after { MatchResult result (λ _. self.new ≡ with_connection self.old conn)
            (λ _. self.new ≡ self.old) }
    {
        if self.present.is_some() {
            return Err(PortError::AlreadyThere);
        }
        if conn <= self.last {
            return Err(PortError::OldConnection);
        }
        self.present = Some(conn);
        self.last = conn;
        Ok(())
    }

    /// Records that the device of this connection went. Waiting frames of this connection or an earlier one
    /// are dropped, in both directions. A frame of a later connection stays.
    pub fn gone(&mut self, conn: u32) -> Result<(), GoneError>
        ensures refusal { result_err result ≡ gone_refusal self.old conn }
        ensures after { MatchResult result (λ _. self.new ≡ with_removal self.old conn)
            (λ _. self.new ≡ self.old) }
    {
        if self.present != Some(conn) {
            return Err(GoneError::NotThere);
        }
        self.present = None;
        self.gone = conn;
        self.up = left_in(conn, self.up.take());
        self.down = left_in(conn, self.down.take());
        Ok(())
    }

    /// The highest connection that came, 0 for none.
    pub fn last(&self) -> u32
        ensures { result ≡ self.now.last }
    {
        self.last
    }

    /// The highest connection whose removal was recorded, 0 for none.
    pub fn highest_gone(&self) -> u32
        ensures { result ≡ self.now.gone }
    {
        self.gone
    }

    /// The connection that is present.
    pub fn present(&self) -> Option<u32>
        ensures value { result ≡ self.now.present }
        ensures sound { IsSound self.now }
    {
        self.present
    }

    /// Whether the upward place is empty, so that it can hold a frame of the device.
    pub fn wants(&self) -> bool
        ensures { result ≡ is_none self.now.up }
    {
        self.up.is_none()
    }

    /// Whether the downward place is empty.
    pub fn has_room_down(&self) -> bool
        ensures { result ≡ is_none self.now.down }
    {
        self.down.is_none()
    }

    /// Takes a frame of the device, or gives it back where another one waits to go up. A frame of a
    /// connection that is gone is dropped.
    pub fn offer(&mut self, frame: Frame) -> Result<Offered, Frame>
        ensures { IsOffered self.old frame result self.new }
    {
        if is_up_to(self.gone, frame.stamp().conn) {
            return Ok(Offered::Dropped);
        }
        if !self.wants() {
            return Err(frame);
        }
        self.up = Some(frame);
        Ok(Offered::Held)
    }

    /// Whether `take_held` would give a frame.
    pub fn is_ready(&self, forwards: bool) -> bool
        ensures { result ≡ is_some (next_up forwards self.now) }
    {
        match (&self.up, self.present) {
            (Some(frame), Some(conn)) => forwards && frame.stamp().conn == conn,
            _ => false,
        }
    }

    /// Gives the held frame on its way up, if the port forwards and the frame is of the present connection. A
    /// frame of a later connection waits until that connection comes.
    pub fn take_held(&mut self, forwards: bool) -> Option<Frame>
        ensures gives { result ≡ next_up forwards self.old }
        ensures after { self.new ≡ (if is_some result then with_up self.old None else self.old) }
    {
        if self.is_ready(forwards) {
            self.up.take()
        } else {
            None
        }
    }

    /// Puts a frame that `take_held` gave back into the upward place.
    pub fn put_back_up(&mut self, taken: Frame)
        requires { self.old.up ≡ None }
        ensures { self.new ≡ with_up self.old (Some taken) }
    {
        self.up = Some(taken);
    }

    /// The frame that waits to go up.
    pub fn hold(&self) -> Option<&Frame>
        ensures { option_copied result ≡ self.now.up }
    {
        self.up.as_ref()
    }

    /// The frame that waits to go down.
    pub fn hold_down(&self) -> Option<&Frame>
        ensures { option_copied result ≡ self.now.down }
    {
        self.down.as_ref()
    }

    /// Keeps a frame on its way down, or gives it back where another one waits.
    pub fn put_down(&mut self, frame: Frame) -> Result<(), Frame>
        ensures { IsPutDown self.old frame result self.new }
    {
        if !self.has_room_down() {
            return Err(frame);
        }
        self.down = Some(frame);
        Ok(())
    }

    /// Gives the frame on its way down.
    pub fn take_down(&mut self) -> Option<Frame>
        ensures gives { result ≡ self.old.down }
        ensures after { self.new ≡ with_down self.old None }
    {
        self.down.take()
    }

    /// Puts a frame that `take_down` gave back into the downward place.
    pub fn put_back_down(&mut self, taken: Frame)
        requires { self.old.down ≡ None }
        ensures { self.new ≡ with_down self.old (Some taken) }
    {
        self.down = Some(taken);
    }
}
