//! The frames that wait in the places of the multiplier's ports.

use fis_view::Frame;
use multiplier::Passed;
use pm_world::Answer;
use std::alloc::{AllocError, Global};
use std::mem;

/// The frames that wait in the places of the multiplier's ports, as the steps of a world tell.
#[derive(Drop)]
pub struct Places {
    /// By port, on their way up. There is none past the last of them.
    ups: Vec<Option<Frame>>,
    /// The same on their way down.
    downs: Vec<Option<Frame>>,
}

/// What waited at a port.
#[derive(Drop)]
pub struct Waiting {
    pub up: Option<Frame>,
    pub down: Option<Frame>,
}

impl Waiting {
    /// Nothing.
    pub fn none() -> Waiting {
        Waiting {
            up: None,
            down: None,
        }
    }
}

impl Places {
    /// All are empty.
    pub fn new(alloc: Global) -> Places {
        Places {
            ups: Vec::new(alloc),
            downs: Vec::new(alloc),
        }
    }

    /// A step gave this answer, and took this frame off a link if it took one.
    pub fn note(&mut self, answer: &Answer, frame: Option<Frame>) -> Result<(), AllocError> {
        match answer {
            Answer::Offered {
                port,
                dropped: false,
            } => put(&mut self.ups, *port, frame),
            Answer::Passed(Passed::Down(port)) => put(&mut self.downs, *port, frame),
            Answer::Up(port) => put(&mut self.ups, *port, None),
            Answer::Down(port) => put(&mut self.downs, *port, None),
            _ => Ok(()),
        }
    }

    /// The device of this port went, and its places are empty: what waited there.
    pub fn clear(&mut self, port: u8) -> Waiting {
        Waiting {
            up: taken(&mut self.ups, port),
            down: taken(&mut self.downs, port),
        }
    }
}

/// The place of this port has this frame from now on.
fn put(places: &mut Vec<Option<Frame>>, port: u8, frame: Option<Frame>) -> Result<(), AllocError> {
    let port = usize::from(port);
    if places.len() <= port {
        places.resize_with(port + 1, || None)?;
    }
    places[port] = frame;
    Ok(())
}

/// What was in the place of this port, which is empty now.
fn taken(places: &mut Vec<Option<Frame>>, port: u8) -> Option<Frame> {
    match places.get_mut(usize::from(port)) {
        Some(place) => mem::replace(place, None),
        None => None,
    }
}
