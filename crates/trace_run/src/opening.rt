//! What a scenario says about its world before the world is built.

ghost use Rattle.std.specs.Prelude.{◌≡◌, ◌*◌, ◌≤◌, IfOk, length, true};
ghost use Rattle.pm_world.specs.Places.{is_config};
ghost use Rattle.trace_run.specs.Clients.{lies_in_client};

use crate::parse::Setting;
use disk_model::{Scripted, Unit};
use fis_view::Bytes;
use hba_driver::Mode;
use host_memory::CLIENT_START;
use pm_world::Config;
use std::alloc::{AllocError, Global};
use trace_text::Shape;

/// How large a world is.
#[derive(Clone, Copy)]
pub struct Sizes {
    /// Fan-out ports, 1 to 15.
    pub ports: u8,
    /// Frames that a link can hold, 1 to 64.
    pub capacity: u8,
    /// The host's memory in MiB, 2 to 16.
    pub memory: u8,
    /// How the host tells devices apart.
    pub mode: Mode,
    pub ghost has_ports: { (1 ≤ ports) × (ports ≤ 15) },
    pub ghost has_capacity: { (1 ≤ capacity) × (capacity ≤ 64) },
    pub ghost has_memory: { (2 ≤ memory) × (memory ≤ 16) },
}

impl Sizes {
    /// The sizes of a world if the scenario gives none.
    pub const PLAIN: Sizes = Sizes {
        ports: 1,
        capacity: 4,
        memory: 2,
        mode: Mode::Switching,
    };

    /// The same in the world's terms, with memory in bytes.
    pub fn config(self) -> Config
        ensures accepted { is_config result self.ports ≡ true }
        ensures sizes { result
            ≡ record
            { ports = self.ports; capacity = self.capacity; memory = 1048576 * self.memory } }
    {
        Config {
            ports: self.ports,
            capacity: usize::from(self.capacity),
            memory: self.bytes(),
        }
    }

    /// The bytes of the host's memory.
    pub fn bytes(self) -> u32
        ensures { result ≡ 1048576 * self.memory }
    {
        u32::from(self.memory) * 1_048_576
    }

    /// Whether this many bytes from this address on lie in client memory.
    pub fn has_client(self, at: u32, count: usize) -> bool
        ensures { result ≡ lies_in_client (1048576 * self.memory) at count }
    {
        let end = self.bytes();
        at >= CLIENT_START && at <= end && count as u64 <= u64::from(end - at)
    }
}

/// What lines have said about the device at a port.
#[derive(Drop)]
enum Said {
    /// Nothing: it is a plain disk.
    Nothing,
    /// It is this disk.
    Disk(Shape),
    /// It sends these frames.
    Script(Vec<Bytes>),
}

impl Said {
    /// The device.
    fn into_unit(self, alloc: Global) -> Result<Unit, AllocError> {
        match self {
            Said::Nothing => Ok(Unit::Disk(Shape::plain().into_disk(alloc)?)),
            Said::Disk(shape) => Ok(Unit::Disk(shape.into_disk(alloc)?)),
            Said::Script(frames) => Ok(Unit::Scripted(Scripted::new(frames))),
        }
    }

    /// It sends one more frame.
    fn add(&mut self, alloc: Global, frame: Bytes) -> Result<(), AllocError> {
        if let Said::Script(frames) = self {
            frames.push(frame)?;
            return Ok(());
        }
        let mut frames = Vec::new(alloc);
        frames.push(frame)?;
        *self = Said::Script(frames);
        Ok(())
    }
}

/// A world that is not built yet.
#[derive(Drop)]
pub struct Opening {
    /// The sizes of the world, as far as lines have said them.
    pub sizes: Sizes,
    /// What was said about each port's device. Nothing was said about ports past the last of them.
    devices: Vec<Said>,
    is_begun: bool,
    /// Whether `ports` may say how the host tells devices apart.
    has_modes: bool,
}

impl Opening {
    /// A world about which nothing was said.
    pub fn new(alloc: Global, has_modes: bool) -> Opening {
        Opening {
            sizes: Sizes::PLAIN,
            devices: Vec::new(alloc),
            is_begun: false,
            has_modes,
        }
    }

    /// Whether `ports` may say how the host tells devices apart.
    pub fn has_modes(&self) -> bool {
        self.has_modes
    }

    /// Whether a line has said something.
    pub fn is_begun(&self) -> bool {
        self.is_begun
    }

    /// Whether a line has said which disk stands at this port.
    pub fn has_disk(&self, port: u8) -> bool {
        matches!(self.devices.get(usize::from(port)), Some(Said::Disk(_)))
    }

    /// Whether a line has given the device at this port a frame to send.
    pub fn has_script(&self, port: u8) -> bool {
        matches!(self.devices.get(usize::from(port)), Some(Said::Script(_)))
    }

    /// Takes in what one more line says.
    pub fn set(&mut self, alloc: Global, setting: Setting) -> Result<(), AllocError> {
        self.is_begun = true;
        match setting {
            Setting::Ports(sizes) => self.sizes = sizes,
            Setting::Disk(port, shape) => *self.device(port)? = Said::Disk(shape),
            Setting::Script(port, frame) => self.device(port)?.add(alloc, frame)?,
        }
        Ok(())
    }

    /// What was said about the device at this port.
    fn device(&mut self, port: u8) -> Result<&mut Said, AllocError> {
        let port = usize::from(port);
        if self.devices.len() <= port {
            self.devices.resize_with(port + 1, || Said::Nothing)?;
        }
        Ok(&mut self.devices[port])
    }

    /// The devices of the world, one for each port.
    pub fn into_units(self, alloc: Global) -> Result<Vec<Unit>, AllocError>
        ensures { IfOk result (λ units. length units.items ≡ self.sizes.ports) }
    {
        let Opening {
            sizes,
            mut devices,
            is_begun: _,
            has_modes: _,
        } = self;
        devices.resize_with(usize::from(sizes.ports), || Said::Nothing)?;
        devices
            .into_iter()
            .map(|said| said.into_unit(alloc))
            .try_collect(alloc)
    }
}
