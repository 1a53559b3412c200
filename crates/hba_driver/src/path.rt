//! What slot 30 does with a device: it identifies the device, reads its error log, or resets it.

ghost use Rattle.std.specs.Prelude.{◌≡◌, ◌<◌, IfSome, Some, false, length, map, None, slice_index_or};
ghost use Rattle.std.specs.Option.{option_map};
ghost use Rattle.slots.specs.Slots.{lowest_below};
ghost use Rattle.hba_driver.specs.Drivers.{IsPath, IsSoundPlan};
ghost use Rattle.hba_driver.specs.Orders.{identify_fields, log_fields};
ghost use Rattle.hba_driver.specs.Paths.{first_stage, next_stage, reads_page as reads_page_of, recovery as recovery_of, reset_if_there as reset_if_there_of, stage_fields};
ghost use Rattle.hba_driver.specs.Sights.{file_in, file_shown};
ghost use Rattle.hba_driver.specs.Turns.{advanced as advanced_by, awaits_reset as awaits_reset_of, device_logged, device_news as device_news_of, device_seen as device_seen_by, found_of, is_back as is_back_of, is_due as is_due_of, logged_by, met_path, met_stage, path_answered, path_met, path_news, path_to, stage_for as stage_for_of};

use crate::order::{command, control};
use crate::plan::{Device, Plan};
use crate::sight::{Sight, TFD, has_bit, register};
use crate::turn::Logged;
use fis_view::H2dFields;
use hba_fbs::HostPort;

/// Status and Error of a device.
#[derive(Clone, Copy, Debug, PartialEq, Eq)]
pub(crate) struct TaskFile {
    pub(crate) status: u8,
    pub(crate) error: u8,
}

/// How a device recovers from a fault.
#[derive(Clone, Copy, Debug, PartialEq, Eq)]
pub(crate) enum Recovery {
    /// By its error log. This was its task file after the fault.
    Log(TaskFile),
    /// By a software reset.
    Reset,
}

/// What slot 30 does next with a device. A stage with a command is over when its answer came.
#[derive(Clone, Copy, Debug, PartialEq, Eq)]
pub(crate) enum Stage {
    /// Its IDENTIFY data is read.
    Identify,
    /// Its error log is read. This was its task file after the fault.
    ReadLog(TaskFile),
    /// Software reset, with SRST set.
    AssertReset,
    /// Software reset, with SRST clear.
    ReleaseReset,
    /// The end of the reset is awaited.
    AwaitReset,
}

/// The device that has slot 30.
#[derive(Clone, Copy, Debug, PartialEq, Eq)]
pub(crate) struct Path {
    pub(crate) dev: u8,
    pub(crate) stage: Stage,
    /// The command of the stage was issued.
    pub(crate) asked: bool,
}

/// IDENTIFY DEVICE.
const IDENTIFY: u8 = 0xEC;
/// READ LOG EXT.
const READ_LOG: u8 = 0x2F;
/// The address of the NCQ Command Error log.
const ERROR_LOG: u64 = 0x10;
/// SRST, of the Device Control register.
const SRST_MASK: u8 = 4;
/// Status.ERR.
const ERR_BIT: u8 = 0;
/// The slot of the driver's own commands to devices.
const DEVICE_SLOT: u8 = 30;

fn identify(dev: u8) -> H2dFields
    ensures { result ≡ identify_fields dev }
{
    command(dev, IDENTIFY, 0, 0, 0, 0)
}

fn read_log(dev: u8) -> H2dFields
    ensures { result ≡ log_fields dev }
{
    command(dev, READ_LOG, 0, ERROR_LOG, 0, 1)
}

fn file_of(value: u32) -> TaskFile
    ensures { result ≡ file_in value }
{
    TaskFile {
        status: (value % 0x100) as u8,
        error: (value / 0x100 % 0x100) as u8,
    }
}

impl TaskFile {
    /// The task file that the port shows: that of the device in PxFBS.DEV.
    pub(crate) fn shown(port: &HostPort) -> TaskFile
        ensures { result ≡ file_shown port.now }
    {
        file_of(register(port, TFD))
    }
}

impl Stage {
    /// The command that the stage issues, if it has one.
    #[tactic(auto, unfolding(crate::specs::Paths::stage_fields))]
    pub(crate) fn fields(self, dev: u8) -> Option<H2dFields>
        ensures { result ≡ stage_fields dev self }
    {
        match self {
            Stage::Identify => Some(identify(dev)),
            Stage::ReadLog(_) => Some(read_log(dev)),
            Stage::AssertReset => Some(control(dev, SRST_MASK)),
            Stage::ReleaseReset => Some(control(dev, 0)),
            Stage::AwaitReset => None,
        }
    }

    /// Whether a page goes to the driver's buffer.
    pub(crate) fn reads_page(self) -> bool
        ensures { result ≡ reads_page_of self }
    {
        match self {
            Stage::Identify | Stage::ReadLog(_) => true,
            Stage::AssertReset | Stage::ReleaseReset | Stage::AwaitReset => false,
        }
    }

    // The stage after its command is over, if there is one.
    #[tactic(auto, unfolding(crate::specs::Paths::next_stage))]
    fn next(self) -> Option<Stage>
        ensures { result ≡ next_stage self }
    {
        match self {
            Stage::Identify | Stage::ReadLog(_) => None,
            Stage::AssertReset => Some(Stage::ReleaseReset),
            Stage::ReleaseReset => Some(Stage::AwaitReset),
            Stage::AwaitReset => Some(Stage::Identify),
        }
    }

    fn awaits_reset(self) -> bool
        ensures { result ≡ awaits_reset_of self }
    {
        matches!(self, Stage::AwaitReset)
    }

    // The stage that is due after this one has waited.
    #[tactic(auto, unfolding(crate::specs::Turns::met_stage))]
    fn met(self, sight: &Sight<'_>, dev: u8) -> Stage
        ensures { result ≡ met_stage sight.now dev self }
    {
        match self {
            Stage::AwaitReset if !sight.in_reset(dev) => Stage::Identify,
            _ => self,
        }
    }

    // The device with its task file, if this is its log and the log is whole.
    #[tactic(auto, unfolding(crate::specs::Turns::logged_by))]
    fn logged(self, sight: &Sight<'_>, dev: u8) -> Option<Logged>
        ensures { result ≡ logged_by sight.now dev self }
    {
        match self {
            Stage::ReadLog(file) if sight.log().whole => Some(Logged { dev, file }),
            _ => None,
        }
    }
}

// A path that continues with a stage, if there is one.
fn path_of(dev: u8, stage: Option<Stage>) -> Option<Path>
    ensures { result ≡ path_to dev stage }
{
    match stage {
        Some(stage) => Some(Path {
            dev,
            stage,
            asked: false,
        }),
        None => None,
    }
}

impl Path {
    // Whether its command was issued and is back.
    fn is_back(self, sight: &Sight<'_>) -> bool
        ensures { result ≡ is_back_of sight.now self }
    {
        self.asked && !has_bit(sight.issued(), DEVICE_SLOT)
    }

    fn met(self, sight: &Sight<'_>) -> Path
        ensures { result ≡ met_path sight.now self }
    {
        if self.asked {
            self
        } else {
            Path {
                stage: self.stage.met(sight, self.dev),
                ..self
            }
        }
    }

    fn has_news(self, sight: &Sight<'_>) -> bool
        ensures { result ≡ path_news sight.now self }
    {
        if self.asked {
            !has_bit(sight.issued(), DEVICE_SLOT)
        } else {
            self.stage.awaits_reset() && !sight.in_reset(self.dev)
        }
    }
}

impl Device {
    /// How the device recovers from a fault, if this is its task file after it.
    pub(crate) fn recovery(self, file: TaskFile) -> Recovery
        ensures { result ≡ recovery_of self file }
    {
        match self {
            Device::Ready if has_bit(u32::from(file.status), ERR_BIT) => Recovery::Log(file),
            _ => Recovery::Reset,
        }
    }

    fn reset_if_there(self) -> Device
        ensures { result ≡ reset_if_there_of self }
    {
        match self {
            Device::Absent => self,
            Device::Starting | Device::Ready | Device::Unusable | Device::Recovering(_) => {
                Device::Recovering(Recovery::Reset)
            }
        }
    }

    // The first stage of what is due for the device, which has this number.
    fn first_stage(self, sight: &Sight<'_>, dev: u8) -> Option<Stage>
        ensures { result ≡ first_stage self (slice_index_or sight.now.signed dev false) }
    {
        match self {
            Device::Starting if sight.signed(dev) => Some(Stage::Identify),
            Device::Recovering(Recovery::Log(file)) => Some(Stage::ReadLog(file)),
            Device::Recovering(Recovery::Reset) => Some(Stage::AssertReset),
            Device::Absent | Device::Starting | Device::Ready | Device::Unusable => None,
        }
    }
}

/// Each device that is there recovers by a reset.
pub(crate) fn reset_all(devices: [Device; 15]) -> [Device; 15]
    ensures { result ≡ map reset_if_there_of devices }
{
    let mut reset = devices;
    for device in reset.iter_mut() {
        *device = device.reset_if_there();
    }
    reset
}

impl Plan {
    // Notes what a stage found.
    #[tactic(auto, unfolding(crate::specs::Turns::found_of))]
    fn found(self, sight: &Sight<'_>, stage: Stage, dev: u8) -> Plan
        requires dev { dev < 15 }
        requires sound { IsSoundPlan self }
        ensures value { result ≡ found_of sight.now stage dev self }
        ensures sound { IsSoundPlan result }
    {
        match stage {
            Stage::Identify if sight.usable() => self.with_device(dev, Device::Ready),
            Stage::Identify => self.with_device(dev, Device::Unusable),
            Stage::ReadLog(_) if sight.log().whole => self.with_device(dev, Device::Ready),
            Stage::ReadLog(_) => self.with_device(dev, Device::Recovering(Recovery::Reset)),
            Stage::AssertReset | Stage::ReleaseReset | Stage::AwaitReset => self,
        }
    }

    // The command of a path's stage is over.
    fn advanced(self, sight: &Sight<'_>, path: Path) -> Plan
        requires dev { path.dev < 15 }
        requires sound { IsSoundPlan self }
        ensures value { result ≡ advanced_by sight.now path self }
        ensures sound { IsSoundPlan result }
    {
        Plan {
            path: path_of(path.dev, path.stage.next()),
            ..self.found(sight, path.stage, path.dev)
        }
    }

    // Notes the answer to slot 30, if it came.
    fn path_answered(self, sight: &Sight<'_>) -> Plan
        requires { IsSoundPlan self }
        ensures value { result ≡ path_answered sight.now self }
        ensures sound { IsSoundPlan result }
    {
        match self.path {
            Some(path) => {
                if path.is_back(sight) {
                    self.advanced(sight, path)
                } else {
                    self
                }
            }
            None => self,
        }
    }

    /// Notes what slot 30 shows.
    pub(crate) fn device_seen(self, sight: &Sight<'_>) -> Plan
        requires { IsSoundPlan self }
        ensures value { result ≡ device_seen_by sight.now self }
        ensures sound { IsSoundPlan result }
    {
        let plan = self.path_answered(sight);
        let path = match plan.path {
            Some(path) => Some(path.met(sight)),
            None => None,
        };
        Plan { path, ..plan }
    }

    /// Whether an answer to slot 30 came, or the end of a reset.
    pub(crate) fn device_news(self, sight: &Sight<'_>) -> bool
        ensures { result ≡ device_news_of sight.now self }
    {
        match self.path {
            Some(path) => path.has_news(sight),
            None => false,
        }
    }

    /// The device whose log came and is whole.
    pub(crate) fn device_logged(self, sight: &Sight<'_>) -> Option<Logged>
        ensures { result ≡ device_logged sight.now self }
    {
        match self.path {
            Some(path) => {
                if path.is_back(sight) {
                    path.stage.logged(sight, path.dev)
                } else {
                    None
                }
            }
            None => None,
        }
    }

    /// What is due for a device by slot 30.
    pub(crate) fn stage_for(self, sight: &Sight<'_>, dev: u8) -> Option<Stage>
        ensures { result ≡ stage_for_of sight.now self dev }
    {
        self.device(dev).first_stage(sight, dev)
    }

    fn is_due(self, sight: &Sight<'_>, dev: u8) -> bool
        ensures { result ≡ is_due_of sight.now self dev }
    {
        self.stage_for(sight, dev).is_some()
    }

    /// The lowest device for which something is due.
    pub(crate) fn lowest_due(self, sight: &Sight<'_>) -> Option<u8>
        ensures value { result ≡ lowest_below (is_due_of sight.now self) 15 }
        ensures below { IfSome result (λ dev. dev < 15) }
    {
        for dev in 0..15_u8 {
            if self.is_due(sight, dev) {
                return Some(dev);
            }
        }
        None
    }
}
