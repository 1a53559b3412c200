//! The front.

ghost use Rattle.std.specs.Prelude.{◌≡◌};
ghost use Rattle.ata_front.specs.Fronts.{MayTake, aborted, after_discard, after_plug, beside_sent, commanded, controlled, failed_all, given, heard_data, is_log_10, log_task, opening, over, owed, page_announced, queued_failed, refused, said, set_by, single_sent, standing, taken, taken_flush, taken_moves, taken_power, task_of_smart};

mod saved;

use crate::task::{Act, Fault, Moving, Owed, Page, Purpose, Task, Trouble};
use ata_command::{
    Asked, Course, LogPage, Move, PowerTask, Refusal, Setting, Settings, SmartTask, Standing,
    course_of,
};
use ata_reply::{Announcement, AtaError, Failure, Reply};

/// What a disk is to its host beside the commands that move sectors.
#[derive(Clone, Copy, Debug, PartialEq, Eq)]
pub struct Front {
    /// What the host waits for.
    pub task: Task,
    /// An error ended all queued commands, and the host has not read it.
    pub fault: Option<Fault>,
    /// SRST is set.
    pub in_reset: bool,
    /// What commands have set.
    pub settings: Settings,
}

/// A front after something came, and what becomes of the commands.
#[derive(Clone, Copy, Debug, PartialEq, Eq)]
pub struct Heard {
    /// The front.
    pub front: Front,
    /// What becomes of the commands.
    pub act: Act,
}

/// A command is refused for itself.
fn aborted() -> Reply
    ensures { result ≡ aborted }
{
    Reply::Failed(Failure {
        error: AtaError::Aborted,
        lba: 0,
        wide: true,
    })
}

/// The PIO Setup FIS of a page.
fn page_announced() -> Reply
    ensures { result ≡ page_announced }
{
    Reply::Announce(Announcement {
        to_host: true,
        first: true,
        last: true,
        bytes: 512,
    })
}

/// The task of a page of a log.
fn log_task(page: LogPage) -> Task
    ensures { result ≡ log_task page }
{
    if page.dma {
        Task::Sends(Page::Log(page))
    } else {
        Task::Announces(Page::Log(page))
    }
}

/// The task of a command of SMART.
fn task_of_smart(task: SmartTask) -> Task
    ensures { result ≡ task_of_smart task }
{
    match task {
        SmartTask::ReadData => Task::Announces(Page::SmartData),
        SmartTask::ReadThresholds => Task::Announces(Page::SmartThresholds),
        SmartTask::Nothing => Task::Owes(Reply::Done),
        SmartTask::ReturnStatus => Task::Owes(Reply::Healthy),
    }
}

/// Whether it is a page of the NCQ Command Error log.
fn is_log_10(page: Page) -> bool
    ensures { result ≡ is_log_10 page }
{
    match page {
        Page::Log(log) => log.log == 0x10,
        _ => false,
    }
}

impl Front {
    /// The front of a disk that was not plugged in.
    pub fn new(write_cache: bool) -> Front
        ensures { result ≡ opening write_cache }
    {
        Front {
            task: Task::Idle,
            fault: None,
            in_reset: false,
            settings: Settings {
                write_cache,
                ..Settings::power_on()
            },
        }
    }

    /// What commands have set: what a command has to know, and the IDENTIFY DEVICE data show.
    pub fn settings(self) -> Settings
        ensures { result ≡ self.settings }
    {
        self.settings
    }

    /// The front with this task, and nothing becomes of the commands.
    fn with(self, task: Task) -> Heard
        ensures { result ≡ record { front = record self { task = task }; act = Act.Nothing } }
    {
        Heard {
            front: Front { task, ..self },
            act: Act::Nothing,
        }
    }

    /// The disk was plugged in: all that is under way is dropped, and the signature is next.
    pub fn plugged(self) -> Heard
        ensures { result ≡ after_plug self }
    {
        Heard {
            front: Front {
                task: Task::Owes(Reply::Signature),
                fault: None,
                in_reset: false,
                settings: self.settings,
            },
            act: Act::Resets,
        }
    }

    /// The host wrote the Device Control register, with this SRST. Set, it drops all; the signature goes once it is cleared.
    pub fn control(self, srst: bool) -> Heard
        ensures { result ≡ controlled self srst }
    {
        if srst {
            return Heard {
                front: Front {
                    task: Task::Idle,
                    fault: None,
                    in_reset: true,
                    settings: self.settings,
                },
                act: Act::Resets,
            };
        }
        let front = if self.in_reset {
            Front {
                task: Task::Owes(Reply::Signature),
                in_reset: false,
                ..self
            }
        } else {
            self
        };
        Heard {
            front,
            act: Act::Nothing,
        }
    }

    /// What stands at the disk where the queued commands of these tags are under way.
    pub fn standing(self, tags: u32) -> Standing
        ensures { result ≡ standing self tags }
    {
        if self.in_reset {
            return Standing::Reset;
        }
        match self.task {
            Task::Idle => match self.fault {
                None => Standing::Queued(tags),
                Some(_) => Standing::Error,
            },
            _ => Standing::Single,
        }
    }

    /// All queued commands end with this error.
    fn failed_all(self, fault: Fault, reply: Reply) -> Heard
        ensures { result ≡ failed_all self fault reply }
    {
        Heard {
            front: Front {
                task: Task::Owes(reply),
                fault: Some(fault),
                ..self
            },
            act: Act::Resets,
        }
    }

    /// A command that moves sectors is taken.
    fn taken_moves(self, moved: Move) -> Heard
        ensures { result ≡ taken_moves self moved }
    {
        let task = if moved.command.place < 32 {
            Task::Owes(Reply::Accepted)
        } else {
            Task::Moves(Moving {
                wide: moved.wide,
                left: moved.command.count,
            })
        };
        Heard {
            front: Front { task, ..self },
            act: Act::Takes(moved.command),
        }
    }

    /// A flush is taken.
    fn taken_flush(self, purpose: Purpose) -> Heard
        ensures { result ≡ taken_flush self purpose }
    {
        Heard {
            front: Front {
                task: Task::Waits(purpose),
                ..self
            },
            act: Act::Flushes,
        }
    }

    /// The front with these settings, and a good end next.
    fn setting(self, settings: Settings) -> Heard
        ensures { result ≡ record { front = record self { settings = settings; task = Task.Owes Reply.Done }; act = Act.Nothing } }
    {
        Heard {
            front: Front {
                task: Task::Owes(Reply::Done),
                settings,
                ..self
            },
            act: Act::Nothing,
        }
    }

    /// A feature is set.
    fn set(self, setting: Setting) -> Heard
        ensures value { result ≡ set_by self setting }
        ensures act { MayTake result.act (Asked.Sets setting) }
    {
        let now = self.settings;
        match setting {
            Setting::WriteCache(false) => self.taken_flush(Purpose::CacheOff),
            Setting::WriteCache(true) => self.setting(Settings {
                write_cache: true,
                ..now
            }),
            Setting::LookAhead(look_ahead) => self.setting(Settings { look_ahead, ..now }),
            Setting::AutoActivate(auto_activate) => self.setting(Settings {
                auto_activate,
                ..now
            }),
            Setting::Mode(mode) => self.setting(Settings { mode, ..now }),
            Setting::Reverts(_) => self.with(Task::Owes(Reply::Done)),
        }
    }

    /// A command is refused; a queued one ends all others.
    fn refused(self, refusal: Refusal) -> Heard
        ensures value { result ≡ refused self refusal }
        ensures act { MayTake result.act (Asked.Refused refusal) }
    {
        let reply = Reply::Failed(Failure {
            error: refusal.error,
            lba: refusal.lba,
            wide: refusal.wide,
        });
        match refusal.tag {
            None => self.with(Task::Owes(reply)),
            Some(tag) => {
                let trouble = Trouble {
                    error: refusal.error,
                    lba: refusal.lba,
                };
                self.failed_all(Fault::Queued(tag, trouble), reply)
            }
        }
    }

    /// A task of the Power Management feature set.
    fn taken_power(self, task: PowerTask) -> Heard
        ensures value { result ≡ taken_power self task }
        ensures act { MayTake result.act (Asked.Power task) }
    {
        match task {
            PowerTask::Check => self.with(Task::Owes(Reply::Active)),
            PowerTask::Idle => self.with(Task::Owes(Reply::Done)),
            PowerTask::Standby => if self.settings.write_cache {
                self.taken_flush(Purpose::Flush)
            } else {
                self.with(Task::Owes(Reply::Done))
            },
        }
    }

    /// A command is taken.
    fn taken(self, asked: Asked) -> Heard
        ensures value { result ≡ taken self asked }
        ensures act { MayTake result.act asked }
    {
        match asked {
            Asked::Moves(moved) => self.taken_moves(moved),
            Asked::Flushes => self.taken_flush(Purpose::Flush),
            Asked::Sets(setting) => self.set(setting),
            Asked::SetsMultiple(multiple) => self.setting(Settings {
                multiple,
                ..self.settings
            }),
            Asked::Trims(blocks) => self.with(Task::Activates(blocks)),
            Asked::Identifies => self.with(Task::Announces(Page::Identity)),
            Asked::ReadsLog(page) => self.with(log_task(page)),
            Asked::Smart(task) => self.with(task_of_smart(task)),
            Asked::Power(task) => self.taken_power(task),
            Asked::Refused(refusal) => self.refused(refusal),
        }
    }

    /// A command came while the queued commands of these tags are under way.
    pub fn command(self, asked: Asked, tags: u32) -> Heard
        ensures value { result ≡ commanded self asked tags }
        ensures act { MayTake result.act asked }
    {
        match course_of(&asked, self.standing(tags)) {
            Course::Drop => Heard {
                front: self,
                act: Act::Nothing,
            },
            Course::Refuse => self.with(Task::Owes(aborted())),
            Course::AbortAll => self.failed_all(Fault::Mixed, aborted()),
            Course::Take => self.taken(asked),
        }
    }

    /// The blocks of ranges that are to come in the next Data FIS, None where none are.
    pub fn expects(self) -> Option<u16>
        ensures { result ≡ heard_data self.task }
    {
        match self.task {
            Task::Expects(blocks) => Some(blocks),
            _ => None,
        }
    }

    /// The ranges came: the discard is taken beside the queue; or they name a sector that the disk does not have, and the command
    /// is refused.
    pub fn discards(self, are_there: bool) -> Front
        ensures { result ≡ after_discard self are_there }
    {
        Front {
            task: if are_there {
                Task::Waits(Purpose::Discard)
            } else {
                Task::Owes(aborted())
            },
            ..self
        }
    }

    /// What the task has to send.
    pub fn owed(self) -> Option<Owed>
        ensures { result ≡ owed self.task }
    {
        match self.task {
            Task::Owes(reply) => Some(Owed::Reply(reply)),
            Task::Announces(_) => Some(Owed::Reply(page_announced())),
            Task::Activates(_) => Some(Owed::Reply(Reply::Activate)),
            Task::Gives(page) | Task::Sends(page) => Some(Owed::Page(page)),
            _ => None,
        }
    }

    /// A page was sent. The error is forgiven with its log.
    fn given(self, page: Page, task: Task) -> Front
        ensures { result ≡ given self page task }
    {
        Front {
            task,
            fault: if is_log_10(page) { None } else { self.fault },
            ..self
        }
    }

    /// What the task had to send was sent.
    pub fn said(self) -> Front
        ensures { result ≡ said self }
    {
        match self.task {
            Task::Owes(_) => Front {
                task: Task::Idle,
                ..self
            },
            Task::Announces(page) => Front {
                task: Task::Gives(page),
                ..self
            },
            Task::Activates(blocks) => Front {
                task: Task::Expects(blocks),
                ..self
            },
            Task::Gives(page) => self.given(page, Task::Idle),
            Task::Sends(page) => self.given(page, Task::Owes(Reply::Done)),
            _ => self,
        }
    }

    /// The end of the command beside the queue, well or not.
    pub fn over(self, well: bool, trouble: Trouble) -> Reply
        ensures { result ≡ over well trouble }
    {
        if well {
            Reply::Done
        } else {
            Reply::Failed(Failure {
                error: trouble.error,
                lba: trouble.lba,
                wide: true,
            })
        }
    }

    /// The end of the command beside the queue was sent. The write cache is off only once all that was in it lasts.
    pub fn beside_sent(self, well: bool) -> Front
        ensures { result ≡ beside_sent self well }
    {
        let settings = match self.task {
            Task::Waits(Purpose::CacheOff) if well => Settings {
                write_cache: false,
                ..self.settings
            },
            _ => self.settings,
        };
        Front {
            task: Task::Idle,
            settings,
            ..self
        }
    }

    /// A FIS of the command that is not queued was sent, with so many sectors. Once it has ended the host waits no longer.
    pub fn single_sent(self, ended: bool, sectors: u32) -> Front
        ensures { result ≡ single_sent self ended sectors }
    {
        let task = match self.task {
            Task::Moves(moving) if !ended => Task::Moves(Moving {
                wide: moving.wide,
                left: moving.left.saturating_sub(sectors),
            }),
            _ => Task::Idle,
        };
        Front { task, ..self }
    }

    /// The error of a queued command was sent: all of them ended with it.
    pub fn queued_failed(self, tag: u8, trouble: Trouble) -> Front
        ensures { result ≡ queued_failed self tag trouble }
    {
        Front {
            fault: Some(Fault::Queued(tag, trouble)),
            ..self
        }
    }
}
