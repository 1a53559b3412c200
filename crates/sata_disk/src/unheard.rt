//! Why a FIS of the host is not heard.

ghost use Rattle.std.specs.Prelude.{◌≡◌};
ghost use Rattle.sata_disk.specs.Hearing.{command_unheard};

use ata_command::Standing;
use thiserror::Error;

/// Why a FIS of the host is not heard. The disk stays as it is.
#[derive(Clone, Copy, Debug, PartialEq, Eq, Error)]
pub enum Unheard {
    /// It is no Register FIS and no Data FIS of a host.
    #[error("not a FIS of a host")]
    NotOfHost,
    /// A command came while SRST is set.
    #[error("a command while SRST is set")]
    InReset,
    /// A command came while the host waits for the answer to another.
    #[error("a command while another waits for its answer")]
    Busy,
    /// Data came that were not asked for.
    #[error("Data that were not asked for")]
    NotAwaited,
}

/// Why a command is not heard beside what stands at the disk.
pub(crate) fn command_unheard(standing: Standing) -> Option<Unheard>
    ensures { result ≡ command_unheard standing }
{
    match standing {
        Standing::Reset => Some(Unheard::InReset),
        Standing::Single => Some(Unheard::Busy),
        Standing::Error | Standing::Queued(_) => None,
    }
}
