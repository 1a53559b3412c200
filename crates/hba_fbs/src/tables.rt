//! The PRD tables of the host's memory.

ghost use Rattle.std.specs.Prelude.{◌≡◌, ◌+◌, ◌<◌, IfSome, MatchOption, is_some};
ghost use Rattle.host_memory.specs.Place.{total_of};
ghost use Rattle.slots.specs.Data.{receiving_slot};
ghost use Rattle.slots.specs.Slots.{context_of, issue_at, own_issue, slots_of};
ghost use Rattle.hba_fbs.specs.Tables.{IsReceiving, IsTableOf, is_readable as is_readable_of, is_sound, sound_command as sound_command_of, table_of};
ghost use Rattle.hba_fbs.specs.Views.{last_command};

use crate::port::PortCore;
use fis_view::Fis;
use hba_commands::Command;
use host_memory::{CLIENT_START, HostMemory, PrdTable};

/// The offset of the PRDs in a command table.
const PRDS: u32 = 0x80;

// The PRDs of a command, if they can be read and have `len` bytes in all.
#[tactic(auto, using(crate::proofs::DataLemmas::not_read))]
fn read_table<'m>(memory: &'m HostMemory, command: &Command, len: u32) -> Option<PrdTable<'m>>
    ensures readable { is_some result ≡ is_readable_of memory.now len command.now }
    ensures entries { IfSome result (λ table. table ≡ table_of memory.now command.now) }
{
    memory.keeps_rules();
    if command.table > CLIENT_START - PRDS {
        return None;
    }
    match memory.table(command.table + PRDS, command.count) {
        Some(table) if table.total() == len => Some(table),
        _ => None,
    }
}

// Where the PRDs of a command begin, if they can be read and have `len` bytes in all. The memory keeps them.
#[tactic(auto, using(crate::proofs::DataLemmas::not_read))]
fn kept_table(memory: &mut HostMemory, command: &Command, len: u32) -> Option<u32>
    ensures same { memory.new ≡ memory.old }
    ensures readable { is_some result ≡ is_readable_of memory.old len command.now }
    ensures at { IfSome result (λ at. at ≡ command.now.table + 0x80) }
{
    memory.keeps_rules();
    if command.table > CLIENT_START - PRDS {
        return None;
    }
    let at = command.table + PRDS;
    match memory.total(at, command.count) {
        Some(total) if total == len => Some(at),
        _ => None,
    }
}

/// The PRD table of a device's slot, if it can be read and has the slot's bytes.
pub(crate) fn sound_table<'m>(
    core: &PortCore,
    memory: &'m HostMemory,
    dev: u8,
    slot: u8,
) -> Option<PrdTable<'m>>
    requires slot { slot < 32 }
    requires owner { own_issue (slots_of dev core.now.slots) slot ≡ issue_at core.now.slots slot }
    ensures sound { is_some result ≡ is_some (sound_command_of memory.now core.now.commands
        (slots_of dev core.now.slots) slot) }
    ensures table { IfSome result (λ table. IsTableOf memory.now (sound_command_of memory.now
        core.now.commands (slots_of dev core.now.slots) slot) table) }
    ensures command { IfSome result (λ table. IsTableOf memory.now
        (last_command core.now.commands slot) table) }
    ensures sized { IfSome result (λ table. MatchOption (issue_at core.now.slots slot) ⊥
        (λ issue. total_of table.prds ≡ issue.work.len)) }
{
    let work = core.work(slot)?;
    let command = core.command(slot)?;
    read_table(memory, &command, work.len)
}

/// Where the bytes of a slot go: its PRD table.
#[derive(Clone, Copy)]
pub(crate) struct Receiving {
    /// The slot.
    pub(crate) slot: u8,
    /// The address of its first entry.
    pub(crate) at: u32,
    /// Its entries.
    pub(crate) count: u16,
}

/// The slot for which a device sends Data, with its PRD table, if it can be used. The memory keeps the table.
pub(crate) fn receiving_table(
    core: &PortCore,
    memory: &mut HostMemory,
    dev: u8,
) -> Option<Receiving>
    requires dev { dev < 16 }
    ensures same { memory.new ≡ memory.old }
    ensures sound { is_some result ≡ is_sound memory.old core.now.commands
        (slots_of dev core.now.slots) }
    ensures there { IfSome result (λ found. IsReceiving memory.old core.now dev found) }
{
    let slot = core.receiving(dev)?;
    let work = core.work(slot)?;
    let command = core.command(slot)?;
    let at = kept_table(memory, &command, work.len)?;
    Some(Receiving {
        slot,
        at,
        count: command.count,
    })
}

/// Has the memory keep the PRD table of the bytes that go next, where this FIS may have asked for them.
pub(crate) fn keep_due(core: &PortCore, memory: &mut HostMemory, fis: &Fis<'_>)
    ensures { memory.new ≡ memory.old }
{
    if !matches!(
        fis,
        Fis::DmaActivate(_) | Fis::DmaSetup(_) | Fis::PioSetup(_)
    ) {
        return;
    }
    if let Some(due) = core.due()
        && let Some(work) = core.work(due.slot)
        && let Some(command) = core.command(due.slot)
    {
        let _ = kept_table(memory, &command, work.len);
    }
}
