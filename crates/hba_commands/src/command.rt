//! Reading the command of a slot.

ghost use Rattle.std.specs.Prelude.{◌≡◌, ◌+◌, ◌*◌, ◌<◌, ◌≤◌, length, None, IfSome, true};
ghost use Rattle.host_memory.specs.Place.{total_of};
ghost use Rattle.fis_view.specs.Table.{H2d, PmPort, field};
ghost use Rattle.slots.specs.Work.{is_queued};
ghost use Rattle.hba_commands.specs.Headers.{header_at};
ghost use Rattle.hba_commands.specs.Commands.{cfis_at, command_at, entries_of, fault_of, has_table as has_table_of, is_proper as is_proper_of, is_few as is_few_of, may_move as may_move_of, may_queue as may_queue_of, suits as suits_of, total_at};
ghost use Rattle.hba_commands.specs.Requests.{request_in, tag_of};
ghost use Rattle.hba_commands.specs.Writing.{is_write};

mod saved;

use crate::header::Header;
use crate::request::Request;
use host_memory::{CLIENT_START, HostMemory, PrdTable};
use slots::{Kind, Work};

/// The command in a slot.
#[derive(Clone, Copy, Debug, PartialEq, Eq)]
pub struct Command {
    /// What it asks for.
    pub work: Work,
    /// The command FIS, as it is transmitted.
    pub cfis: [u8; 20],
    /// The address of its command table. Its PRDs begin 80h bytes later.
    pub table: u32,
    /// The number of PRDs in the table.
    pub count: u16,
}

// Whether the table has a valid place.
fn has_table(header: &Header) -> bool
    ensures { result ≡ has_table_of header.now }
{
    let end = u64::from(header.ctba) + 0x80 + 16 * u64::from(header.prdtl);
    header.ctbau == 0 && header.ctba % 128 == 0 && end <= u64::from(CLIENT_START)
}

// The command FIS of the table at this address.
fn command_fis(structure: &[u8], table: u32) -> [u8; 20]
    requires { table + 20 ≤ length structure.now }
    ensures { result ≡ cfis_at structure.now table }
{
    let table = table as usize;
    let mut cfis = [0; 20];
    cfis.copy_from_slice(&structure[table..table + 20]);
    cfis
}

// The total byte count of the table's PRDs, if they can be read.
fn total(structure: &[u8], client_len: u32, table: u32, count: u16) -> Option<u32>
    requires { table + 128 < 4294967296 }
    ensures { result ≡ total_at structure.now client_len table count }
{
    match PrdTable::read(structure, client_len, table + 0x80, count) {
        Ok(prds) => Some(prds.total()),
        Err(_) => None,
    }
}

fn may_queue(header: &Header, request: &Request, slot: u8, armed: bool) -> bool
    ensures { result ≡ may_queue_of header.now request.now slot armed }
{
    armed
        && request.tag() == slot
        && header.pmp != 15
        && !header.clear
        && request.work().len <= 0x2_0000
}

// Whether it moves at most 128 KiB.
fn is_few(request: &Request) -> bool
    ensures { result ≡ is_few_of request.now }
{
    request.work().len <= 0x2_0000
}

fn may_move(header: &Header, request: &Request, armed: bool) -> bool
    ensures { result ≡ may_move_of header.now request.now armed }
{
    !armed && !header.clear && header.pmp != 15 && is_few(request)
}

// Whether the header and the slot suit a command of this kind.
fn suits(kind: Kind, header: &Header, request: &Request, slot: u8, armed: bool) -> bool
    ensures { result ≡ suits_of kind header.now request.now slot armed }
{
    match kind {
        Kind::QueuedRead => !header.write && may_queue(header, request, slot, armed),
        Kind::QueuedWrite => header.write && may_queue(header, request, slot, armed),
        Kind::DmaIn => !header.write && may_move(header, request, armed),
        Kind::DmaOut | Kind::PioOut => header.write && may_move(header, request, armed),
        Kind::PioIn => !header.write && !armed && !header.clear && is_few(request),
        Kind::NoData => !header.write && !armed && !header.clear && header.prdtl == 0,
        Kind::Control => !header.write && !armed && header.prdtl == 0,
    }
}

#[tactic(auto, unfolding(crate::specs::Commands::is_proper))]
fn is_proper(header: &Header, request: &Request, total: u32, slot: u8, armed: bool) -> bool
    ensures { result ≡ is_proper_of header.now request.now total slot armed }
{
    header.cfl == 5
        && header.pmp == request.pm_port
        && suits(request.kind(), header, request, slot, armed)
        && total == request.work().len
}

impl Command {
    ghost use Rattle.slots.specs.Work.{IsWork};

    /// The command of a slot, for the command list that begins at `clb`. `armed` is the slot's bit in PxSACT.
    /// None where the header or the command table is bad.
    #[tactic(auto, unfolding(crate::specs::Commands::command_under))]
    pub fn read(memory: &HostMemory, clb: u32, slot: u8, armed: bool) -> Option<Command>
        requires slot { slot < 32 }
        requires list { clb + 1024 ≤ CLIENT_START }
        ensures command { result ≡ command_at memory.now clb slot armed }
        // what holds for every command that is read
        ensures work { IfSome result (λ command. IsWork command.work) }
        ensures armed { IfSome result (λ command. is_queued command.work.kind ≡ armed) }
        ensures port { IfSome result
            (λ command. field H2d PmPort command.cfis
            ≡ (header_at memory.now.structure clb slot).pmp) }
        ensures tag { IfSome result
            (λ command. armed ≡ true → tag_of (request_in command.cfis) ≡ slot) }
        ensures direction { IfSome result
            (λ command. (header_at memory.now.structure clb slot).write
            ≡ is_write command.work.kind) }
        // its table lies in the structure area, can be read, and has exactly the bytes that the command moves
        ensures place { IfSome result
            (λ command. command.table + 128 + 16 * command.count ≤ 1048576) }
        ensures readable { IfSome result
            (λ command. fault_of memory.now command.table command.count ≡ None) }
        ensures sized { IfSome result
            (λ command. total_of (entries_of memory.now command.table command.count)
            ≡ command.work.len) }
    {
        let structure = memory.structure();
        let header = Header::read(structure, clb, slot);
        if !has_table(&header) {
            return None;
        }
        let cfis = command_fis(structure, header.ctba);
        let request = Request::read(&cfis)?;
        let client_len = memory.client().len() as u32;
        let total = total(structure, client_len, header.ctba, header.prdtl)?;
        if !is_proper(&header, &request, total, slot, armed) {
            return None;
        }
        Some(Command {
            work: request.work(),
            cfis,
            table: header.ctba,
            count: header.prdtl,
        })
    }
}
