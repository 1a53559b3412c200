//! Writing a command into a slot.

ghost use Rattle.std.specs.Prelude.{◌≡◌, ◌+◌, ◌*◌, ◌<◌, ◌≤◌, All, Bool, length};
ghost use Rattle.std.specs.Int.{from_bool};
ghost use Rattle.host_memory.specs.Memory.{overwritten};
ghost use Rattle.host_memory.specs.Writing.{CanBeWritten};
ghost use Rattle.hba_commands.specs.Requests.{kind_of};
ghost use Rattle.hba_commands.specs.Commands.{cfis_at, command_at};
ghost use Rattle.hba_commands.specs.Writing.{HasRoom, IsWritten, command_of, header_bytes, header_for, is_write as is_write_kind};

use crate::request::Request;
use byteorder::{ByteOrder, LittleEndian};
use fis_view::H2dFields;
use host_memory::{HostMemory, Prd, write_prds};
use slots::Kind;

// Whether a command of this kind moves data to the device.
fn is_write(kind: Kind) -> bool
    ensures { result ≡ is_write_kind kind }
{
    matches!(kind, Kind::QueuedWrite | Kind::DmaOut | Kind::PioOut)
}

// DW0 of a header: PRDTL in bits 31:16, PMP in bits 15:12, W in bit 6, CFL in bits 4:0.
fn first_dword(request: Request, count: u16) -> u32
    requires { request.pm_port < 16 }
    ensures { result
        ≡ 65536 * count + 4096 * request.pm_port + 64 * from_bool (is_write_kind (kind_of request)) + 5 }
{
    let write = is_write(request.kind());
    0x1_0000 * u32::from(count) + 0x1000 * u32::from(request.pm_port) + 0x40 * u32::from(write) + 5
}

// The 32 bytes of a header.
#[tactic(auto, unfolding(crate::specs::Writing::header_bytes))]
fn header(request: Request, table: u32, count: u16) -> [u8; 32]
    requires { request.pm_port < 16 }
    ensures { result ≡ header_bytes (header_for request table count) }
{
    let mut bytes = [0; 32];
    LittleEndian::write_u32(&mut bytes[0..4], first_dword(request, count));
    LittleEndian::write_u32(&mut bytes[8..12], table);
    bytes
}

fn put(structure: &mut [u8], at: usize, bytes: &[u8])
    requires { at + length bytes.now ≤ length structure.old }
    ensures { structure.new ≡ overwritten structure.old at bytes.now }
{
    structure[at..at + bytes.len()].copy_from_slice(bytes);
}

// Writes the header and the table into the structure area.
fn put_command(
    structure: &mut [u8],
    clb: u32,
    slot: u8,
    table: u32,
    fields: H2dFields,
    prds: &[Prd],
)
    requires sized { length structure.old ≡ 1048576 }
    requires slot { slot < 32 }
    requires room { HasRoom clb table (length prds.now) }
    requires few { length prds.now ≤ 248 }
    requires counts { All CanBeWritten prds.now }
    ensures { IsWritten clb slot table fields prds.now structure.old structure.new }
{
    let head = header(Request::of(&fields), table, prds.len() as u16);
    put(structure, clb as usize + 32 * slot as usize, &head);
    put(structure, table as usize, &fields.bytes());
    put(structure, table as usize + 20, &[0; 108]);
    write_prds(structure, table + 0x80, prds);
}

/// Writes a command into a slot, as a driver does before it sets the slot's bit in PxCI. The header goes to
/// the command list that begins at `clb`, the command table to `table`. The table has the FIS of these fields
/// and these PRDs, each of 1 byte to 4 MiB. Nothing checks that [`Command::read`](crate::Command::read) will
/// accept it.
pub fn write_command(
    memory: &mut HostMemory,
    clb: u32,
    slot: u8,
    table: u32,
    fields: &H2dFields,
    prds: &[Prd],
)
    requires slot { slot < 32 }
    requires room { HasRoom clb table (length prds.now) }
    requires few { length prds.now ≤ 248 }
    requires counts { All CanBeWritten prds.now }
    ensures written { IsWritten clb slot table fields.now prds.now
        memory.old.structure memory.new.structure }
    ensures client { memory.new.client ≡ memory.old.client }
    ensures command { (armed : Bool) → command_at memory.new clb slot armed
        ≡ command_of fields.now (cfis_at memory.new.structure table) prds.now table slot armed
        (length memory.new.client) }
{
    put_command(memory.structure_mut(), clb, slot, table, *fields, prds);
}
