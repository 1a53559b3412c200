//! A disk behind a port multiplier, without a host port: the program plays the host. It reads from the
//! control port what the multiplier is, opens port 0 by register writes, lets the new device in, and
//! asks the disk for a sector. Each FIS that goes up is printed as its bytes.
#![tactic(auto)]

ghost use Rattle.std.specs.Prelude.{◌≡◌, ◌<◌};

use disk_model::{Device, Disk, DiskPlan};
use fis_view::{Frame, H2dFields, Stamp};
use multiplier::Multiplier;
use pm_ports::Offered;
use std::alloc::{AllocError, Global};
use std::io;

/// The PM Port of the multiplier itself.
const CONTROL_PORT: u8 = 15;

/// READ PORT MULTIPLIER and WRITE PORT MULTIPLIER.
const READ: u8 = 0xE4;

const WRITE: u8 = 0xE8;

/// Frames of the host have no port, connection or number.
fn of_host() -> Stamp {
    Stamp {
        port: 0,
        conn: 0,
        number: 0,
        shown: [0; 15],
    }
}

/// A command for the control port: E4h READ PORT MULTIPLIER or E8h WRITE PORT MULTIPLIER (Serial ATA 3.x, 16.2). The port whose register it is goes into
/// Device, the register's number into Features, and the value into Count and the lowest three bytes of the LBA.
fn register_command(command: u8, port: u8, register: u16, value: u32) -> H2dFields {
    H2dFields {
        pm_port: CONTROL_PORT,
        c: true,
        command,
        features: register,
        lba: u64::from(value / 0x100),
        device: port,
        count: u16::from(value.to_le_bytes()[0]),
        icc: 0,
        control: 0,
    }
}

/// READ FPDMA QUEUED of sector 5, with tag 0.
fn read() -> H2dFields {
    H2dFields {
        pm_port: 0,
        c: true,
        command: 0x60,
        features: 1,
        lba: 5,
        device: 0x40,
        count: 0,
        icc: 0,
        control: 0,
    }
}

/// Gives the multiplier a frame of the host. If the place that it needs is taken, the frame is lost
/// here.
fn give(alloc: Global, pm: &mut Multiplier, fields: &H2dFields) -> Result<(), AllocError>
    ensures { pm.new.registers.ports ≡ pm.old.registers.ports }
{
    let frame = fis_view::h2d(alloc, fields, of_host())?;
    let _ = pm.from_host(alloc, frame);
    Ok(())
}

/// Passes all that waits for the disk down to it.
fn serve(alloc: Global, pm: &mut Multiplier, disk: &mut Disk) -> Result<(), AllocError>
    requires { 0 < pm.old.registers.ports }
    ensures { pm.new.registers.ports ≡ pm.old.registers.ports }
{
    match pm.next_down(0) {
        Some(frame) => disk.on_frame(alloc, &frame),
        None => Ok(()),
    }
}

/// Lets the disk send its next FIS, which is the given one of its first connection, into the hold of
/// port 0.
fn send(
    alloc: Global,
    pm: &mut Multiplier,
    disk: &mut Disk,
    number: u32,
) -> Result<bool, AllocError>
    requires { 0 < pm.old.registers.ports }
    ensures { pm.new.registers.ports ≡ pm.old.registers.ports }
{
    let stamp = Stamp {
        port: 0,
        conn: 1,
        number,
        shown: [0; 15],
    };
    match disk.next_out(alloc, stamp)? {
        Some(frame) => Ok(matches!(pm.from_device(0, frame), Ok(Offered::Held))),
        None => Ok(false),
    }
}

/// Prints the first 20 bytes of what goes up next.
fn show(rt: &HostRuntime, pm: &mut Multiplier) -> io::Result<()>
    ensures { pm.new.registers.ports ≡ pm.old.registers.ports }
{
    match pm.next_up(rt.alloc())? {
        Some(frame) => {
            let bytes = frame.bytes();
            let text = hex::encode(rt.alloc(), bytes.get(..20).unwrap_or(bytes))?;
            println!(rt; "up {text}")
        }
        None => println!(rt; "nothing goes up"),
    }
}

/// The disk is plugged in at port 0, under connection 1, and the port records it.
fn plug(alloc: Global, pm: &mut Multiplier, disk: &mut Disk) -> Result<(), AllocError>
    requires { 0 < pm.old.registers.ports }
    ensures { pm.new.registers.ports ≡ pm.old.registers.ports }
{
    disk.plugged(alloc)?;
    let _ = pm.came(0, 1);
    Ok(())
}

/// The host reads what the multiplier is: product and vendor (GSCR 0), and how many ports it has (GSCR 2).
fn identify(rt: &HostRuntime, pm: &mut Multiplier) -> io::Result<()>
    ensures { pm.new.registers.ports ≡ pm.old.registers.ports }
{
    give(rt.alloc(), pm, &register_command(READ, CONTROL_PORT, 0, 0))?;
    show(rt, pm)?;
    give(rt.alloc(), pm, &register_command(READ, CONTROL_PORT, 2, 0))?;
    show(rt, pm)
}

/// The host opens port 0: SControl 0, and then it clears all bits of SError, X among them, before which nothing passes.
fn open(rt: &HostRuntime, pm: &mut Multiplier) -> io::Result<()>
    ensures { pm.new.registers.ports ≡ pm.old.registers.ports }
{
    give(rt.alloc(), pm, &register_command(WRITE, 0, 2, 0))?;
    show(rt, pm)?;
    give(rt.alloc(), pm, &register_command(WRITE, 0, 1, 0xFFFF_FFFF))?;
    show(rt, pm)
}

/// The disk sends its signature, is asked for a sector, and sends it.
fn exchange(rt: &HostRuntime, pm: &mut Multiplier, disk: &mut Disk) -> io::Result<()>
    requires { 0 < pm.old.registers.ports }
    ensures { pm.new.registers.ports ≡ pm.old.registers.ports }
{
    send(rt.alloc(), pm, disk, 0)?;
    show(rt, pm)?;
    give(rt.alloc(), pm, &read())?;
    serve(rt.alloc(), pm, disk)?;
    for number in 1..6 {
        send(rt.alloc(), pm, disk, number)?;
        show(rt, pm)?;
    }
    Ok(())
}

fn main(rt: HostRuntime) -> io::Result<()> {
    let Ok(mut disk) = Disk::new(rt.alloc(), 16, DiskPlan::plain()) else {
        return println!(rt; "no memory");
    };
    let mut pm = Multiplier::new(1);
    identify(&rt, &mut pm)?;
    plug(rt.alloc(), &mut pm, &mut disk)?;
    open(&rt, &mut pm)?;
    exchange(&rt, &mut pm, &mut disk)
}
