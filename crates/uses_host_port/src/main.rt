//! A host port with nothing behind it: the program plays the device. A queued read of one sector is
//! written into slot 0 for the device at PM Port 3 and issued. The FISes by which the device serves
//! it are taken, and the sector stands in client memory. Each FIS is printed as its bytes, and each
//! take as what the port reports.
#![tactic(auto)]

use fis_view::{D2hFields, DmaSetupFields, Frame, H2dFields, SetBitsFields, Stamp};
use hba_commands::write_command;
use hba_fbs::HostPort;
use host_memory::{HostMemory, Prd};
use std::alloc::{AllocError, Global};
use std::io;

/// The port of the device. The device writes it into each of its FISes.
const DEVICE: u8 = 3;

/// PxCLB, PxFB, PxFBS, PxCMD, PxSACT and PxCI.
const COMMAND_LIST: u32 = 0x00;

const RECEIVED_AREA: u32 = 0x08;

const SWITCHING: u32 = 0x40;

const COMMAND: u32 = 0x18;

const ACTIVE: u32 = 0x34;

const ISSUE: u32 = 0x38;

/// The stamp of the first FIS of the device's first connection. A host port looks at no number of a
/// stamp: numbers are for links.
fn stamp() -> Stamp {
    Stamp {
        port: DEVICE,
        conn: 1,
        number: 0,
        shown: [0; 15],
    }
}

/// Writes READ FPDMA QUEUED of sector 1000 into slot 0, with 512 bytes from 101000h on as its only entry.
fn write_read(memory: &mut HostMemory) {
    let fields = H2dFields {
        pm_port: DEVICE,
        c: true,
        command: 0x60,
        features: 1,
        lba: 1000,
        device: 0x40,
        count: 0,
        icc: 0,
        control: 0,
    };
    let prds = [Prd {
        address: 0x10_1000,
        bytes: 512,
    }];
    write_command(memory, 0x8000, 0, 0xA000, &fields, &prds);
}

/// A port that runs with FIS-based switching. Its command list stands at 8000h and its received area
/// at 1000h, and its next commands are for the device.
fn started(memory: &HostMemory) -> HostPort {
    let mut port = HostPort::new();
    let _ = port.write(COMMAND_LIST, 0x8000, memory);
    let _ = port.write(RECEIVED_AREA, 0x1000, memory);
    let _ = port.write(SWITCHING, 256 * u32::from(DEVICE) + 1, memory);
    let _ = port.write(COMMAND, 0x11, memory);
    port
}

/// What the device sends: the command is queued, the first 512 bytes of tag 0 follow, here they are,
/// and tag 0 is done.
fn served(alloc: Global) -> Result<[Frame; 4], AllocError> {
    let queued = D2hFields {
        pm_port: DEVICE,
        i: false,
        status: 0x40,
        error: 0,
        lba: 0,
        device: 0,
        count: 0,
    };
    let setup = DmaSetupFields {
        pm_port: DEVICE,
        a: false,
        i: false,
        d: true,
        buffer_id: 0,
        offset: 0,
        count: 512,
    };
    let done = SetBitsFields {
        pm_port: DEVICE,
        n: false,
        i: true,
        status: 0x40,
        error: 0,
        sactive: 1,
    };
    let Ok(data) = fis_view::payload(alloc, DEVICE, &[0xA5; 512], stamp()) else {
        return Err(AllocError);
    };
    Ok([
        fis_view::d2h(alloc, &queued, stamp())?,
        fis_view::dma_setup(alloc, &setup, stamp())?,
        data,
        fis_view::set_bits(alloc, &done, stamp())?,
    ])
}

/// Prints the first 20 bytes of a frame.
fn show(rt: &HostRuntime, way: &str, frame: &Frame) -> io::Result<()> {
    let bytes = frame.bytes();
    let text = hex::encode(rt.alloc(), bytes.get(..20).unwrap_or(bytes))?;
    println!(rt; "{way} {text}")
}

/// The whole exchange.
fn exchange(rt: &HostRuntime, port: &mut HostPort, memory: &mut HostMemory) -> io::Result<()> {
    let _ = port.write(ACTIVE, 1, memory);
    let _ = port.write(ISSUE, 1, memory);
    if let Some(command) = port.next_out(rt.alloc(), memory)? {
        show(rt, "out ", &command)?;
    }
    for frame in served(rt.alloc())?.iter() {
        show(rt, "take", frame)?;
        let report = port.take(frame, memory);
        let (done, wrote) = (report.done, report.wrote);
        println!(rt; "  done {done} wrote {wrote:?}")?;
    }
    Ok(())
}

fn main(rt: HostRuntime) -> io::Result<()> {
    let Ok(mut memory) = HostMemory::new(rt.alloc(), 0x20_0000) else {
        return println!(rt; "no memory");
    };
    write_read(&mut memory);
    let mut port = started(&memory);
    exchange(&rt, &mut port, &mut memory)?;
    let first = memory.client().get(0x1000..0x1004).unwrap_or(&[]);
    let text = hex::encode(rt.alloc(), first)?;
    println!(rt; "client {text}")
}
