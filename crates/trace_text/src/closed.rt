//! Why a port of the multiplier passes no FIS.

use std::fmt;

/// DET of SStatus and SControl.
const DET: u32 = 0xF;

/// DIAG.X of SError: a device was exchanged.
const EXCHANGED: u32 = 0x400_0000;

/// A port of a multiplier that drops what is for it, as its registers are then.
#[derive(Clone, Copy)]
pub struct Closed {
    pub port: u8,
    /// How many ports there are.
    pub ports: u8,
    /// PSCR\[0\], SStatus.
    pub status: u32,
    /// PSCR\[1\], SError.
    pub error: u32,
    /// PSCR\[2\], SControl.
    pub control: u32,
}

impl Closed {
    /// Writes why nothing passes it (Serial ATA 3.x, 16.3.3 and 16.4.2).
    fn write_reason<W: fmt::Write>(&self, f: &mut fmt::Formatter<W>) -> fmt::Result {
        let Closed {
            port,
            status,
            error,
            control,
            ..
        } = *self;
        if control & DET != 0 {
            return write!(
                f,
                "port {port} is closed: DET of its SControl is {}, and 0 opens it",
                control & DET
            );
        }
        if status & DET != 3 {
            return write!(
                f,
                "no device is at port {port}: DET of its SStatus is {}, and not 3",
                status & DET
            );
        }
        if error & EXCHANGED != 0 {
            return write!(
                f,
                "DIAG.X of SError of port {port} is set, and a 1 written to that bit opens it"
            );
        }
        write!(f, "port {port} passes nothing")
    }
}

impl fmt::Display for Closed {
    fn fmt<W: fmt::Write>(&self, f: &mut fmt::Formatter<W>) -> fmt::Result {
        let Closed {
            port,
            ports,
            status,
            error,
            control,
        } = *self;
        if port >= ports {
            return write!(f, "there is no port {port}: the multiplier has {ports}");
        }
        self.write_reason(f)?;
        write!(
            f,
            " (PSCR[0] SStatus {status:08x}, PSCR[1] SError {error:08x}, PSCR[2] SControl {control:08x})"
        )
    }
}
