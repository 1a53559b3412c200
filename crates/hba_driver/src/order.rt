//! What slot 31 does: it brings up the multiplier and scans its ports.

ghost use Rattle.std.specs.Prelude.{◌≡◌, ◌<◌, IfSome};
ghost use Rattle.hba_driver.specs.Orders.{command as command_of, control as control_of, next_order, open_from as open_from_of, order_fields, reads as reads_of, scan_from as scan_from_of, writes as writes_of};
ghost use Rattle.hba_driver.specs.Drivers.{IsOrder};
ghost use Rattle.slots.specs.Slots.{has_bit as has_bit_of, lowest_below};
ghost use Rattle.std.specs.Prelude.{nat_le, ◌&&◌};

use crate::sight::has_bit;
use fis_view::H2dFields;

/// What slot 31 does next. An order with a command is over when its answer came.
#[derive(Clone, Copy, Debug, PartialEq, Eq)]
pub(crate) enum Order {
    /// Software reset of the multiplier, with SRST set.
    ResetOn,
    /// Software reset of the multiplier, with SRST clear.
    ResetOff,
    /// Its signature is awaited.
    AwaitSignature,
    /// The number of its ports is read.
    CountPorts,
    /// The mask of the port errors that count is written.
    SetMask,
    /// Its notifications are turned on.
    Enable,
    /// A port is opened.
    Open(u8),
    /// The ports with an error are read.
    Scan,
    /// The errors of a port that the scan found are cleared.
    Clear(u8),
    /// PSCR[0] of that port is read: whether a device is there.
    Detect(u8),
    /// A notification is awaited.
    Watch,
}

/// The control port of the multiplier.
pub(crate) const CONTROL_PORT: u8 = 15;

/// READ PORT MULTIPLIER.
const READ: u8 = 0xE4;
/// WRITE PORT MULTIPLIER.
const WRITE: u8 = 0xE8;
/// GSCR[2] bits 3:0: the number of ports.
const PORT_COUNT: u16 = 2;
/// GSCR[32]: a bit for each port with an error.
const ERROR_PORTS: u16 = 32;
/// GSCR[33]: the bits of PSCR[1] that are an error.
const ERROR_MASK: u16 = 33;
/// GSCR[96]: the features that are on.
const FEATURES_ON: u16 = 96;
/// PSCR[0].
const SSTATUS: u16 = 0;
/// PSCR[1].
const SERROR: u16 = 1;
/// PSCR[2].
const SCONTROL: u16 = 2;
/// The bits N and X of SError: a device came or went.
const CHANGES: u32 = 0x0401_0000;
/// Bit 3 of GSCR[96]: notifications.
const NOTIFICATIONS: u32 = 8;
/// SRST, of the Device Control register.
const SRST_MASK: u8 = 4;

/// A command with these fields, all others 0.
pub(crate) fn command(
    port: u8,
    command: u8,
    features: u16,
    lba: u64,
    device: u8,
    count: u16,
) -> H2dFields
    ensures { result ≡ command_of port command features lba device count }
{
    H2dFields {
        pm_port: port,
        c: true,
        command,
        features,
        lba,
        device,
        count,
        icc: 0,
        control: 0,
    }
}

/// The Device Control register of a port.
pub(crate) fn control(port: u8, value: u8) -> H2dFields
    ensures { result ≡ control_of port value }
{
    H2dFields {
        c: false,
        control: value,
        ..command(port, 0, 0, 0, 0, 0)
    }
}

fn reads(port: u8, register: u16) -> H2dFields
    ensures { result ≡ reads_of port register }
{
    command(CONTROL_PORT, READ, register, 0, port, 0)
}

fn writes(port: u8, register: u16, value: u32) -> H2dFields
    ensures { result ≡ writes_of port register value }
{
    command(
        CONTROL_PORT,
        WRITE,
        register,
        u64::from(value / 0x100),
        port,
        (value % 0x100) as u16,
    )
}

fn is_found(found: u32, from: u8, port: u8) -> bool
    requires { port < 15 }
    ensures { result ≡ (nat_le from port && has_bit_of found port) }
{
    from <= port && has_bit(found, port)
}

// The lowest port from this one on that the scan found.
fn found_from(found: u32, from: u8) -> Option<u8>
    ensures value { result ≡ lowest_below (λ port. nat_le from port && has_bit_of found port) 15 }
    ensures below { IfSome result (λ port. port < 15) }
{
    for port in 0..15_u8 {
        if is_found(found, from, port) {
            return Some(port);
        }
    }
    None
}

#[tactic(auto, unfolding(crate::specs::Orders::scan_from))]
fn scan_from(found: u32, from: u8) -> Order
    ensures value { result ≡ scan_from_of found from }
    ensures order { IsOrder result }
{
    match found_from(found, from) {
        Some(port) => Order::Clear(port),
        None => Order::Watch,
    }
}

fn open_from(ports: u8, from: u8) -> Order
    requires { ports < 16 }
    ensures value { result ≡ open_from_of ports from }
    ensures order { IsOrder result }
{
    if from < ports {
        Order::Open(from)
    } else {
        Order::Scan
    }
}

impl Order {
    /// The command that the order issues, if it has one.
    #[tactic(auto, unfolding(crate::specs::Orders::order_fields))]
    pub(crate) fn fields(self) -> Option<H2dFields>
        ensures { result ≡ order_fields self }
    {
        match self {
            Order::ResetOn => Some(control(CONTROL_PORT, SRST_MASK)),
            Order::ResetOff => Some(control(CONTROL_PORT, 0)),
            Order::CountPorts => Some(reads(CONTROL_PORT, PORT_COUNT)),
            Order::SetMask => Some(writes(CONTROL_PORT, ERROR_MASK, CHANGES)),
            Order::Enable => Some(writes(CONTROL_PORT, FEATURES_ON, NOTIFICATIONS)),
            Order::Open(port) => Some(writes(port, SCONTROL, 0)),
            Order::Scan => Some(reads(CONTROL_PORT, ERROR_PORTS)),
            Order::Clear(port) => Some(writes(port, SERROR, CHANGES)),
            Order::Detect(port) => Some(reads(port, SSTATUS)),
            Order::AwaitSignature | Order::Watch => None,
        }
    }

    /// The order after this one, for a multiplier with `ports` ports, of which the last scan found `found`.
    #[tactic(auto, unfolding(crate::specs::Orders::next_order))]
    pub(crate) fn next(self, ports: u8, found: u32) -> Order
        requires order { IsOrder self }
        requires ports { ports < 16 }
        ensures value { result ≡ next_order ports found self }
        ensures order { IsOrder result }
    {
        match self {
            Order::ResetOn => Order::ResetOff,
            Order::ResetOff => Order::AwaitSignature,
            Order::AwaitSignature => Order::CountPorts,
            Order::CountPorts => Order::SetMask,
            Order::SetMask => Order::Enable,
            Order::Enable => open_from(ports, 0),
            Order::Open(port) => open_from(ports, port + 1),
            Order::Scan => scan_from(found, 0),
            Order::Clear(port) => Order::Detect(port),
            Order::Detect(port) => scan_from(found, port + 1),
            Order::Watch => Order::Scan,
        }
    }
}
