//! What goes over the links.

use fis_view::Frame;
use ruled_links::Item;
use std::marker::Model;

/// A FIS from a device, on its way to the multiplier. Connections never fall, and the numbers of each are 0,
/// 1, 2, .. without a gap.
#[derive(Debug, Drop)]
pub struct FromDevice(pub Frame);

impl Model for FromDevice {
    ghost use Rattle.fis_view.specs.Frames.{Stamped};

    ghost Value = { Stamped };

    ghost view = { λ f. f.0 };
}

impl Item for FromDevice {
    ghost use Rattle.multiplier.specs.Orders.{InDeviceOrder};
    ghost use Rattle.link_items.specs.Beginnings.{device_starts, device_prefixes};

    ghost in_order = { InDeviceOrder };

    ghost starts = { device_starts };

    ghost prefixes = { device_prefixes };
}

/// A FIS on its way to the host, in stamped order.
#[derive(Debug, Drop)]
pub struct ToHost(pub Frame);

impl Model for ToHost {
    ghost use Rattle.fis_view.specs.Frames.{Stamped};

    ghost Value = { Stamped };

    ghost view = { λ f. f.0 };
}

impl Item for ToHost {
    ghost use Rattle.multiplier.specs.Orders.{InStampedOrder};
    ghost use Rattle.link_items.specs.Beginnings.{stamped_starts, stamped_prefixes};

    ghost in_order = { InStampedOrder };

    ghost starts = { stamped_starts };

    ghost prefixes = { stamped_prefixes };
}

/// A FIS from the host, on its way to the multiplier or to a device, in any order.
#[derive(Debug, Drop)]
pub struct Down(pub Frame);

impl Model for Down {
    ghost use Rattle.fis_view.specs.Frames.{Stamped};

    ghost Value = { Stamped };

    ghost view = { λ f. f.0 };
}

impl Item for Down {
    ghost use Rattle.std.specs.Prelude.{⊤};

    ghost in_order = { λ fises. ⊤ };

    ghost starts = { tt };

    ghost prefixes = { λ front rest h. tt };
}

/// What the port of a device is told: a connection came or went.
#[derive(Clone, Copy, Debug, PartialEq, Eq)]
pub enum Presence {
    /// The device was plugged in, as this connection.
    Came(u32),
    /// The device of this connection was pulled out.
    Gone(u32),
}

impl Item for Presence {
    ghost use Rattle.std.specs.Prelude.{⊤};

    ghost in_order = { λ changes. ⊤ };

    ghost starts = { tt };

    ghost prefixes = { λ front rest h. tt };
}
