//! Whose turn it is.

ghost use Rattle.std.specs.Prelude.{◌≡◌, ◌<◌, true, IfSome};
ghost use Rattle.slots.specs.Slots.{has_bit as has_bit_of};
ghost use Rattle.ahci_controller.specs.Circle.{device_after as device_after_of, is_behind, opening_circle, slot_after as slot_after_of};

mod saved;

use crate::bits::has_bit;

/// Who had a turn last. The next one is the first behind it, in a circle, that may have one.
#[derive(Clone, Copy, Debug, PartialEq, Eq)]
pub struct Circle {
    /// The slot whose command was sent last.
    pub slot: u8,
    /// The slot for which bytes of the guest were wanted last.
    pub read: u8,
    /// The device to which Data went last.
    pub device: u8,
    /// Data went last, and no command since.
    pub fed: bool,
}

impl Circle {
    /// As it opens.
    pub(crate) fn new() -> Circle
        ensures { result ≡ opening_circle }
    {
        Circle {
            slot: 31,
            read: 31,
            device: 15,
            fed: false,
        }
    }
}

// The place so many places behind another one and the first, of 32.
fn slot_at(last: u8, step: u8) -> u8
    requires { step < 32 }
    ensures is { result ≡ is_behind 32 last step }
    ensures low { result < 32 }
{
    (last % 32 + 1 + step) % 32
}

// The same of 16.
fn device_at(last: u8, step: u8) -> u8
    requires { step < 16 }
    ensures is { result ≡ is_behind 16 last step }
    ensures low { result < 16 }
{
    (last % 16 + 1 + step) % 16
}

/// The first slot of a mask behind this one.
pub(crate) fn slot_after(mask: u32, last: u8) -> Option<u8>
    ensures value { result ≡ slot_after_of mask last }
    ensures low { IfSome result (λ slot. slot < 32) }
    ensures there { IfSome result (λ slot. has_bit_of mask slot ≡ true) }
{
    if mask == 0 {
        return None;
    }
    for step in 0..32_u8 {
        let slot = slot_at(last, step);
        if has_bit(mask, u32::from(slot)) {
            return Some(slot);
        }
    }
    None
}

/// The first device of a mask behind this one.
pub(crate) fn device_after(mask: u32, last: u8) -> Option<u8>
    ensures value { result ≡ device_after_of mask last }
    ensures low { IfSome result (λ dev. dev < 16) }
    ensures there { IfSome result (λ dev. has_bit_of mask dev ≡ true) }
{
    if mask == 0 {
        return None;
    }
    for step in 0..16_u8 {
        let dev = device_at(last, step);
        if has_bit(mask, u32::from(dev)) {
            return Some(dev);
        }
    }
    None
}
