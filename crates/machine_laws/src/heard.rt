//! What a disk is, and what it heard.

ghost use Rattle.machine_laws.specs.Heard.{DisksHaveLived, HeardWereSent};

/// A law for callers; it runs no code. Over every run from a machine that opens: the disk that is at a port is the one that was put there
/// last, after its own calls since. Each FIS that it heard by them is one that the controller sent in this run, byte for byte but for the
/// PM Port, which is 0 there. Behind a multiplier it had the PM Port of that port.
pub fn disks_hear_what_was_sent()
    ensures lives { DisksHaveLived }
    ensures heard { HeardWereSent }
{
    fan_out::fans_pass_in_order();
    fan_out::a_renewed_fan_is_empty();
}
