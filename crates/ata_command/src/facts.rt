//! What of a disk never changes, and a command needs to know.

ghost use Rattle.std.specs.Prelude.{◌≡◌, ◌≤◌, ◌^◌, IfSome, IfNone, OnSome, false, nat_le};

use std::marker::Model;

/// What of a disk never changes.
#[derive(Debug, Drop)]
pub struct Facts {
    sectors: u64,
    depth: u8,
    trim_blocks: u16,
}

impl Model for Facts {
    ghost use Rattle.std.specs.Prelude.{◌≤◌, ◌^◌};
    ghost use Rattle.ata_command.specs.Asks.{DiskFacts};

    ghost Value = { DiskFacts };

    ghost view = { λ f. record { sectors = f.sectors; depth = f.depth; trim_blocks = f.trim_blocks } };

    ghost invariant = { λ f. f.sectors ≤ 2 ^ 48 };
}

impl Facts {
    /// A disk of so many sectors of 512 bytes, at most 2^48, that takes so many queued commands at a time: tags from
    /// `depth` on are refused. DATA SET MANAGEMENT may have `trim_blocks` blocks of ranges; 0 says that there is
    /// none. None where there are more sectors than that.
    pub fn new(sectors: u64, depth: u8, trim_blocks: u16) -> Option<Facts>
        ensures some { IfSome result (λ f. f ≡ record { sectors = sectors; depth = depth; trim_blocks = trim_blocks }) }
        ensures fits { OnSome result (sectors ≤ 2 ^ 48) }
        ensures none { IfNone result (nat_le sectors (2 ^ 48) ≡ false) }
    {
        if sectors <= 1 << 48 {
            Some(Facts {
                sectors,
                depth,
                trim_blocks,
            })
        } else {
            None
        }
    }

    /// Its sectors.
    pub fn sectors(&self) -> u64
        ensures value { result ≡ self.now.sectors }
        ensures most { result ≤ 2 ^ 48 }
    {
        self.sectors
    }

    /// How many queued commands it takes at a time.
    pub fn depth(&self) -> u8
        ensures { result ≡ self.now.depth }
    {
        self.depth
    }

    /// The most blocks of ranges of a DATA SET MANAGEMENT.
    pub fn trim_blocks(&self) -> u16
        ensures { result ≡ self.now.trim_blocks }
    {
        self.trim_blocks
    }
}
