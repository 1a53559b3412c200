//! IDENTIFY DEVICE data (ACS-3, 7.12.7), made anew for each command that asks for them.

ghost use Rattle.std.specs.Prelude.{◌≡◌, ◌≤◌, ◌<◌, length};
ghost use Rattle.ata_command.specs.Modes.{sectors_in};
ghost use Rattle.disk_pages.specs.Bytes.{byte_of};
ghost use Rattle.disk_pages.specs.Identity.{alignment_word, bits_if, enabled, feature_word, identity, identity_word, low_sectors, multiple_word};
ghost use Rattle.disk_pages.specs.Modes.{multiword_bits, ultra_bits};
ghost use Rattle.disk_pages.specs.Identity.{name_bit, name_word, physical_word, place_word, rotation_word, transfer_word, wwn_number};

use crate::bytes::close;
use crate::profile::{PhysicalSector, Profile, Rotation, trim_blocks};
use ata_command::{Multiple, Settings, TransferMode};

fn bits_if(b: bool, bits: u16) -> u16
    ensures { result ≡ bits_if b bits }
{
    if b { bits } else { 0 }
}

/// Words 0 to 46.
#[tactic(auto, unfolding(crate::specs::Identity::name_word))]
fn name_word(profile: &Profile, n: usize) -> u16
    ensures { result ≡ name_word profile.now n }
{
    match n {
        0 => 0x0040,
        10..=19 => profile.serial.word(n - 10),
        23..=26 => profile.firmware.word(n - 23),
        27..=46 => profile.model.word(n - 27),
        _ => 0,
    }
}

fn multiple_word(multiple: Multiple) -> u16
    ensures { result ≡ multiple_word (sectors_in multiple) }
{
    match multiple.sectors() {
        0 => 0,
        count => 0x0100 + count as u16,
    }
}

/// Bits 10:8 of word 63: a bit for the selected mode of multiword DMA.
fn multiword_bits(mode: TransferMode) -> u16
    ensures { result ≡ multiword_bits mode }
{
    match mode {
        TransferMode::Multiword0 => 0x0100,
        TransferMode::Multiword1 => 0x0200,
        TransferMode::Multiword2 => 0x0400,
        _ => 0,
    }
}

/// Bits 14:8 of word 88: a bit for the selected mode of Ultra DMA.
fn ultra_bits(mode: TransferMode) -> u16
    ensures { result ≡ ultra_bits mode }
{
    match mode {
        TransferMode::Ultra0 => 0x0100,
        TransferMode::Ultra1 => 0x0200,
        TransferMode::Ultra2 => 0x0400,
        TransferMode::Ultra3 => 0x0800,
        TransferMode::Ultra4 => 0x1000,
        TransferMode::Ultra5 => 0x2000,
        TransferMode::Ultra6 => 0x4000,
        _ => 0,
    }
}

/// The sectors that 28-bit commands reach.
fn low_sectors(profile: &Profile) -> u64
    ensures value { result ≡ low_sectors profile.now.capacity }
    ensures bound { result ≤ 0x0FFF_FFFF }
{
    profile.capacity.sectors().min(0x0FFF_FFFF)
}

/// Words 47 to 74.
#[tactic(auto, unfolding(crate::specs::Identity::transfer_word))]
fn transfer_word(profile: &Profile, settings: &Settings, n: usize) -> u16
    ensures { result ≡ transfer_word profile.now settings.now n }
{
    match n {
        47 => 0x8010,
        48 => 0x4000,
        49 => 0x0F00,
        50 => 0x4000,
        53 => 0x0006,
        59 => multiple_word(settings.multiple),
        60 => (low_sectors(profile) % 0x1_0000) as u16,
        61 => (low_sectors(profile) / 0x1_0000) as u16,
        63 => 0x0007 + multiword_bits(settings.mode),
        64 => 0x0003,
        65..=68 => 120,
        _ => 0,
    }
}

/// Bit 8 of words 84 and 87.
fn name_bit(wwn: Option<u64>) -> u16
    ensures value { result ≡ name_bit wwn }
    ensures bound { result ≤ 0x0100 }
{
    match wwn {
        None => 0,
        Some(_) => 0x0100,
    }
}

/// Word 85: what is enabled of look-ahead, write cache and SMART.
fn enabled(settings: &Settings) -> u16
    ensures { result ≡ enabled settings.now }
{
    bits_if(settings.look_ahead, 0x0040) + bits_if(settings.write_cache, 0x0020) + 1
}

/// Words 75 to 99.
#[tactic(auto, unfolding(crate::specs::Identity::feature_word))]
fn feature_word(profile: &Profile, settings: &Settings, n: usize) -> u16
    ensures { result ≡ feature_word profile.now settings.now n }
{
    match n {
        75 => profile.depth.commands() as u16 - 1,
        76 => 0x010E,
        77 => 0x0006,
        78 => 0x0004,
        79 => bits_if(settings.auto_activate, 0x0004),
        80 => 0x01F0,
        82 => 0x0061,
        83 => 0x7400,
        84 => 0x4060 + name_bit(profile.wwn),
        85 => enabled(settings),
        86 => 0x3400,
        87 => 0x4060 + name_bit(profile.wwn),
        88 => 0x007F + ultra_bits(settings.mode),
        _ => 0,
    }
}

fn physical_word(physical: PhysicalSector) -> u16
    ensures { result ≡ physical_word physical }
{
    match physical {
        PhysicalSector::Bytes512 => 0x4000,
        PhysicalSector::Bytes4096 => 0x6003,
    }
}

fn alignment_word(physical: PhysicalSector) -> u16
    ensures { result ≡ alignment_word physical }
{
    match physical {
        PhysicalSector::Bytes512 => 0,
        PhysicalSector::Bytes4096 => 0x4000,
    }
}

fn rotation_word(rotation: Rotation) -> u16
    ensures { result ≡ rotation_word rotation }
{
    match rotation {
        Rotation::Unknown => 0,
        Rotation::Solid => 1,
        Rotation::Rotates(rpm) => rpm.turns(),
    }
}

/// The world wide name as a number, 0 if there is none.
pub(crate) fn name_number(profile: &Profile) -> u64
    ensures value { result ≡ wwn_number profile.now.wwn }
    ensures bound { result < 0x1_0000_0000_0000_0000 }
{
    profile.wwn.unwrap_or(0)
}

/// Words 100 to 254.
#[tactic(auto, unfolding(crate::specs::Identity::place_word))]
fn place_word(profile: &Profile, n: usize) -> u16
    ensures { result ≡ place_word profile.now n }
{
    let sectors = profile.capacity.sectors();
    let wwn = name_number(profile);
    match n {
        100 => (sectors % 0x1_0000) as u16,
        101 => (sectors / 0x1_0000 % 0x1_0000) as u16,
        102 => (sectors / 0x1_0000_0000 % 0x1_0000) as u16,
        105 => trim_blocks(profile.trim),
        106 => physical_word(profile.physical),
        108 => (wwn / 0x1_0000_0000_0000) as u16,
        109 => (wwn / 0x1_0000_0000 % 0x1_0000) as u16,
        110 => (wwn / 0x1_0000 % 0x1_0000) as u16,
        111 => (wwn % 0x1_0000) as u16,
        169 => bits_if(profile.trim, 1),
        209 => alignment_word(profile.physical),
        217 => rotation_word(profile.rotation),
        222 => 0x107F,
        _ => 0,
    }
}

/// Words 0 to 254.
#[tactic(auto, unfolding(crate::specs::Identity::identity_word))]
fn identity_word(profile: &Profile, settings: &Settings, n: usize) -> u16
    ensures { result ≡ identity_word profile.now settings.now n }
{
    if n < 47 {
        name_word(profile, n)
    } else if n < 75 {
        transfer_word(profile, settings, n)
    } else if n < 100 {
        feature_word(profile, settings, n)
    } else {
        place_word(profile, n)
    }
}

/// Byte `k` of the page, up to 509.
fn identity_byte(profile: &Profile, settings: &Settings, k: usize) -> u8
    ensures { result ≡ byte_of (identity_word profile.now settings.now) k }
{
    let word = identity_word(profile, settings, k / 2);
    if k % 2 == 0 {
        (word % 256) as u8
    } else {
        (word / 256) as u8
    }
}

/// Writes the IDENTIFY DEVICE data into a page of 512 bytes.
pub fn identify(profile: &Profile, settings: &Settings, page: &mut [u8])
    requires { length page.old ≡ 512 }
    ensures { page.new ≡ identity profile.now settings.now }
{
    for k in 0..510usize {
        page[k] = identity_byte(profile, settings, k);
    }
    page[510] = 0xA5;
    close(page);
}
