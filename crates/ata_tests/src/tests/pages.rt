//! The pages that a disk gives of itself, in numbers of the standard (ACS-3, 7.12.7, 7.46 and 9).

ghost use Rattle.std.specs.Prelude.{◌<◌};

use ata_command::{Multiple, Settings, TransferMode};
use disk_pages::{
    Capacity, FirmwareRevision, LogPage, ModelNumber, NcqError, NumberFault, PhysicalSector,
    Profile, QueueDepth, Rotation, Rpm, SerialNumber, TextFault, claims_are_decoded,
    claims_are_whole, identify, identity_is_read, reads_log, smart_page,
};
use std::process::Abort;
use std::test::Fail;

/// A row: a word, and its value.
#[derive(Clone, Copy)]
struct Row {
    word: usize,
    value: u16,
}

fn word(word: usize, value: u16) -> Row {
    Row { word, value }
}

/// An ATA device; the serial number, "AB34CD", and blanks; the model; blocks of 16; the sectors below 2^28; the modes; NCQ with 31
/// commands; the features, and which are on; the sectors; TRIM; the world wide name; 7,200 turns a minute.
fn words() -> [Row; 26] {
    [
        word(0, 0x0040),
        word(10, 0x4142),
        word(12, 0x4344),
        word(13, 0x2020),
        word(23, 0x312E),
        word(27, 0x4745),
        word(47, 0x8010),
        word(59, 0x0108),
        word(60, 0xFFFF),
        word(61, 0x0FFF),
        word(63, 0x0007),
        word(75, 30),
        word(78, 0x0004),
        word(79, 0x0004),
        word(82, 0x0061),
        word(83, 0x7400),
        word(84, 0x4160),
        word(85, 0x0061),
        word(88, 0x207F),
        word(100, 0x6789),
        word(101, 0x2345),
        word(102, 0x0001),
        word(106, 0x6003),
        word(108, 0x5000),
        word(169, 0x0001),
        word(217, 7_200),
    ]
}

/// A word of a page.
fn word_of(page: &[u8; 512], word: usize) -> u16
    requires { word < 256 }
{
    page[2 * word] as u16 + 256 * page[2 * word + 1] as u16
}

fn settings() -> Settings {
    Settings {
        auto_activate: true,
        multiple: Multiple::Eight,
        mode: TransferMode::Ultra5,
        ..Settings::power_on()
    }
}

/// The IDENTIFY DEVICE data of a disk are those of the standard.
fn assert_words(rt: &impl Abort, profile: &Profile) {
    let mut page = [0xFF; 512];
    identify(profile, &settings(), &mut page);
    identity_is_read(profile, &settings());
    claims_are_whole();
    claims_are_decoded(profile, settings());
    assert_eq!(rt; profile.facts().sectors(), 0x1_2345_6789);
    for row in &words() {
        if row.word < 256 {
            assert_eq!(rt; word_of(&page, row.word), row.value, "word {}", row.word);
        }
    }
    assert_eq!(rt; page[510], 0xA5);
}

/// The logs of a disk are those of the standard.
fn assert_logs(rt: &impl Abort, profile: &Profile) -> Result<(), Fail> {
    let error = NcqError {
        tag: 5,
        error: 0x40,
        lba: 0x0102_0304_0506,
        count: 0x0708,
    };
    let mut page = [0xFF; 512];
    let log = LogPage::named(0x10, 0).ok_or("a page")?;
    log.write(profile, &settings(), Some(error), &mut page);
    let wanted = [5, 0, 0x41, 0x40, 6, 5, 4, 0x40, 3, 2, 1, 0, 8, 7, 0];
    assert!(rt; page.starts_with(&wanted));
    log.write(profile, &settings(), None, &mut page);
    assert_eq!(rt; (page[0], page[511]), (0x80, 0x80));
    LogPage::Directory.write(profile, &settings(), None, &mut page);
    assert_eq!(rt; (page[0], page[0x20], page[0x60]), (1, 1, 2));
    assert!(rt; LogPage::named(0x30, 2).is_none());
    assert!(rt; reads_log(0x30, 0, 2) && !reads_log(0x30, 1, 2));
    Ok(())
}

#[test]
fn pages_are_of_the_standard(rt: HostRuntime) -> Result<(), Fail> {
    let profile = Profile {
        model: ModelNumber::new("GEFSUNK DISK")?,
        serial: SerialNumber::new("AB34CD")?,
        firmware: FirmwareRevision::new("1.0")?,
        wwn: Some(0x5000_C500_1234_5678),
        capacity: Capacity::new(0x1_2345_6789)?,
        depth: QueueDepth::new(31)?,
        rotation: Rotation::Rotates(Rpm::new(7_200)?),
        physical: PhysicalSector::Bytes4096,
        trim: true,
    };
    assert_words(&rt, &profile);
    assert_logs(&rt, &profile)
}

#[test]
fn smart_is_of_the_standard(rt: HostRuntime) {
    let mut page = [0xFF; 512];
    smart_page(&mut page);
    assert_eq!(rt; (page[0], page[1], page[511]), (0x10, 0, 0xF0));
}

#[test]
fn a_profile_has_bounds(rt: HostRuntime) {
    assert!(rt;
        matches!(
            SerialNumber::new("123456789012345678901"),
            Err(TextFault::TooLong)
        )
    );
    assert!(rt; matches!(ModelNumber::new("a\tb"), Err(TextFault::NotPrintable)));
    assert!(rt; FirmwareRevision::new("12345678").is_ok());
    assert_eq!(rt; Capacity::new(0), Err(NumberFault::Sectors));
    assert_eq!(rt; QueueDepth::new(33), Err(NumberFault::Depth));
    assert_eq!(rt; Rpm::new(1_024), Err(NumberFault::Speed));
}
