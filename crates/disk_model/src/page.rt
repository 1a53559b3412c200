//! The pages of 512 bytes that READ LOG EXT and IDENTIFY DEVICE return (ACS-3).

ghost use Rattle.std.specs.Prelude.{◌≡◌, ◌≤◌, ◌<◌, ◌%◌, IfOk, OnOk, length, sum, vec_len};
ghost use Rattle.disk_model.specs.Pages.{bare_data, capabilities, checksum, digit, error_head, error_log, filled_to, linked_words, names, page_bytes};
ghost use Rattle.disk_model.specs.Pages.{queuing_words, serial_words, setups_byte, stock_data, stock_front, stock_names, timings, versions};
ghost use Rattle.disk_model.specs.declared.answer.Fault.TheVariants.{Failed};

use crate::answer::{Fault, Page};
use crate::plan::{DiskPlan, Profile};
use std::alloc::{AllocError, Global};

/// The byte that makes the sum of these bytes and itself 0 modulo 256.
fn checksum_of(bytes: &[u8]) -> u8
    requires { length bytes.now ≤ 65536 }
    ensures { result ≡ checksum bytes.now }
{
    let mut sum: u32 = 0;
    for byte in bytes {
        sum += *byte as u32;
    }
    ((256 - sum % 256) % 256) as u8
}

/// Appends zeros up to this length.
#[tactic(auto, unfolding(crate::specs::Pages::filled_to))]
fn fill(page: &mut Vec<u8>, len: usize) -> Result<(), AllocError>
    requires { vec_len page.old ≤ len }
    ensures items { OnOk result (page.new.items ≡ filled_to len page.old.items) }
    ensures len { OnOk result (vec_len page.new ≡ len) }
{
    page.resize(len, 0)
}

/// The NCQ Command Error log after a queued command failed: its bytes up to Count.
fn failure(tag: u8, error: u8, lba: u64) -> [u8; 14]
    ensures { result ≡ error_head (Some (Failed tag error lba)) }
{
    [
        // NQ and the tag, reserved, Status, Error
        tag,
        0,
        0x41,
        error,
        // LBA 23:0
        (lba % 0x100) as u8,
        (lba / 0x100 % 0x100) as u8,
        (lba / 0x1_0000 % 0x100) as u8,
        // Device
        0x40,
        // LBA 47:24
        (lba / 0x100_0000 % 0x100) as u8,
        (lba / 0x1_0000_0000 % 0x100) as u8,
        (lba / 0x100_0000_0000 % 0x100) as u8,
        // reserved, Count
        0,
        0,
        0,
    ]
}

/// The NCQ Command Error log (ACS-3).
#[tactic(auto, unfolding(crate::specs::Pages::error_log))]
fn error_log_page(alloc: Global, fault: Option<Fault>) -> Result<Vec<u8>, AllocError>
    ensures items { IfOk result (λ page. page.items ≡ error_log fault) }
    ensures len { IfOk result (λ page. vec_len page ≡ 512) }
{
    let mut page = Vec::with_capacity(alloc, 512)?;
    match fault {
        Some(Fault::Failed(tag, error, lba)) => {
            page.extend_from_slice(&failure(tag, error, lba))?;
        }
        // NQ alone: no queued command failed
        Some(Fault::Held | Fault::Mixed) | None => page.extend_from_slice(&[0x80])?,
    }
    fill(&mut page, 511)?;
    let last = checksum_of(&page);
    page.push(last)?;
    Ok(page)
}

/// The low bytes of words 78 and 79 of the IDENTIFY DEVICE data: DMA Setups with an offset other than 0 in
/// bit 1, auto-activate in bit 2.
fn setups(auto: bool) -> u8
    ensures { result ≡ setups_byte auto }
{
    if auto { 6 } else { 2 }
}

/// Words 75 to 79 of the bare profile, little endian. Word 75 is the queue depth less one, for a queue of 32
/// commands. Bit 8 of word 76 says that native command queuing is supported. Word 77 is 0. Words 78 and 79 say
/// what is supported of DMA Setups, and what is enabled.
fn queuing(auto: bool) -> [u8; 10]
    ensures { result ≡ queuing_words auto }
{
    let setups = setups(auto);
    [0x1F, 0, 0, 1, 0, 0, setups, 0, setups, 0]
}

/// The IDENTIFY DEVICE data of the bare profile: words 75 to 79, and the number of sectors in words
/// 100 to 103.
#[tactic(auto, unfolding(crate::specs::Pages::bare_data))]
fn bare_page(alloc: Global, sectors: u32, auto: bool) -> Result<Vec<u8>, AllocError>
    ensures items { IfOk result (λ page. page.items ≡ bare_data sectors auto) }
    ensures len { IfOk result (λ page. vec_len page ≡ 512) }
{
    let mut page = Vec::with_capacity(alloc, 512)?;
    fill(&mut page, 2 * 75)?;
    page.extend_from_slice(&queuing(auto))?;
    fill(&mut page, 2 * 100)?;
    page.extend_from_slice(&(sectors as u64).to_le_bytes())?;
    fill(&mut page, 512)?;
    Ok(page)
}

/// The lowest four bits as a hexadecimal digit in ASCII.
fn hex_digit(n: u32) -> u8
    ensures { result ≡ digit (n % 16) }
{
    let n = (n % 16) as u8;
    if n < 10 { b'0' + n } else { b'A' - 10 + n }
}

/// Words 10 to 19: the serial number. The two characters of a word stand the second one first.
fn serial_number(serial: u32) -> [u8; 20]
    ensures { result ≡ serial_words serial }
{
    [
        b'E',
        b'G',
        b'S',
        b'F',
        b'N',
        b'U',
        b'-',
        b'K',
        b'0',
        b'0',
        b'0',
        b'0',
        hex_digit(serial / 0x100_0000),
        hex_digit(serial / 0x1000_0000),
        hex_digit(serial / 0x1_0000),
        hex_digit(serial / 0x10_0000),
        hex_digit(serial / 0x100),
        hex_digit(serial / 0x1000),
        hex_digit(serial),
        hex_digit(serial / 0x10),
    ]
}

/// Words 23 to 46: the firmware revision 1.0 and the model number GEFSUNK DISK.
fn names() -> [u8; 48]
    ensures { result ≡ names }
{
    *b".1 0    EGSFNU KIDKS                            "
}

/// Words 47 to 50: no READ MULTIPLE, no trusted computing; DMA, LBA and IORDY are supported.
fn capabilities() -> [u8; 8]
    ensures { result ≡ capabilities }
{
    [0, 0x80, 0, 0x40, 0, 0x0F, 0, 0x40]
}

/// Words 63 to 68: multiword DMA modes 0 to 2, PIO modes 3 and 4, and cycles of 120 ns.
fn timings() -> [u8; 12]
    ensures { result ≡ timings }
{
    [7, 0, 3, 0, 0x78, 0, 0x78, 0, 0x78, 0, 0x78, 0]
}

/// Words 75 to 79 of the stock profile: those of the bare one, and the speeds of the link.
fn linked(auto: bool) -> [u8; 10]
    ensures { result ≡ linked_words auto }
{
    let setups = setups(auto);
    [0x1F, 0, 0x0E, 1, 6, 0, setups, 0, setups, 0]
}

/// Words 80 to 88: the versions of the standard, the feature sets, and the modes of Ultra DMA.
fn versions() -> [u8; 18]
    ensures { result ≡ versions }
{
    [
        0xF0, 1, 0, 0, 1, 0, 0, 0x40, 0, 0x40, 1, 0, 0, 0, 0, 0x40, 0x7F, 0x40,
    ]
}

/// The stock profile up to word 50.
#[tactic(auto, unfolding(crate::specs::Pages::stock_names))]
fn stock_names_page(alloc: Global, serial: u32) -> Result<Vec<u8>, AllocError>
    ensures items { IfOk result (λ page. page.items ≡ stock_names serial) }
    ensures len { IfOk result (λ page. vec_len page ≡ 102) }
{
    let mut page = Vec::with_capacity(alloc, 512)?;
    // word 0: an ATA disk
    page.extend_from_slice(&[0x40, 0])?;
    fill(&mut page, 2 * 10)?;
    page.extend_from_slice(&serial_number(serial))?;
    fill(&mut page, 2 * 23)?;
    page.extend_from_slice(&names())?;
    page.extend_from_slice(&capabilities())?;
    Ok(page)
}

/// The stock profile up to word 99.
#[tactic(auto, unfolding(crate::specs::Pages::stock_front))]
fn stock_front_page(
    alloc: Global,
    serial: u32,
    sectors: u32,
    auto: bool,
) -> Result<Vec<u8>, AllocError>
    ensures items { IfOk result (λ page. page.items ≡ stock_front serial sectors auto) }
    ensures len { IfOk result (λ page. vec_len page ≡ 200) }
{
    let mut page = stock_names_page(alloc, serial)?;
    fill(&mut page, 2 * 53)?;
    // word 53: words 64 to 70 and 88 are valid
    page.extend_from_slice(&[6, 0])?;
    fill(&mut page, 2 * 60)?;
    page.extend_from_slice(&sectors.to_le_bytes())?;
    fill(&mut page, 2 * 63)?;
    page.extend_from_slice(&timings())?;
    fill(&mut page, 2 * 75)?;
    page.extend_from_slice(&linked(auto))?;
    page.extend_from_slice(&versions())?;
    fill(&mut page, 2 * 100)?;
    Ok(page)
}

/// The IDENTIFY DEVICE data of the stock profile.
#[tactic(auto, unfolding(crate::specs::Pages::stock_data, crate::specs::Pages::stock_summed))]
fn stock_page(alloc: Global, serial: u32, sectors: u32, auto: bool) -> Result<Vec<u8>, AllocError>
    ensures items { IfOk result (λ page. page.items ≡ stock_data serial sectors auto) }
    ensures len { IfOk result (λ page. vec_len page ≡ 512) }
{
    let mut page = stock_front_page(alloc, serial, sectors, auto)?;
    page.extend_from_slice(&(sectors as u64).to_le_bytes())?;
    fill(&mut page, 2 * 106)?;
    // word 106: logical sectors of 512 bytes
    page.extend_from_slice(&[0, 0x40])?;
    fill(&mut page, 2 * 217)?;
    // word 217: nothing rotates
    page.extend_from_slice(&[1, 0])?;
    fill(&mut page, 2 * 222)?;
    // word 222: Serial ATA
    page.extend_from_slice(&[0x7F, 0x10])?;
    fill(&mut page, 2 * 255)?;
    // word 255: a checksum follows
    page.push(0xA5)?;
    let last = checksum_of(&page);
    page.push(last)?;
    Ok(page)
}

impl Page {
    /// The bytes of the page of a disk with this many sectors and this plan.
    pub fn bytes(self, alloc: Global, sectors: u32, plan: &DiskPlan) -> Result<Vec<u8>, AllocError>
        ensures items { IfOk result (λ page. page.items ≡ page_bytes sectors plan.now self) }
        ensures len { IfOk result (λ page. vec_len page ≡ 512) }
    {
        match self {
            Page::ErrorLog(fault) => error_log_page(alloc, fault),
            Page::Identity => match plan.profile {
                Profile::Bare => bare_page(alloc, sectors, plan.auto),
                Profile::Stock(serial) => stock_page(alloc, serial, sectors, plan.auto),
            },
        }
    }
}
