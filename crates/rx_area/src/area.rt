//! The area, its rows and their places.

ghost use Rattle.std.specs.Prelude.{◌≡◌, ◌+◌, ◌≤◌, ◌<◌, List, ℕ, length};
ghost use Rattle.rx_area.specs.Area.{LeavesOthers, after_post, offset_of, place_of, posted_at, posted_bytes, row_after, row_of, size_of, start_of};

use fis_view::Fis;

/// Where a FIS was posted: the places of one row of the area (AHCI 1.3.1, section 4.2.1).
#[derive(Clone, Copy, Debug, PartialEq, Eq)]
pub enum Posted {
    /// DSFIS, at 00h of the row: a DMA Setup FIS.
    Setup,
    /// PSFIS, at 20h: a PIO Setup FIS.
    Pio,
    /// RFIS, at 40h: a Register Device to Host FIS.
    D2h,
    /// SDBFIS, at 58h: a Set Device Bits FIS.
    Bits,
    /// UFIS, at 60h: a FIS of an unknown type, of at most 64 bytes.
    Unknown,
    /// Nowhere: a FIS that has no place.
    Nothing,
}

impl Posted {
    // The offset of the place in its row.
    fn offset(self) -> usize
        ensures { result ≡ offset_of self }
    {
        match self {
            Posted::Setup => 0x00,
            Posted::Pio => 0x20,
            Posted::D2h => 0x40,
            Posted::Bits => 0x58,
            Posted::Unknown => 0x60,
            Posted::Nothing => 0,
        }
    }

    // Its size in bytes.
    fn size(self) -> usize
        ensures { result ≡ size_of self }
    {
        match self {
            Posted::Setup => 28,
            Posted::Pio | Posted::D2h => 20,
            Posted::Bits => 8,
            Posted::Unknown => 64,
            Posted::Nothing => 0,
        }
    }

    // Its offset in the area. The place lies in its row.
    fn start(self, dev: u8) -> usize
        requires { dev < 16 }
        ensures start { result ≡ start_of dev self }
        ensures inside { offset_of self + size_of self ≤ 256 }
    {
        usize::from(dev) * 256 + self.offset()
    }
}

// The place of a FIS, and the bytes that are copied there.
fn place_for<'f>(fis: &Fis<'f>) -> (Posted, &'f [u8])
    ensures place { result.0 ≡ posted_at fis.now }
    ensures bytes { result.1.now ≡ posted_bytes fis.now }
    ensures fits { length result.1.now ≤ size_of result.0 }
{
    match fis {
        Fis::DmaSetup(fis) => (Posted::Setup, fis.bytes()),
        Fis::PioSetup(fis) => (Posted::Pio, fis.bytes()),
        Fis::RegD2H(fis) => (Posted::D2h, fis.bytes()),
        Fis::SetBits(fis) => (Posted::Bits, fis.bytes()),
        Fis::Unknown(fis) if fis.bytes().len() <= 64 => (Posted::Unknown, fis.bytes()),
        _ => (Posted::Nothing, &[]),
    }
}

/// A FIS as it is posted: for whoever keeps the area in a memory of its own, and writes it there.
#[derive(Clone, Copy, Debug)]
pub struct Posting<'f> {
    /// Its place.
    pub posted: Posted,
    /// Where the bytes go, counted from the start of the area.
    pub at: u32,
    /// The bytes. They lie in the row of the device that sent the FIS; those of a FIS that has no place are none.
    pub bytes: &'f [u8],
}

/// What [`RxArea::post`] copies of a FIS of this device.
pub fn posting_of<'f>(dev: u8, fis: &Fis<'f>) -> Posting<'f>
    requires { dev < 16 }
    ensures posted { result.posted ≡ posted_at fis.now }
    ensures at { result.at ≡ start_of dev (posted_at fis.now) }
    ensures bytes { result.bytes.now ≡ posted_bytes fis.now }
    ensures fits { start_of dev (posted_at fis.now) + length (posted_bytes fis.now) ≤ 4096 }
    ensures own { (area : List ℕ) → length area ≡ 4096
        → row_of (after_post area dev fis.now) dev ≡ row_after (row_of area dev) fis.now }
    ensures others { (area : List ℕ) → length area ≡ 4096
        → LeavesOthers dev area (after_post area dev fis.now) }
{
    let (posted, bytes) = place_for(fis);
    Posting {
        posted,
        at: posted.start(dev) as u32,
        bytes,
    }
}

/// A received FIS area: 16 rows of 256 bytes, one for each PM Port (AHCI 1.3.1, 4.2.1 and 9.3). It borrows
/// the bytes.
#[derive(Debug, Drop)]
pub struct RxArea<'a> {
    bytes: &'a mut [u8],
    ghost sized: { length bytes.now ≡ 4096 },
}

impl<'a> RxArea<'a> {
    ghost use Rattle.rx_area.specs.Lent.{IsOver, StaysOver, bytes_of};

    /// The area over these bytes.
    pub fn over(bytes: &'a mut [u8]) -> RxArea<'a>
        requires { length bytes.old ≡ 4096 }
        ensures over { IsOver result bytes.entry }
        ensures bytes { bytes_of result ≡ bytes.old }
    {
        RxArea { bytes }
    }

    /// Posts a FIS: copies it to the start of its place in the row of the device that sent it, and changes no
    /// other byte. The new row is thus a function of the old row and the FIS. A FIS to a device, a DMA
    /// Activate, a Data FIS and a FIS of an unknown type of more than 64 bytes have no place.
    pub fn post(&mut self, dev: u8, fis: &Fis<'_>) -> Posted
        requires { dev < 16 }
        ensures over { StaysOver self.old self.new }
        ensures posted { result ≡ posted_at fis.now }
        ensures after { bytes_of self.new ≡ after_post (bytes_of self.old) dev fis.now }
        ensures own { row_of (bytes_of self.new) dev ≡ row_after (row_of (bytes_of self.old) dev) fis.now }
        ensures others { LeavesOthers dev (bytes_of self.old) (bytes_of self.new) }
    {
        let (posted, bytes) = place_for(fis);
        let start = posted.start(dev);
        self.bytes[start..start + bytes.len()].copy_from_slice(bytes);
        posted
    }

    // The bytes of a place.
    fn place(&self, dev: u8, place: Posted) -> &[u8]
        requires { dev < 16 }
        ensures { result.now ≡ place_of (bytes_of self.now) dev place }
    {
        let start = place.start(dev);
        &self.bytes[start..start + place.size()]
    }

    /// The 28 bytes of the DMA Setup FIS last posted in this row.
    pub fn setup(&self, dev: u8) -> &[u8]
        requires { dev < 16 }
        ensures { result.now ≡ place_of (bytes_of self.now) dev Posted.Setup }
    {
        self.place(dev, Posted::Setup)
    }

    /// The 20 bytes of the PIO Setup FIS last posted in this row.
    pub fn pio(&self, dev: u8) -> &[u8]
        requires { dev < 16 }
        ensures { result.now ≡ place_of (bytes_of self.now) dev Posted.Pio }
    {
        self.place(dev, Posted::Pio)
    }

    /// The 20 bytes of the Register Device to Host FIS last posted in this row.
    pub fn d2h(&self, dev: u8) -> &[u8]
        requires { dev < 16 }
        ensures { result.now ≡ place_of (bytes_of self.now) dev Posted.D2h }
    {
        self.place(dev, Posted::D2h)
    }

    /// The 8 bytes of the Set Device Bits FIS last posted in this row.
    pub fn bits(&self, dev: u8) -> &[u8]
        requires { dev < 16 }
        ensures { result.now ≡ place_of (bytes_of self.now) dev Posted.Bits }
    {
        self.place(dev, Posted::Bits)
    }

    /// The 64 bytes for FISes of unknown types in this row. A shorter FIS leaves the bytes after it
    /// unchanged.
    pub fn unknown(&self, dev: u8) -> &[u8]
        requires { dev < 16 }
        ensures { result.now ≡ place_of (bytes_of self.now) dev Posted.Unknown }
    {
        self.place(dev, Posted::Unknown)
    }
}
