//! Status and Error, in hexadecimal and by the names of their bits.

use std::fmt;

/// A bit of a register by its name in ACS-3.
#[derive(Clone, Copy)]
struct Bit {
    mask: u8,
    name: &'static str,
}

/// The bits of Status (ACS-3, 6.2).
static STATUS: [Bit; 5] = [
    Bit {
        mask: 0x80,
        name: "BSY",
    },
    Bit {
        mask: 0x40,
        name: "DRDY",
    },
    Bit {
        mask: 0x20,
        name: "DF",
    },
    Bit {
        mask: 0x08,
        name: "DRQ",
    },
    Bit {
        mask: 0x01,
        name: "ERR",
    },
];

/// The bits of Error (ACS-3, 6.3).
static ERROR: [Bit; 4] = [
    Bit {
        mask: 0x80,
        name: "ICRC",
    },
    Bit {
        mask: 0x40,
        name: "UNC",
    },
    Bit {
        mask: 0x10,
        name: "IDNF",
    },
    Bit {
        mask: 0x04,
        name: "ABRT",
    },
];

/// Whether a Status tells of an error: it has ERR or DF.
fn is_error(status: u8) -> bool {
    status & 0x21 != 0
}

/// A Status in hexadecimal. One that tells of an error is spelled, too: `41 DRDY ERR`.
#[derive(Clone, Copy)]
pub struct StatusText(pub u8);

impl fmt::Display for StatusText {
    fn fmt<W: fmt::Write>(&self, f: &mut fmt::Formatter<W>) -> fmt::Result {
        let status = self.0;
        write!(f, "{status:02x}")?;
        if is_error(status) {
            write_bits(status, &STATUS, " ", f)?;
        }
        Ok(())
    }
}

/// An Error in hexadecimal, and by its bits if its Status tells of an error: `40 UNC`.
#[derive(Clone, Copy)]
pub struct ErrorText {
    pub status: u8,
    pub error: u8,
}

impl fmt::Display for ErrorText {
    fn fmt<W: fmt::Write>(&self, f: &mut fmt::Formatter<W>) -> fmt::Result {
        let ErrorText { status, error } = *self;
        write!(f, "{error:02x}")?;
        if is_error(status) {
            write_bits(error, &ERROR, " ", f)?;
        }
        Ok(())
    }
}

/// What an Error tells by its bits alone: `UNC`; or `error 01` if none of them has a name.
pub fn write_error<W: fmt::Write>(error: u8, f: &mut fmt::Formatter<W>) -> fmt::Result {
    if ERROR.iter().all(|bit| error & bit.mask == 0) {
        return write!(f, "error {error:02x}");
    }
    write_bits(error, &ERROR, "", f)
}

/// Writes the names of the bits that are set, the first behind this.
fn write_bits<W: fmt::Write>(
    byte: u8,
    bits: &[Bit],
    first: &str,
    f: &mut fmt::Formatter<W>,
) -> fmt::Result {
    let mut between = first;
    for bit in bits {
        if byte & bit.mask != 0 {
            write!(f, "{between}{}", bit.name)?;
            between = " ";
        }
    }
    Ok(())
}
