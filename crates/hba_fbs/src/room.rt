//! What the PRD table of a command has room for.

/// How many bytes of a command its PRD table has places for. Whoever has the memory says so as Data comes for it.
#[derive(Clone, Copy, Debug, PartialEq, Eq)]
pub enum Room {
    /// The table cannot be used. Data for it is a host bus error, which stops the port.
    NoTable,
    /// For so many from the first on. Data that goes past them is an overflow of its device.
    Bytes(u32),
    /// For all of them.
    Whole,
}
