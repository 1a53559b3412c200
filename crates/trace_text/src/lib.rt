//! Lines of text: what they say, and what is written about them. It needs no world.
//!
//! [`read_input`] reads an input whole. [`Lines`] and [`Words`] take it apart; a line that is refused
//! is a [`Failure`], which names its word and what was wanted there, and [`Note`] says so. [`Printer`]
//! prints lines and compares them with those that were expected. [`decode`] prints each frame of an
//! input in words.
#![tactic(auto)]

mod blocks;
mod closed;
mod decoding;
mod error_log;
mod failure;
mod fault;
mod file;
mod fis_short;
mod flow;
mod hex_text;
mod input;
mod lines;
mod media;
mod note;
mod printer;
mod registers;
mod shape;
mod task_file;
mod transfer;
mod wanted;
mod words;

pub use blocks::play_aside;
pub use closed::Closed;
pub use decoding::{DecodeError, decode};
pub use error_log::ErrorLog;
pub use failure::{Failure, Refusal};
pub use fault::{Compared, Known, Moving, Side, device_fault, port_fault};
pub use file::DiskFile;
pub use fis_short::{FrameShort, bit_of, named_slots};
pub use flow::{Flow, slots_about};
pub use input::{LONGEST_INPUT, LONGEST_LINE, is_skipped, read_input, without_return};
pub use lines::Lines;
pub use media::{Filed, Media, WorldFile, read_filed};
pub use note::{Note, Shown};
pub use printer::{Expected, Mismatch, Printer};
pub use shape::Shape;
pub use task_file::{ErrorText, StatusText};
pub use transfer::{Extent, Transfer};
pub use wanted::{Keyword, Quantity, Wanted};
pub use words::{Words, value_within};
