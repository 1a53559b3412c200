//! Reads a list of frames or a scenario from standard input and writes what they mean.
//!
//! `pm_trace decode` prints each frame in words, `pm_trace run` plays a scenario on a world of
//! devices, a port multiplier and a host, `pm_trace threads` runs each of these in a thread of its
//! own, and `pm_trace guest` plays the accesses of a driver to an AHCI controller. The input may also
//! be a file that the command line names. Standard error says why an input or a command line is
//! refused. The exit status says how a run ended.
#![tactic(auto)]

use std::alloc::Global;
use std::process::ExitCode;
use std::rt::Env;
use std::{env, io};
use trace::{Failure, refuse, serve};

fn main(rt: HostRuntime) -> ExitCode {
    let status = match words(&rt) {
        Ok(words) => serve(&rt, rt.alloc(), &words, rt.reader(), io::writer(&rt)),
        Err(failure) => refuse(rt.alloc(), failure, io::writer(&rt)),
    };
    ExitCode::from(status)
}

/// The words of the command line after the program's name. A word that is not text is refused like
/// any other unknown word.
fn words<R: Env + AllocGlobal>(rt: &R) -> Result<Vec<String>, Failure> {
    match env::args(rt) {
        Ok(words) => Ok(words.skip(1).collect(rt.alloc())?),
        Err(error) if error.kind() == io::ErrorKind::OutOfMemory => Err(Failure::OutOfMemory),
        Err(_) => Err(Failure::CommandLine),
    }
}
