//! Memory that is asked for again where it is refused. So one refusal changes no test: `bench/refused-tests` refuses each request in
//! turn.

use fis_view::{Frame, H2dFields, Stamp, h2d, payload};
use std::alloc::Global;
use std::process::Abort;

/// Pushes a value.
pub fn push<T: Drop>(rt: &impl Abort, values: &mut Vec<T>, value: T) {
    if let Err(failed) = values.push(value) {
        values.push(failed.value).expect(rt, "memory");
    }
}

/// Pushes bytes.
pub fn append(rt: &impl Abort, bytes: &mut Vec<u8>, others: &[u8]) {
    if bytes.extend_from_slice(others).is_err() {
        bytes.extend_from_slice(others).expect(rt, "memory");
    }
}

/// A copy of bytes.
pub fn copied(rt: &impl Abort, alloc: Global, bytes: &[u8]) -> Vec<u8> {
    match bytes.to_vec(alloc) {
        Ok(copy) => copy,
        Err(_) => bytes.to_vec(alloc).expect(rt, "memory"),
    }
}

/// So many zeros.
pub fn zeros(rt: &impl Abort, alloc: Global, len: usize) -> Vec<u8> {
    let mut bytes = Vec::new(alloc);
    if bytes.resize(len, 0).is_err() {
        bytes.resize(len, 0).expect(rt, "memory");
    }
    bytes
}

/// A Register FIS of the host.
pub fn register(rt: &impl Abort, alloc: Global, fields: &H2dFields, stamp: Stamp) -> Frame {
    match h2d(alloc, fields, stamp) {
        Ok(frame) => frame,
        Err(_) => h2d(alloc, fields, stamp).expect(rt, "memory"),
    }
}

/// A Data FIS of the host.
pub fn data(rt: &impl Abort, alloc: Global, bytes: &[u8], stamp: Stamp) -> Frame {
    match payload(alloc, 0, bytes, stamp) {
        Ok(frame) => frame,
        Err(_) => payload(alloc, 0, bytes, stamp).expect(rt, "whole dwords"),
    }
}
