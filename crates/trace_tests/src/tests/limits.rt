//! The longest input, which is too long for the file of a case.

use std::alloc::{AllocError, Global};
use std::io::Eprint;
use std::process::Abort;
use std::rt::Files;
use std::sync::Wait;
use std::test::Fail;
use std::thread::Threads;
use trace::{LONGEST_INPUT, serve};

/// Checks that `decode` of this input writes this and ends in this way.
fn assert_decodes<R: Abort + AllocGlobal + Threads + Wait + Sync + Files + Eprint>(
    rt: &R,
    input: &[u8],
    status: u8,
    output: &str,
) {
    let mut written = Vec::new(rt.alloc());
    let ended = serve(rt, rt.alloc(), &["decode"], input, &mut written);
    assert!(rt; written.as_slice() == output.as_bytes());
    assert!(rt; ended == status, "{output}");
}

#[test]
fn the_longest_input(rt: HostRuntime) -> Result<(), Fail> {
    let input = longest_input(rt.alloc())?;
    assert!(rt; input.len() == LONGEST_INPUT);
    assert_decodes(&rt, &input, 0, "");
    Ok(())
}

#[test]
fn one_byte_past_the_limit(rt: HostRuntime) -> Result<(), Fail> {
    let mut input = longest_input(rt.alloc())?;
    input.push(b'\n')?;
    assert_decodes(&rt, &input, 1, "line 1025: size\n");
    Ok(())
}

/// 1,024 comments that fill the input to its limit.
fn longest_input(alloc: Global) -> Result<Vec<u8>, AllocError> {
    let mut line = vec![in alloc; b'#'; 16_383]?;
    line.push(b'\n')?;
    let mut input = Vec::new(alloc);
    for _ in 0..1024 {
        input.extend_from_slice(&line)?;
    }
    Ok(input)
}
