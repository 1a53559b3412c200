//! A run in threads that prints one of several texts.

use std::str::from_utf8;
use std::test::Fail;
use trace::serve;

/// Whether a line of counts has no more FISes taken than sent.
fn is_kept(row: &[u8]) -> bool {
    let mut numbers = row
        .split(|byte| *byte == b' ')
        .filter_map(|word| from_utf8(word).ok()?.parse::<u64>().ok());
    matches!((numbers.nth(2), numbers.next()), (Some(sent), Some(taken)) if taken <= sent)
}

/// A line of what was written, counted from 0. It is empty if there are not so many.
fn line(written: &[u8], n: usize) -> &[u8] {
    written.split(|byte| *byte == b'\n').nth(n).unwrap_or(&[])
}

fn is_line(written: &[u8], n: usize, wanted: &str) -> bool {
    line(written, n) == wanted.as_bytes()
}

/// Whether a line is a row of counts that begins in this way.
fn is_row(written: &[u8], n: usize, wanted: &str) -> bool {
    let row = line(written, n);
    row.starts_with(wanted.as_bytes()) && is_kept(row)
}

/// Whether this was written first: the read of the disk that is pulled may have been done before.
fn is_begun(written: &[u8]) -> bool {
    let is_ended = is_line(written, 2, "request 2 done")
        || is_line(written, 2, "request 2 removed");
    is_line(written, 0, "ports 2 capacity 4 memory 2")
        && is_line(written, 1, "request 1 done")
        && is_ended
        && is_line(written, 3, "request 3 done")
}

/// Whether the bytes and the counts are what was asked to be seen.
fn is_shown(written: &[u8]) -> bool {
    is_line(written, 4, "104000 c0ffee00")
        && is_line(written, 5, "port 0 conn 1 sent 11 taken 11")
        && is_row(written, 6, "port 1 conn 1 sent 3 taken ")
        && is_row(written, 7, "port 1 conn 2 sent ")
}

#[test]
fn a_disk_is_pulled_in_threads(rt: HostRuntime) {
    let input = "ports 2 capacity 4 memory 2
put 102000 c0ffee
write 0 8 1 102000:512
read 1 8 1 103000:512
barrier
read 0 8 1 104000:512
pull 1 3
show 104000 4
counts";
    let mut written = Vec::new(rt.alloc());
    let ended = serve(
        &rt,
        rt.alloc(),
        &["threads"],
        input.as_bytes(),
        &mut written,
    );
    assert!(rt; ended == 0 && is_begun(&written) && is_shown(&written));
}
