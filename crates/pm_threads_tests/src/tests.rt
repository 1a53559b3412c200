//! What no clause says: which refusals come, that runs end, and that bytes come back.

mod devices;
mod runs;
mod setups;
mod unfinished;

use pm_threads::{Links, LinksError};
use std::alloc::Global;
use std::test::Fail;

/// Why no links are made.
fn refusal(alloc: Global, ports: u8, capacity: usize) -> Option<LinksError> {
    Links::new(alloc, ports, capacity).err()
}

#[test]
fn refusals(rt: HostRuntime) -> Result<(), Fail> {
    let alloc = rt.alloc();
    let bad = Some(LinksError::BadConfig);
    for (ports, capacity, want) in [
        (0, 4, bad),
        (1, 1, None),
        (15, 64, None),
        (16, 4, bad),
        (2, 0, bad),
        (2, 65, bad),
    ] {
        assert_eq!(rt;
            refusal(alloc, ports, capacity),
            want,
            "at {ports}, {capacity}"
        );
    }
    let text = format!(in alloc; "{}, {}", LinksError::BadConfig, LinksError::OutOfMemory)?;
    assert_eq!(rt; text.as_str(), "bad config, out of memory");
    assert_eq!(rt;
        (LinksError::BadConfig as u8, LinksError::OutOfMemory as u8),
        (1, 2)
    );
    Ok(())
}
