//! Links: values from outside, and that calls succeed.

ghost use Rattle.std.specs.Prelude.{◌≡◌};

use ruled_links::{Full, Link, LinkError, Rx, Tx, meet};
use std::alloc::Global;
use std::sync::Wait;
use std::test::Fail;

/// The item that came back, if it did.
fn sent(rt: &impl Wait, tx: &mut Tx<'_, u32>, item: u32) -> Option<u32>
    ensures { tx.new.link ≡ tx.old.link }
{
    match tx.send(rt, item) {
        Ok(()) => None,
        Err(Full(item)) => Some(item),
    }
}

/// The results of three takes.
fn three(rt: &impl Wait, rx: &mut Rx<'_, u32>) -> [Option<u32>; 3]
    ensures { rx.new.link ≡ rx.old.link }
{
    [rx.take(rt), rx.take(rt), rx.take(rt)]
}

/// Why no link of this capacity can be made.
fn refusal(alloc: Global, capacity: usize) -> Option<LinkError> {
    Link::<u32>::new(alloc, capacity).err()
}

#[test]
fn a_link_of_two(rt: HostRuntime) -> Result<(), Fail> {
    let mut link = Link::new(rt.alloc(), 2)?;
    let (mut tx, mut rx) = link.seats().ok_or("no seats")?;
    assert_eq!(rt; sent(&rt, &mut tx, 7), None);
    assert_eq!(rt; sent(&rt, &mut tx, 5), None);
    assert_eq!(rt; sent(&rt, &mut tx, 9), Some(9));
    assert_eq!(rt; rx.take(&rt), Some(7));
    assert_eq!(rt; sent(&rt, &mut tx, 9), None);
    assert_eq!(rt; three(&rt, &mut rx), [Some(5), Some(9), None]);
    let (mut tx, mut rx) = meet(tx, rx);
    assert_eq!(rt; sent(&rt, &mut tx, 4), None);
    assert_eq!(rt; three(&rt, &mut rx), [Some(4), None, None]);
    drop(tx);
    drop(rx);
    assert!(rt; link.seats().is_none());
    Ok(())
}

#[test]
fn refusals(rt: HostRuntime) -> Result<(), Fail> {
    let alloc = rt.alloc();
    for (capacity, refused) in [(0, true), (1, false), (64, false), (65, true)] {
        let want = refused.then_some(LinkError::BadCapacity);
        assert_eq!(rt; refusal(alloc, capacity), want, "at {capacity}");
    }
    let text = format!(in alloc;
        "{}, {}, {}",
        LinkError::BadCapacity,
        LinkError::OutOfMemory,
        Full(1u32)
    )?;
    assert_eq!(rt; text.as_str(), "bad capacity, out of memory, full");
    assert_eq!(rt;
        (LinkError::BadCapacity as u8, LinkError::OutOfMemory as u8),
        (1, 2)
    );
    Ok(())
}
