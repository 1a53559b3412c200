//! A caller of `guest_fetch` that fetches a command out of memory in one block, and has the law of commands for it.
#![tactic(auto)]

ghost use Rattle.std.specs.Prelude.{◌≡◌, ◌+◌, ◌-◌, ◌<◌, ◌≤◌, ◌^◌, IfSome, length};
ghost use Rattle.guest_fetch.specs.Headers.{header_place};
ghost use Rattle.uses_guest_fetch.specs.Block.{IsPart, IsFetched};

use guest_fetch::{Fetch, Supplied, Want};
use std::alloc::Global;

/// The bytes that are wanted, if all of them lie in the block. It begins at address 0.
fn part(memory: &[u8], want: Want) -> Option<&[u8]>
    ensures { IfSome result (λ bytes. IsPart memory.now want bytes.now) }
{
    let len = memory.len() as u64;
    if want.at > len || want.len as u64 > len - want.at {
        return None;
    }
    let start = want.at as usize;
    Some(&memory[start..start + want.len])
}

/// Fetches the command of a slot out of memory that begins at address 0 and that nobody else writes to. The answer is that
/// of all that lies there, if each part lies in it and memory for entries is there. None says that a part does not.
pub fn fetch_from(alloc: Global, memory: &[u8], list: u64, slot: u8) -> Option<Supplied>
    requires slot { slot < 32 }
    requires list { list + 1024 ≤ 2 ^ 64 }
    ensures { IfSome result (λ answer. IsFetched memory.now (header_place list slot) answer) }
{
    guest_fetch::commands_are_of_their_parts();
    let mut fetch = Fetch::new(list, slot);
    for i in 0..65_537u32 {
        let bytes = part(memory, fetch.want())?;
        match fetch.supply(alloc, bytes) {
            Supplied::More(next) => fetch = next,
            answer => return Some(answer),
        }
    }
    Some(Supplied::More(fetch))
}
