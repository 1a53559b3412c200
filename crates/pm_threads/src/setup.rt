//! What a run is given.

ghost use Rattle.std.specs.Prelude.{◌≡◌, ◌==◌, ◌&&◌, true, map, nat_le, nat_lt, length, IfOk};
ghost use Rattle.std.specs.List.{list_all};
ghost use Rattle.host_memory.specs.Memory.{is_memory_size};
ghost use Rattle.pm_threads.specs.Setups.{are_numbers, is_fitting, lies_in, memory_of};

use host_memory::{HostMemory, MemoryError};
use host_thread::Planned;
use std::alloc::{AllocError, Global};

/// The most turns in a row in which nothing moves.
pub const MAX_TURNS: u64 = 16_777_216;

/// The address at which the client area of the memory begins.
const CLIENT_START: u64 = 0x10_0000;

/// What a run is given.
#[derive(Drop)]
pub struct Setup<D> {
    /// What stands at the ports, from port 0 on.
    pub units: Vec<D>,
    /// How many bytes of memory the host has.
    pub memory: u32,
    /// What is put into the client area before the run, each at its address.
    pub puts: Vec<(u32, Vec<u8>)>,
    /// The requests of the host, in order.
    pub plan: Vec<Planned>,
    /// Which device is pulled out, and plugged in again, after how many of its FISes.
    pub pulls: Vec<(u8, u32)>,
    /// The most turns in a row of a worker in which nothing moves.
    pub turns: u64,
}

/// Whether this many bytes from this address on lie in the client area of a memory.
fn lies_in_client(at: u32, count: usize, memory: u32) -> bool
    ensures { result ≡ lies_in memory at count }
{
    let at = u64::from(at);
    at >= CLIENT_START && at <= u64::from(memory) && count as u64 <= u64::from(memory) - at
}

/// Whether there may be this many ports, with a unit for each.
fn ports_fit(ports: usize, units: usize) -> bool
    ensures { result ≡ (nat_le 1 ports && nat_le ports 15 && (units == ports)) }
{
    ports >= 1 && ports <= 15 && units == ports
}

/// Whether a memory may have this many bytes.
fn memory_fits(memory: u32) -> bool
    ensures { result ≡ is_memory_size memory }
{
    memory >= 0x20_0000 && memory <= 0x100_0000 && memory % 2 == 0
}

/// Whether there may be this many ports, units, turns and bytes of memory.
fn numbers_fit(ports: usize, units: usize, turns: u64, memory: u32) -> bool
    ensures { result ≡ are_numbers ports units turns memory }
{
    ports_fit(ports, units) && turns >= 1 && turns <= MAX_TURNS && memory_fits(memory)
}

/// Whether all puts lie in the client area.
fn puts_fit(puts: &[(u32, Vec<u8>)], memory: u32) -> bool
    ensures { result ≡ list_all (λ put. lies_in memory put.0 (length put.1.items)) puts.now }
{
    puts.iter()
        .all(|put| lies_in_client(put.0, put.1.len(), memory))
}

/// Whether all requests are for ports that are there.
fn plan_fits(plan: &[Planned], ports: usize) -> bool
    ensures { result ≡ list_all (λ planned. nat_lt planned.dev ports) plan.now }
{
    plan.iter().all(|planned| usize::from(planned.dev) < ports)
}

/// Whether all pulls are for ports that are there.
fn pulls_fit(pulls: &[(u8, u32)], ports: usize) -> bool
    ensures { result ≡ list_all (λ pull. nat_lt pull.0 ports) pulls.now }
{
    pulls.iter().all(|pull| usize::from(pull.0) < ports)
}

impl<D> Setup<D> {
    /// Whether a run with this many ports can have this setup.
    pub(crate) fn fits(&self, ports: usize) -> bool
        ensures { result ≡ is_fitting ports self.now }
    {
        let numbers = numbers_fit(ports, self.units.len(), self.turns, self.memory);
        let puts = puts_fit(self.puts.as_slice(), self.memory);
        let plan = plan_fits(self.plan.as_slice(), ports);
        let pulls = pulls_fit(self.pulls.as_slice(), ports);
        numbers && puts && plan && pulls
    }
}

/// A memory of `len` bytes, with these put into its client area one after another.
#[tactic(auto, using(crate::proofs::Puts::filled_more))]
pub(crate) fn filled(
    alloc: Global,
    len: u32,
    puts: &[(u32, Vec<u8>)],
) -> Result<HostMemory, AllocError>
    requires size { is_memory_size len ≡ true }
    requires puts { list_all (λ put. lies_in len put.0 (length put.1.items)) puts.now ≡ true }
    ensures { IfOk result (λ memory.
        memory ≡ memory_of len (map (λ put. (put.0, put.1.items)) puts.now)) }
{
    let mut memory = match HostMemory::new(alloc, len) {
        Ok(memory) => memory,
        Err(MemoryError::OutOfMemory) => return Err(AllocError),
        Err(MemoryError::BadSize) => unreachable!(),
    };
    for put in puts {
        if memory.put_client(put.0, put.1.as_slice()).is_err() {
            unreachable!();
        }
    }
    Ok(memory)
}
