//! Numbers as sets of bits.

ghost use Rattle.std.specs.Prelude.{◌≡◌};
ghost use Rattle.pm_registers.specs.Bits.{without};

/// The bits of `bits` that are not in `dropped`.
#[tactic(auto, using(crate::proofs::BitLemmas::cleared_bits))]
pub(crate) fn cleared(bits: u32, dropped: u32) -> u32
    ensures { result ≡ without bits dropped }
{
    bits & !dropped
}
