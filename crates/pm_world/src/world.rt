ghost use Rattle.std.specs.Prelude.{◌≡◌, ◌↔◌, ℕ, false, List, [], ◌∷◌};
ghost use Rattle.std.specs.Prelude.{IfErr, IfOk, OnErr, OnOk, length, map, take, drop, slice_get};
ghost use Rattle.std.specs.Prelude.{option_copied, option_map};
ghost use Rattle.circular_buffer.specs.Buffer.{last_item};
ghost use Rattle.pm_world.specs.Laws.{AreLawful};
ghost use Rattle.pm_world.specs.Downward.{falling_to};
ghost use Rattle.pm_world.specs.Hops.{frames_on};
ghost use Rattle.pm_world.specs.Places.{new_world, new_world_in, is_config};
ghost use Rattle.pm_world.specs.Rules.{Rule, Run, Stops};
ghost use Rattle.pm_world.specs.Runs.{IsReached};
ghost use Rattle.pm_world.specs.Traffic.{transit};
ghost use Rattle.pm_world.specs.declared.step.Answer.{Answer};

use crate::device::PortDevice;
use crate::hop::Hop;
use crate::machine::Machine;
use crate::step::{Answer, Config, Step, StepError, WorldError};
use disk_model::Unit;
use fis_view::Frame;
use hba_driver::Mode;
use hba_fbs::HostPort;
use host_memory::HostMemory;
use multiplier::Multiplier;
use std::alloc::Global;
use std::marker::Model;

/// Devices, a port multiplier and a host, as steps from a new world have made them.
#[derive(Drop)]
pub struct World<D: PortDevice + Drop = Unit> {
    machine: Machine<D>,
}

impl<D: PortDevice + Drop> Model for World<D> {
    ghost use Rattle.pm_world.specs.Places.{Places};
    ghost use Rattle.pm_world.specs.Runs.{IsReached};

    ghost Value = { Places };

    ghost view = { λ w. w.machine };

    ghost invariant = { λ w. IsReached w.machine };
}

impl<D: PortDevice + Drop> World<D> {
    /// A world of these units, none of them plugged.
    pub fn new(alloc: Global, config: Config, units: Vec<D>) -> Result<Self, WorldError>
        ensures ok { IfOk result (λ world. world ≡ new_world config (map D.seen units.items)) }
        ensures nothing_stands { IfOk result (λ world. (n c : ℕ) → transit n c world ≡ []) }
        ensures nothing_falls { IfOk result (λ world. (n : ℕ) → falling_to n world ≡ []) }
        ensures bad_config { let fits = is_config config (length units.items) in
            (result ≡ Err WorldError.BadConfig) ↔ (fits ≡ false) }
    {
        World::with_mode(alloc, Mode::Switching, config, units)
    }

    /// A world of these units, none of them plugged, whose host tells devices apart in this way.
    pub fn with_mode(
        alloc: Global,
        mode: Mode,
        config: Config,
        units: Vec<D>,
    ) -> Result<Self, WorldError>
        ensures ok { IfOk result (λ world. world ≡ new_world_in mode config (map D.seen units.items)) }
        ensures nothing_stands { IfOk result (λ world. (n c : ℕ) → transit n c world ≡ []) }
        ensures nothing_falls { IfOk result (λ world. (n : ℕ) → falling_to n world ≡ []) }
        ensures bad_config { let fits = is_config config (length units.items) in
            (result ≡ Err WorldError.BadConfig) ↔ (fits ≡ false) }
    {
        let machine = Machine::new(alloc, mode, config, units)?;
        Ok(World { machine })
    }

    /// Every world came from a new one by a run of steps. So the laws about each such run hold for a
    /// world that is lent to a function, too. The function does nothing when it runs.
    pub fn keeps_rules(&self)
        ensures { IsReached self.now }
    {
        // Read, so that what its type says of it is known here.
        let _ = &self.machine;
    }

    /// One step of one actor. A refused step changes nothing.
    pub fn step(&mut self, alloc: Global, step: &Step) -> Result<Answer, StepError>
        ensures rule { Rule self.old step.now result self.new }
        ensures laws { let steps = step.now ∷ [] in
            IfOk result (λ answer. AreLawful self.old steps (answer ∷ []) self.new) }
        ensures refused { OnErr result (self.new ≡ self.old) }
    {
        self.machine.step(alloc, step)
    }

    /// Takes steps in order, until one is refused.
    pub fn run(&mut self, alloc: Global, steps: &[Step]) -> Result<Vec<Answer>, (usize, StepError)>
        ensures run { IfOk result (λ answers. Run self.old steps.now answers.items self.new) }
        ensures laws { IfOk result (λ all. AreLawful self.old steps.now all.items self.new) }
        ensures stops { IfErr result (λ e. (answers : List Answer)
            × Stops self.old steps.now e.0 e.1 answers self.new
            × AreLawful self.old (take e.0 steps.now) answers self.new) }
    {
        let mut answers = Vec::new(alloc);
        self.run_into(alloc, steps, &mut answers)?;
        Ok(answers)
    }

    /// Takes steps in order, until one is refused. Their answers are appended to the vector. Where a
    /// step is refused, the answers of the steps before it are, so the caller can go on from that
    /// step.
    pub fn run_into(
        &mut self,
        alloc: Global,
        steps: &[Step],
        answers: &mut Vec<Answer>,
    ) -> Result<(), (usize, StepError)>
        ensures kept { take (length answers.old.items) answers.new.items ≡ answers.old.items }
        ensures run { let told = drop (length answers.old.items) answers.new.items in
            OnOk result (Run self.old steps.now told self.new) }
        ensures laws { let told = drop (length answers.old.items) answers.new.items in
            OnOk result (AreLawful self.old steps.now told self.new) }
        ensures stops { let told = drop (length answers.old.items) answers.new.items in
            IfErr result (λ e. Stops self.old steps.now e.0 e.1 told self.new
            × AreLawful self.old (take e.0 steps.now) told self.new) }
    {
        self.machine.run_into(alloc, steps, answers)
    }

    /// The host's memory.
    pub fn memory(&self) -> &HostMemory
        ensures { result.now ≡ self.now.host.memory }
    {
        self.machine.memory()
    }

    /// The host port.
    pub fn host(&self) -> &HostPort
        ensures { result.now ≡ self.now.host.port }
    {
        self.machine.host()
    }

    /// The port multiplier.
    pub fn multiplier(&self) -> &Multiplier
        ensures { result.now ≡ self.now.multiplier }
    {
        self.machine.multiplier()
    }

    /// The frame that leaves a link next, if one is on it.
    pub fn oldest_on(&self, hop: Hop) -> Option<&Frame>
        ensures { option_copied result ≡ slice_get (frames_on hop self.now) 0 }
    {
        self.machine.oldest_on(hop)
    }

    /// The frame that entered a link last, if one is on it.
    pub fn newest_on(&self, hop: Hop) -> Option<&Frame>
        ensures { option_copied result ≡ last_item (frames_on hop self.now) }
    {
        self.machine.newest_on(hop)
    }

    /// The unit at port `n`, if there is such a port.
    pub fn unit(&self, n: u8) -> Option<&D>
        ensures { option_map D.seen (option_copied result) ≡ option_map (λ place. place.unit) (slice_get self.now.devices n) }
    {
        self.machine.unit(n)
    }
}
