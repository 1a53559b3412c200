//! Laws of the registers, over any calls.

ghost use Rattle.std.specs.Prelude.{Bool, List, true, ◌↔◌, ◌≡◌, ◌≤◌, ℕ};
ghost use Rattle.pm_registers.specs.Calls.{Call, ClearedByOnes, KeepsSound, NotifiedSince, SummaryAgrees, after};
ghost use Rattle.pm_registers.specs.RegisterMap.{RegisterMap, opening, opening_with_port_0};

/// Laws for callers, over any list of calls; they run no code. GSCR\[32\] agrees with PSCR\[1\] and
/// GSCR\[33\]. A notification is due exactly where some call since the last one made it due. A bit of
/// PSCR\[1\] is cleared only by writing a one to it. For every sound map: a call leaves it sound, and a
/// device is present at a port exactly from its coming to its going. The first three hold as well of
/// registers that start with port 0 open.
pub fn registers_follow_calls()
    ensures summary { (ports : ℕ) (calls : List Call) → ports ≤ 15
        → SummaryAgrees (after (opening ports) calls) }
    ensures due { (ports : ℕ) (calls : List Call) →
        ((after (opening ports) calls).due ≡ true) ↔ NotifiedSince (opening ports) calls }
    ensures cleared { (ports : ℕ) (calls : List Call) → ports ≤ 15
        → ClearedByOnes (after (opening ports) calls) }
    ensures summary_open { (ports : ℕ) (present : Bool) (calls : List Call) → ports ≤ 15
        → SummaryAgrees (after (opening_with_port_0 ports present) calls) }
    ensures due_open { (ports : ℕ) (present : Bool) (calls : List Call) →
        ((after (opening_with_port_0 ports present) calls).due ≡ true)
        ↔ NotifiedSince (opening_with_port_0 ports present) calls }
    ensures cleared_open { (ports : ℕ) (present : Bool) (calls : List Call) → ports ≤ 15
        → ClearedByOnes (after (opening_with_port_0 ports present) calls) }
    ensures sound { (m : RegisterMap) (call : Call) → KeepsSound m call }
{}
