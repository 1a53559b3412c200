//! Laws for callers, which run no code: in which order frames pass, over any calls, and how long a place waits.

ghost use Rattle.std.specs.Prelude.{◌+◌, ◌≡◌, ◌≤◌, ℕ, Bool, List, is_some, length, true};
ghost use Rattle.fis_view.specs.Frames.{Stamped};
ghost use Rattle.pm_registers.specs.RegisterMap.{forwards};
ghost use Rattle.multiplier.specs.Arbiter.{IsPassedOver, IsServedInTurn, StaysReady, control_port};
ghost use Rattle.multiplier.specs.State.{IsSound, PmState, port_at};
ghost use Rattle.multiplier.specs.Passing.{Call, Does, DoesAll, PassInOrder, PassesOver, Past, Runs, ShowsRemovals, all_past};
ghost use Rattle.multiplier.specs.Stamping.{BeginsStamped, GoesUpStamped};

/// Over any calls of any sound multiplier. Frames pass in order: what was taken from a device went up,
/// waits, or was dropped by a removal, and so it is on the way down. Running numbers are consecutive. No
/// connection falls. No frame of a connection that is gone passes. A frame that is put back did not pass. A
/// frame that was given back when it was offered is not counted.
pub fn frames_pass_in_order()
    ensures { (past : Past) (old new : PmState) (calls : List Call) →
        IsSound old → DoesAll past old calls new → PassInOrder past old calls new }
{}

/// Over any calls of any sound multiplier that gave nothing yet. If what was taken from each device is in
/// order, what goes up is in stamped order.
pub fn goes_up_in_stamped_order()
    ensures goes_on { (taken : ℕ → List Stamped) (past : Past) (old : PmState)
        (calls : List Call) (new : PmState) → GoesUpStamped taken past old calls new }
    ensures begins { (past : Past) (pm : PmState) → BeginsStamped past pm }
{}

/// Over any calls of any sound multiplier. A frame of the control port shows for each port the highest
/// connection whose removal was recorded before the frame was made.
pub fn control_frames_show_removals()
    ensures { (past : Past) (old mid new : PmState) (calls : List Call) (call : Call) →
        IsSound old → DoesAll past old calls mid → Does mid call new → ShowsRemovals old calls call }
{}

/// Of any sound multiplier. A port that forwards has a connection.
pub fn ports_that_forward_have_connections()
    ensures { (pm : PmState) (n : ℕ) → IsSound pm → forwards pm.registers n ≡ true →
        is_some (port_at pm n).present ≡ true }
{}

/// Of the circle alone. A place that stays ready waits while at most 15 frames of other places are served.
pub fn waits_for_at_most_fifteen()
    ensures { (last place : ℕ) (turns : List (ℕ → Bool)) (served : List ℕ) →
        last ≤ control_port → place ≤ control_port → IsServedInTurn last turns served →
        StaysReady place turns → IsPassedOver place served → length served ≤ 15 }
{}

/// Over any calls of any sound multiplier. If a place is ready each time a frame goes up, and is not the
/// one served, at most 15 frames go up. Frames that are put back do not count.
pub fn is_passed_over_at_most_fifteen_times()
    ensures { (past : Past) (old new : PmState) (calls : List Call) (place : ℕ) →
        IsSound old → place ≤ control_port → Runs (PassesOver place) past old calls new →
        length (all_past past calls).up ≤ length past.up + 15 }
{}
