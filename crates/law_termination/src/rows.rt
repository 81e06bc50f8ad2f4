// Worked rows in which what is kept holds, so that no law speaks of nothing.
ghost use Rattle.std.specs.Prelude.{◌≡◌, ◌≤◌, ◌∷◌, [], map, true, Some};
ghost use Rattle.std.specs.Option.{IsSomeAnd};
ghost use Rattle.nuc_base.specs.declared.kinds.Step.TheVariants as step;
ghost use Rattle.lifecycle.specs.declared.kinds.After.TheVariants as after;
ghost use Rattle.components.specs.Acts.{NextAct};
ghost use Rattle.components.specs.Answers.{has_answered};
ghost use Rattle.components.specs.declared.kinds.Act.TheVariants as acts;
ghost use Rattle.components.specs.declared.kinds.Prepared.{Prepared};
ghost use Rattle.components.specs.Turns.{IsQuiet, is_held_far};
ghost use Rattle.law_supervisor.specs.Sound.{HaveOwnNames};
ghost use Rattle.law_termination.specs.Circle.{name};
ghost use Rattle.law_termination.specs.Drives.{AreDriven, MayTakeOver};
ghost use Rattle.law_termination.specs.Kept.{IsFalling};
ghost use Rattle.law_termination.specs.Replaced.{both_up, handed, newer, one_stopped, replaced, taken};
ghost use Rattle.law_termination.specs.Small.{one_waits};
ghost use Rattle.law_termination.specs.Time.{HasTime};

/// One component waits for another, whose install lives and has a limit: all that the laws have as their premise holds, and
/// time can go on.
pub fn one_waits_for_another()
    ensures kept { (m : Prepared) → IsSomeAnd m.limit_ms (λ l. 1 ≤ l) → AreDriven (one_waits m) }
    ensures falling { (m : Prepared) → IsFalling (one_waits m) }
    ensures answered { (m : Prepared) → has_answered (one_waits m) ≡ true }
    ensures quiet { (m : Prepared) → IsQuiet (one_waits m) }
    ensures time { (m : Prepared) → HasTime (one_waits m) }
{}

/// One is replaced, and another that needs it is stopped before; then it takes its item and begins.
pub fn one_is_replaced()
    ensures stands { (m : Prepared) → AreDriven (both_up m) }
    ensures may { (m : Prepared) → MayTakeOver (newer m) (both_up m).parts }
    ensures names { (m : Prepared) → HaveOwnNames (replaced m).parts }
    ensures drives { (m : Prepared) → AreDriven (replaced m) }
    ensures falling { (m : Prepared) → IsFalling (replaced m) }
    ensures stops { (m : Prepared) → map (λ p. p.stop) (replaced m).parts ≡ Some after.Again ∷ Some after.Restart ∷ [] }
    ensures held { (m : Prepared) → is_held_far (name 97) (replaced m).parts ≡ true }
    ensures first { (m : Prepared) → NextAct (replaced m) (Some (acts.Kill 2)) (one_stopped m) }
    ensures then { (m : Prepared) → NextAct (one_stopped m) (Some (acts.Kill 1)) (taken m) }
    ensures versions { (m : Prepared) → map (λ p. p.fitted.item.version) (taken m).parts ≡ (50 ∷ []) ∷ (49 ∷ []) ∷ [] }
    ensures comes { (m : Prepared) → NextAct (taken m) (Some (acts.Start 0 step.Run)) (handed m) }
{}
