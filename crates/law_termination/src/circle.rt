// A worked row over three sets of items: components that would come to wait for one another, did a stop with Again or Gone
// wait for direct dependents alone.
ghost use Rattle.std.specs.Prelude.{◌≡◌, true};
ghost use Rattle.nuc_base.specs.declared.kinds.Step.TheVariants as step;
ghost use Rattle.components.specs.Answers.{has_answered};
ghost use Rattle.components.specs.Components.{At};
ghost use Rattle.components.specs.declared.kinds.Prepared.{Prepared};
ghost use Rattle.components.specs.Turns.{IsQuiet, is_held_far, may_stop};
ghost use Rattle.law_termination.specs.Deeds.{ArePossibleDeeds, KillDeed, IsPossibleDeed};
ghost use Rattle.law_termination.specs.Drives.{MayCome};
ghost use Rattle.law_termination.specs.Circle.{b_ends, b_stopped, changed, come_up, earlier, first_fails, later_items, name, none_yet, one_down};
ghost use Rattle.law_termination.specs.Circle.{others_come, second_fails, two_down, up, y_ends, y_stopped};

/// What would be taken too early waits for one that reaches it through another: v is not stopped with b, while x, which
/// reaches it, still waits for y. Behind y, x may be stopped.
pub fn waits_for_the_far_one()
    ensures earlier { (m : Prepared) → MayCome (earlier m) }
    ensures later { (m : Prepared) → MayCome (later_items m) }
    ensures comes_up { (m : Prepared) → ArePossibleDeeds none_yet (come_up m) }
    ensures first_fails { (m : Prepared) → ArePossibleDeeds (up m) first_fails }
    ensures second_fails { (m : Prepared) → ArePossibleDeeds (one_down m) second_fails }
    ensures others_come { (m : Prepared) → ArePossibleDeeds (two_down m) (others_come m) }
    ensures b_ends { (m : Prepared) → ArePossibleDeeds (changed m) b_ends }
    ensures held { (m : Prepared) → is_held_far (name 118) (b_stopped m).parts ≡ true }
    ensures refused { (m : Prepared) → IsPossibleDeed (b_stopped m) (KillDeed 7 1 step.Run) → ⊥ }
    ensures quiet { (m : Prepared) → IsQuiet (b_stopped m) }
    ensures answered { (m : Prepared) → has_answered (b_stopped m) ≡ true }
    ensures y_ends { (m : Prepared) → ArePossibleDeeds (b_stopped m) y_ends }
    ensures goes_on { (m : Prepared) → At 2 (λ p. may_stop (y_stopped m) p ≡ true) (y_stopped m).parts }
{}
