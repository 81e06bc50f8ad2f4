// Small worlds in which what is to be kept holds, so that no law speaks of nothing.
ghost use Rattle.std.specs.Prelude.{◌≡◌, false, Some, None, [], ◌∷◌, map, pos};
ghost use Rattle.nuc_base.specs.declared.kinds.Exit.TheVariants as exits;
ghost use Rattle.nuc_base.specs.declared.kinds.Step.TheVariants as step;
ghost use Rattle.lifecycle.specs.declared.kinds.After.TheVariants as after;
ghost use Rattle.components.specs.declared.kinds.Prepared.{Prepared};
ghost use Rattle.components.specs.Acts.{MovesInOrder, OwesAt};
ghost use Rattle.law_supervisor.specs.Keeps.{IsSupervised, HasNoneOwed, Owns, count_of};
ghost use Rattle.law_supervisor.specs.Sound.{IsOrderly};
ghost use Rattle.law_supervisor.specs.Rows.{fitted_a, device_a, comes, begins, begun_a, lives, failed, recorded, heard_a, stands, replaced};
ghost use Rattle.law_supervisor.specs.Rows.{with_shutdown, leaves, comes_back, rests, stops_again, takes};

/// A component comes, its install begins, its child lives and fails, and the failure is heard and recorded: it is kept
/// all the way, and the premises of each law are met.
pub fn one_fails_once()
    ensures comes { (m : Prepared) → IsSupervised device_a (comes m) }
    ensures moves { (m : Prepared) → MovesInOrder (comes m) (begins ∷ []) (begun_a m) }
    ensures begins { (m : Prepared) → IsSupervised device_a (begun_a m) }
    ensures lives { (m : Prepared) → IsSupervised device_a (lives m) }
    ensures owns { (m : Prepared) → Owns (lives m) 7 }
    ensures fails { (m : Prepared) → IsSupervised device_a (failed m) }
    ensures owes { (m : Prepared) → OwesAt (failed m) 0 step.Install (exits.Code (pos 1)) false }
    ensures heard { (m : Prepared) → IsSupervised recorded (heard_a m) }
    ensures empty { (m : Prepared) → HasNoneOwed (heard_a m) }
    ensures counted { count_of recorded (97 ∷ []) ≡ Some 1 }
{}

/// Version 1 comes for version 2, which failed twice: it is to be stopped, and then begins with the device's count.
pub fn one_is_replaced()
    ensures orderly { (m : Prepared) → IsOrderly (stands m) }
    ensures keeps { (m : Prepared) → IsSupervised device_a (replaced m) }
    ensures waits { (m : Prepared) → map (λ p. p.next) (replaced m).parts ≡ Some (fitted_a 49 m, 0) ∷ [] }
    ensures stops { (m : Prepared) → map (λ p. p.stop) (replaced m).parts ≡ Some after.Again ∷ [] }
{}

/// The same comes while version 2 is being stopped for good: that stop ends as one with `Restart`, which leaves version 2,
/// and the stop that is given after it takes version 1 with the device's count.
pub fn one_comes_back()
    ensures orderly { (m : Prepared) → IsOrderly (leaves m) }
    ensures keeps { (m : Prepared) → IsSupervised device_a (comes_back m) }
    ensures under_way { (m : Prepared) → map (λ p. p.life.stop) (comes_back m).parts ≡ Some after.Restart ∷ [] }
    ensures stops { (m : Prepared) → map (λ p. p.stop) (comes_back m).parts ≡ Some after.Again ∷ [] }
    ensures waits { (m : Prepared) → map (λ p. p.next) (comes_back m).parts ≡ Some (fitted_a 49 m, 0) ∷ [] }
    ensures rests { (m : Prepared) → map (λ p. p.fitted) (rests m).parts ≡ with_shutdown m ∷ [] }
    ensures still_waits { (m : Prepared) → map (λ p. p.next) (rests m).parts ≡ Some (fitted_a 49 m, 0) ∷ [] }
    ensures moves { (m : Prepared) → MovesInOrder (rests m) (stops_again ∷ []) (takes m) }
    ensures takes { (m : Prepared) → map (λ p. p.fitted) (takes m).parts ≡ fitted_a 49 m ∷ [] }
    ensures counts { (m : Prepared) → map (λ p. p.life.failures) (takes m).parts ≡ 0 ∷ [] }
    ensures kept { (m : Prepared) → IsSupervised device_a (takes m) }
{}
