// Laws of histories, on functions that do nothing.
ghost use Rattle.std.specs.Prelude.{◌≡◌, ◌++◌, ◌∷◌, [], ℕ, List, Some};
ghost use Rattle.nuc_base.specs.declared.kinds.Step.TheVariants as step;
ghost use Rattle.interpolation.specs.declared.scope.Scope.{Scope};
ghost use Rattle.interpolation.specs.Variables.{HasNoVariable};
ghost use Rattle.records.specs.Stored.{Item};
ghost use Rattle.records.specs.declared.record.Origin.{Origin};
ghost use Rattle.device.specs.Scopes.{IsScopeOf};
ghost use Rattle.components.specs.Made.{AreFitted, IsStepAt};
ghost use Rattle.histories.specs.Ready.{RunsOnly, plain_def, plain_step, running_item};
ghost use Rattle.histories.specs.TraceEvents.{TraceEvent, records_of, entries_of};
ghost use Rattle.histories.specs.States.{SessionState, state_after};
ghost use Rattle.histories.specs.Follows.{IsProper};
ghost use Rattle.histories.specs.Once.{CallsTakeOnce};
ghost use Rattle.histories.specs.Causes.{StartsOweNone, BootsOweNone, SleepsOweNone, EndsOweNone, BootEndsOweNone, RecordsOwed, FailuresRecorded, RecordsEnds};
ghost use Rattle.histories.specs.Causes.{BootsStartInOrder, RollbacksPlain};

/// A history goes on where another ends.
pub fn joins()
    ensures proper { (p : SessionState) (h g : List TraceEvent) → IsProper (state_after p g) h → IsProper p g → IsProper p (h ++ g) }
    ensures left { (p : SessionState) (h g : List TraceEvent) → state_after p (h ++ g) ≡ state_after (state_after p g) h }
    ensures records { (h g : List TraceEvent) → records_of (h ++ g) ≡ records_of g ++ records_of h }
    ensures entries { (h g : List TraceEvent) → entries_of (h ++ g) ≡ entries_of g ++ entries_of h }
{}

/// What rows of changes and of bootstraps have as their premise is met: by no items, and by an item with a scope whose
/// recipe has one run step, or a bootstrap, without variables.
pub fn made_ready()
    ensures none { (o : Origin) → AreFitted o [] [] }
    ensures one { (o : Origin) (i : Item) (text : List ℕ) (scope : Scope) (is : IsScopeOf o (i ∷ []) 0 scope) → RunsOnly is.recipe text →
        AreFitted o (i ∷ []) (running_item o i text ∷ []) }
    ensures boot { (o : Origin) (i : Item) (text : List ℕ) (scope : Scope) (is : IsScopeOf o (i ∷ []) 0 scope) → HasNoVariable text →
        is.recipe.bootstrap ≡ Some (plain_def text (Some 120000)) → IsStepAt o (i ∷ []) 0 step.Bootstrap (Some (plain_step o i text (Some 120000))) }
{}

/// Failures and ends of bootstraps are recorded before the next step starts and before anything waits, each as it came,
/// and none is left where neither the disk nor a stream failed. What rolls a deployment back without bootstraps is kept
/// only where none is to run again.
pub fn causes()
    ensures starts { StartsOweNone }
    ensures boot_starts { BootsOweNone }
    ensures sleeps { SleepsOweNone }
    ensures child_ends { EndsOweNone }
    ensures boot_ends { BootEndsOweNone }
    ensures records { RecordsOwed }
    ensures recorded { FailuresRecorded }
    ensures ends { RecordsEnds }
    ensures boots { BootsStartInOrder }
    ensures rollbacks { RollbacksPlain }
{}

/// A call that does not serve takes one document at most, and none where a deployment is pending as it begins.
pub fn one_is_taken()
    ensures { CallsTakeOnce }
{}
