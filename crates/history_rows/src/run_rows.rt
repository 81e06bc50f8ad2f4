// Worked rows, on functions that do nothing.
ghost use Rattle.std.specs.Prelude.{◌≡◌, ◌∷◌, [], List, true, false, codes};
ghost use Rattle.nuc_base.specs.declared.kinds.Step.TheVariants as step;
ghost use Rattle.nuc_base.specs.declared.kinds.Outcome.TheVariants as outcomes;
ghost use Rattle.lifecycle.specs.declared.kinds.State.TheVariants as state;
ghost use Rattle.device.specs.Lawful.{no_failures};
ghost use Rattle.records.specs.Stored.{Closed, Activating, StepFailed, Failing};
ghost use Rattle.nuc_base.specs.declared.kinds.Exit.TheVariants as exits;
ghost use Rattle.lifecycle.specs.declared.kinds.LifeEvent.TheVariants as event;
ghost use Rattle.records.specs.declared.record.Origin.{Origin};
ghost use Rattle.step_runner.specs.declared.entries.Seen.TheVariants as seen;
ghost use Rattle.components.specs.Fitted.{Fitted};
ghost use Rattle.components.specs.Made.{AreFitted};
ghost use Rattle.histories.specs.TraceEvents.{Ran, WaitElapsed, Recorded, Moved, ReadClock, Changed, StopsAll};
ghost use Rattle.histories.specs.States.{state_after};
ghost use Rattle.histories.specs.Follows.{IsProper, MayFollow};
ghost use Rattle.histories.specs.Courses.{IsBare};
ghost use Rattle.history_rows.specs.Rows.{Recipes, read_as, with_recipes, asked, not_asked, states_of, script, ends, good, bad, a};
ghost use Rattle.history_rows.specs.RunRows.{hello, hello_moves, hello_up, hello_accepted, hello_starts, hello_ends, hello_begun, hello_runs, hello_changed};
ghost use Rattle.history_rows.specs.RunRows.{skip_up, skip_begun, skips_it, installs_it, probed_yes, probed_no, limited, in_time, too_late, timed_out};
ghost use Rattle.history_rows.specs.RunRows.{refusing, is_refused, records_refusal, refused_again, refused_once, recorded_once, refused_twice};
ghost use Rattle.history_rows.specs.RunRows.{recorded_twice, refused_thrice, recorded_thrice, goes_back, activates};

/// A component with a run step comes up, and is killed at the end.
pub fn hello_row()
    ensures begins { (o : Origin) (r : Recipes) (made : List Fitted) → AreFitted o (read_as r (hello ∷ [])) made →
        IsProper (with_recipes r (hello_accepted o)) (activates made) }
    ensures moves { (o : Origin) → IsProper (hello_changed o) hello_moves }
    ensures starts { (o : Origin) → IsProper (hello_begun o) hello_starts }
    ensures ends { (o : Origin) → IsProper (hello_runs o) hello_ends }
    ensures bare { (o : Origin) → IsBare (state_after (hello_runs o) hello_ends) }
{}

/// Nothing closes as a success that was not started.
pub fn starts_nothing()
    ensures changed { (o : Origin) → MayFollow (hello_changed o) (Recorded (Closed outcomes.Successful)) → ⊥ }
    ensures unchanged { (o : Origin) → MayFollow (state_after (hello_accepted o) (Recorded Activating ∷ [])) (Recorded (Closed outcomes.Successful)) → ⊥ }
    ensures begun { (o : Origin) → MayFollow (hello_begun o) (Recorded (Closed outcomes.Successful)) → ⊥ }
    ensures twice { (o : Origin) (r : Recipes) (made : List Fitted) → MayFollow (with_recipes r (hello_changed o)) (Changed made no_failures false) → ⊥ }
    ensures unanswered { (o : Origin) → MayFollow (state_after (hello_begun o) (ReadClock 0 ∷ [])) (WaitElapsed (asked 0 (seen.Elapsed 1000))) → ⊥ }
    ensures unasked { (o : Origin) → MayFollow (hello_begun o) (Ran (not_asked 0 (seen.Started 0 (script (codes "r")))) 0 step.Run) → ⊥ }
    ensures other { (o : Origin) → MayFollow (state_after (hello_begun o) (ReadClock 0 ∷ []))
        (Ran (asked 0 (seen.Started 0 (script (codes "x")))) 0 step.Run) → ⊥ }
    ensures before { (o : Origin) → MayFollow (state_after (hello_accepted o) (Recorded Activating ∷ [])) (Moved 0 event.MayBegin) → ⊥ }
    ensures stops { (o : Origin) → MayFollow (hello_accepted o) StopsAll → ⊥ }
{}

/// A step with Skipif is probed first, and is skipped exactly where the probe says so.
pub fn skipif_row()
    ensures skips { (o : Origin) → IsProper (skip_begun o) skips_it }
    ensures installs { (o : Origin) → IsProper (skip_begun o) installs_it }
    ensures states { (o : Origin) → states_of (state_after (skip_begun o) skips_it).world.parts ≡ state.Finished ∷ [] }
    ensures unprobed { (o : Origin) → MayFollow (state_after (skip_begun o) (ReadClock 0 ∷ []))
        (Ran (asked 0 (seen.Started 0 (script (codes "i")))) 0 step.Install) → ⊥ }
    ensures after_yes { (o : Origin) → MayFollow (state_after (skip_begun o) probed_yes)
        (Ran (not_asked 0 (seen.Started 0 (script (codes "i")))) 0 step.Install) → ⊥ }
    ensures other { (o : Origin) → MayFollow (state_after (skip_begun o) (ReadClock 0 ∷ []))
        (Ran (asked 0 (seen.Exists (codes "/opt/y") true)) 0 step.Install) → ⊥ }
    ensures kind { (o : Origin) → MayFollow (state_after (skip_begun o) (ReadClock 0 ∷ []))
        (Ran (asked 0 (seen.OnPath (codes "/opt/x") true)) 0 step.Install) → ⊥ }
    ensures twice { (o : Origin) → MayFollow (state_after (skip_begun o) probed_no) (Ran (not_asked 0 (seen.Exists (codes "/opt/x") true)) 0 step.Install) → ⊥ }
    ensures asked_between { (o : Origin) → MayFollow (state_after (skip_begun o) (ReadClock 0 ∷ probed_no))
        (Ran (asked 0 (seen.Started 0 (script (codes "i")))) 0 step.Install) → ⊥ }
    ensures goes_on { (o : Origin) → MayFollow (state_after (skip_begun o) probed_no) (Moved 0 event.MayBegin) → ⊥ }
    ensures closes { (o : Origin) → MayFollow (state_after (skip_begun o) probed_yes) (Recorded (Closed outcomes.Successful)) → ⊥ }
{}

/// A step ends by itself up to its limit, and is killed at it.
pub fn startup_limit_row()
    ensures in_time { (o : Origin) → IsProper (limited o) in_time }
    ensures late { (o : Origin) → IsProper (limited o) too_late }
    ensures early { (o : Origin) → MayFollow (state_after (limited o) (ReadClock 119999 ∷ [])) (Ran (asked 119999 (seen.Killed 0)) 0 step.Startup) → ⊥ }
    ensures long { (o : Origin) → MayFollow (limited o) (WaitElapsed (asked 0 (seen.Elapsed 120001))) → ⊥ }
    ensures short { (o : Origin) → MayFollow (limited o) (WaitElapsed (asked 0 (seen.Elapsed 1000))) → ⊥ }
    ensures waits { (o : Origin) → MayFollow (state_after (limited o) (ReadClock 120000 ∷ [])) (WaitElapsed (asked 120000 (seen.Elapsed 0))) → ⊥ }
    ensures unasked { (o : Origin) → MayFollow (state_after (limited o) (WaitElapsed (asked 0 (seen.Elapsed 120000)) ∷ []))
        (Ran (not_asked 120000 (seen.Killed 0)) 0 step.Startup) → ⊥ }
    ensures as_success { (o : Origin) → MayFollow (state_after (limited o) timed_out) (Recorded (Closed outcomes.Successful)) → ⊥ }
    ensures as_signal { (o : Origin) → MayFollow (state_after (limited o) timed_out) (Recorded (StepFailed a step.Startup exits.Signal)) → ⊥ }
    ensures retries { (o : Origin) → MayFollow (state_after (limited o) timed_out) (Moved 0 event.Retry) → ⊥ }
{}

/// A start that is refused is a failure of its step, recorded before the next try; the third leads back.
pub fn runner_refuses_row()
    ensures once { (o : Origin) → IsProper (refusing o state.New 0) is_refused }
    ensures records { (o : Origin) → IsProper (refused_once o) records_refusal }
    ensures twice { (o : Origin) → IsProper (recorded_once o) refused_again }
    ensures records_twice { (o : Origin) → IsProper (refused_twice o) records_refusal }
    ensures thrice { (o : Origin) → IsProper (recorded_twice o) refused_again }
    ensures records_thrice { (o : Origin) → IsProper (refused_thrice o) records_refusal }
    ensures back { (o : Origin) → AreFitted o [] [] → IsProper (recorded_thrice o) goes_back }
    ensures states { (o : Origin) → states_of (recorded_thrice o).world.parts ≡ state.Broken ∷ [] }
    ensures unrecorded { (o : Origin) → MayFollow (refused_once o) (Moved 0 event.Retry) → ⊥ }
    ensures as_code { (o : Origin) → MayFollow (refused_once o) (Recorded (StepFailed a step.Install bad)) → ⊥ }
    ensures as_success { (o : Origin) → MayFollow (refused_once o) (Recorded (Closed outcomes.Successful)) → ⊥ }
    ensures waits { (o : Origin) → MayFollow (state_after (recorded_once o) (ReadClock 0 ∷ [])) (WaitElapsed (asked 0 (seen.Elapsed 1000))) → ⊥ }
    ensures fourth { (o : Origin) → MayFollow (recorded_thrice o) (Moved 0 event.Retry) → ⊥ }
    ensures early { (o : Origin) → MayFollow (refused_thrice o) (Recorded (Failing a)) → ⊥ }
{}
