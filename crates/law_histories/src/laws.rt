// Laws of whole histories, on functions that do nothing.
ghost use Rattle.law_histories.specs.Stood.{RecordsStand};
ghost use Rattle.law_histories.specs.Ends.{BootsEnded, FailuresEnded, NoneRecorded};
ghost use Rattle.law_histories.specs.Rollbacks.{ClosesCaused, RunsCloseCaused, AllRollbacksPlain};
ghost use Rattle.law_histories.specs.Starts.{BootsDiffer, BootsStartOnce, AllBootsOweNone, AllStartsOweNone};
ghost use Rattle.law_histories.specs.Onward.{BacksGoOn, DeploysGoOn, ResumesGoOn};
ghost use Rattle.law_histories.specs.Serving.{LastIsUnasked, ServesTakeOnce};

/// With ROLLBACK a deployment closes as its whole new set, or as the old one or as neither only where its steps failed: a
/// bootstrap of its plan, or one of its components three times. These failures are recorded, in this call or before it, and
/// each that this call records has its end at the runner in this call. The same holds of all records of however many calls.
/// It is rolled back without bootstraps only where none is to run again. It does nothing.
pub fn rollbacks_are_caused()
    ensures stand { RecordsStand }
    ensures closes { ClosesCaused }
    ensures runs { RunsCloseCaused }
    ensures failures { FailuresEnded }
    ensures boots { BootsEnded }
    ensures plain { AllRollbacksPlain }
{}

/// No step starts while a failure is not recorded, and no bootstrap in a stage in which it ended: it is the first one left,
/// and its beginning is the record kept last. It does nothing.
pub fn nothing_starts_again()
    ensures starts { AllStartsOweNone }
    ensures boot_starts { AllBootsOweNone }
    ensures boots { BootsStartOnce }
    ensures differ { BootsDiffer }
{}

/// A deployment that a call resumes, or accepts by its first record, and in which nothing fails closes as it was to close, or
/// gets on: where the call ended for a restart, one more bootstrap is ended, of as many as there are. It does nothing.
pub fn resumes_get_on()
    ensures quiet { NoneRecorded }
    ensures up { ResumesGoOn }
    ensures accepted { DeploysGoOn }
    ensures back { BacksGoOn }
{}

/// A call that serves takes one document at most before its inbox is asked again, and none where no answer stands open; and
/// once it was asked as often as it may be, it is asked no more. It does nothing.
pub fn serving_takes_once()
    ensures once { ServesTakeOnce }
    ensures last { LastIsUnasked }
{}
