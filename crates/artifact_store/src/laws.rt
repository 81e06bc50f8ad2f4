//! Laws of staging and sweeping.
ghost use Rattle.artifact_store.specs.Laws.{PathsDiffer, StagingKeeps, SweepingKeeps, HoldsTheSet, StaysBelow, JournalsLieElsewhere};

/// Staging and sweeping leave alone what the device needs. It does nothing.
pub fn needed_files_stay()
    ensures paths { PathsDiffer }
    ensures staging { StagingKeeps }
    ensures sweeping { SweepingKeeps }
    ensures set { HoldsTheSet }
    ensures below { StaysBelow }
    ensures journals { JournalsLieElsewhere }
{}
