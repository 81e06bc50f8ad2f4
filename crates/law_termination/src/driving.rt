// Laws of components of which some come up, some leave, and some are replaced while others stand, on functions that do nothing.
ghost use Rattle.std.specs.Prelude.{◌≡◌, ◌⊎◌, ◌<◌, ◌+◌, ◌^◌, ℕ, Bool, List, [], Some, true};
ghost use Rattle.std.specs.declared.option.Option.{Option};
ghost use Rattle.std.specs.List.{list_all, AllByRecursion};
ghost use Rattle.nuc_base.specs.declared.kinds.Exit.{Exit};
ghost use Rattle.nuc_base.specs.declared.kinds.Step.{Step};
ghost use Rattle.lifecycle.specs.declared.kinds.LifeEvent.{LifeEvent};
ghost use Rattle.records.specs.Stored.{Item};
ghost use Rattle.records.specs.declared.record.Origin.{Origin};
ghost use Rattle.device.specs.Plans.{AreItems};
ghost use Rattle.components.specs.Acts.{MayKill, MayMove, NextAct, OwesAt};
ghost use Rattle.components.specs.declared.kinds.Act.{Act};
ghost use Rattle.components.specs.Answers.{has_answered};
ghost use Rattle.components.specs.Changes.{all_stopped, changed_to, steadied};
ghost use Rattle.components.specs.Events.{ended, killed, later, refused, skipped, started, heard_at};
ghost use Rattle.components.specs.Fitted.{Fitted};
ghost use Rattle.components.specs.Lives.{lived_at};
ghost use Rattle.components.specs.Made.{AreFitted};
ghost use Rattle.components.specs.Platforms.{AllRunFor};
ghost use Rattle.components.specs.Turns.{IsQuiet, is_begun};
ghost use Rattle.components.specs.Components.{At, Components, is_leaving, is_settled, is_stopped, owner};
ghost use Rattle.law_supervisor.specs.Keeps.{ItemsDiffer};
ghost use Rattle.law_termination.specs.Time.{HasTime};
ghost use Rattle.law_termination.specs.Drives.{AreDriven, GoesOn, MayCome, MayTakeOver, has_failed};

use recipe_reader::recipe_laws;

/// Where there are no components, it holds.
pub fn none_drives()
    ensures { (w : Components) → w.parts ≡ [] → AreDriven w }
{}

/// Whatever befalls the components keeps what is kept, also where an item is taken, or one is gone.
pub fn drives_keep()
    ensures acts { (w v : Components) (act : Option Act) → NextAct w act v → AreDriven w → GoesOn w v }
    ensures moves { (w : Components) → AreDriven w → (k : ℕ) (e : LifeEvent) → MayMove w k e → GoesOn w (lived_at k e w) }
    ensures kills { (w : Components) → AreDriven w → (n k : ℕ) (s : Step) → MayKill w n k s → GoesOn w (killed n w) }
    ensures hears { (w : Components) → AreDriven w → (k : ℕ) (s : Step) (x : Exit) (breaks : Bool) → OwesAt w k s x breaks → GoesOn w (heard_at k w) }
    ensures starts { (w : Components) → AreDriven w → (k n : ℕ) (s : Step) → At k (λ p. is_begun s p ≡ true) w.parts → GoesOn w (started k s n w) }
    ensures refuses { (w : Components) → AreDriven w → (k : ℕ) (s : Step) → At k (λ p. is_begun s p ≡ true) w.parts → GoesOn w (refused k s w) }
    ensures skips { (w : Components) → AreDriven w → (k : ℕ) (s : Step) → At k (λ p. is_begun s p ≡ true) w.parts → GoesOn w (skipped k w) }
    ensures ends { (w : Components) → AreDriven w → (n : ℕ) (x : Exit) (k : ℕ) (s : Step) → owner n w.parts ≡ Some (k, s) → GoesOn w (ended n x w) }
    ensures passes { (w : Components) (m : ℕ) → AreDriven w → GoesOn w (later m w) }
    ensures steadies { (w : Components) → AreDriven w → GoesOn w (steadied w) }
{}

/// So does the stop of all, but that all are to leave then.
pub fn drives_stop()
    ensures { (w : Components) → AreDriven w → AreDriven (all_stopped w) }
{}

/// A change to items that may come, each with fewer failures than break, keeps it too, whoever stands and whatever is under
/// way.
pub fn changes_drive()
    ensures { (items : List Fitted) (counts : List ℕ) (steady : Bool) (w : Components) → AreDriven w → MayTakeOver items w.parts →
        AllByRecursion (λ (n : ℕ). n < 3) counts → ItemsDiffer items → AreDriven (changed_to items counts steady w) }
{}

/// Items that were made ready for a device that runs them may come, and so they may while others stand that were made ready
/// for it.
pub fn ready_items_may_come()
    ensures come { (o : Origin) (items : List Item) (fitted : List Fitted) → AreItems o.platform items → AreFitted o items fitted → MayCome fitted }
    ensures take_over { (o : Origin) (items : List Item) (fitted : List Fitted) (w : Components) → AreItems o.platform items → AreFitted o items fitted →
        AllRunFor o.platform w.parts → MayTakeOver fitted w.parts }
{
    recipe_laws();
}

/// Where each start that was handed out is answered and nothing may act, what was to be is reached, or a deadline is still to
/// come, which is a moment. One that is BROKEN and is replaced or goes is no failure: it is stopped first.
pub fn drives_end()
    ensures rises { (w : Components) → AreDriven w → has_answered w ≡ true → IsQuiet w → (is_settled w ≡ true) ⊎ (has_failed w ≡ true) ⊎
        (HasTime w × (w.moment + 1 < 2 ^ 62)) }
    ensures leaves { (w : Components) → AreDriven w → list_all is_leaving w.parts ≡ true → has_answered w ≡ true → IsQuiet w → (is_stopped w ≡ true) ⊎
        (HasTime w × (w.moment + 1 < 2 ^ 62)) }
{}
