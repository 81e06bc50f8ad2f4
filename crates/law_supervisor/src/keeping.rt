// What befalls the components of a deployment keeps `IsSupervised`, and what it makes of the children's owners.
ghost use Rattle.std.specs.Prelude.{◌≡◌, ◌≢◌, ◌↔◌, ◌⊎◌, ℕ, Bool, None, List, ⊤};
ghost use Rattle.nuc_base.specs.declared.kinds.Exit.{Exit};
ghost use Rattle.nuc_base.specs.declared.kinds.Step.{Step};
ghost use Rattle.records.specs.Stored.{StepFailed};
ghost use Rattle.device.specs.Devices.{Device};
ghost use Rattle.device.specs.Lawful.{applied};
ghost use Rattle.components.specs.Components.{Components, At, owner, component_name};
ghost use Rattle.components.specs.Events.{started, refused, skipped, ended, killed, heard_at, later};
ghost use Rattle.components.specs.Acts.{Move, MovesInOrder, OwesAt};
ghost use Rattle.components.specs.Changes.{steadied};
ghost use Rattle.law_supervisor.specs.Keeps.{IsSupervised, HasNoneOwed, Owns};
ghost use Rattle.law_supervisor.specs.Sound.{IsOrderly};

/// Moves that leave nothing outside start and take no child.
pub fn moves_keep()
    ensures keeps { (d : Device) (w v : Components) (ms : List Move) → MovesInOrder w ms v → IsSupervised d w → IsSupervised d v }
    ensures owners { (n : ℕ) (w v : Components) (ms : List Move) → MovesInOrder w ms v → owner n v.parts ≡ owner n w.parts }
{}

/// A start whose child has a number that no living one has adds that child.
pub fn starts_keep()
    ensures keeps { (d : Device) (k : ℕ) (s : Step) (n : ℕ) (w : Components) → owner n w.parts ≡ None → HasNoneOwed w → IsSupervised d w
        → IsSupervised d (started k s n w) }
    ensures owners { (k : ℕ) (s : Step) (n m : ℕ) (w : Components) → At k (λ p. ⊤) w.parts → Owns (started k s n w) m ↔ ((m ≡ n) ⊎ Owns w m) }
{}

/// A start that was refused leaves the children.
pub fn refusals_keep()
    ensures keeps { (d : Device) (k : ℕ) (s : Step) (w : Components) → HasNoneOwed w → IsSupervised d w → IsSupervised d (refused k s w) }
    ensures owners { (k : ℕ) (s : Step) (m : ℕ) (w : Components) → owner m (refused k s w).parts ≡ owner m w.parts }
{}

/// A step that was skipped leaves the children.
pub fn skips_keep()
    ensures keeps { (d : Device) (k : ℕ) (w : Components) → HasNoneOwed w → IsSupervised d w → IsSupervised d (skipped k w) }
    ensures owners { (k : ℕ) (m : ℕ) (w : Components) → owner m (skipped k w).parts ≡ owner m w.parts }
{}

/// A kill takes its child alone.
pub fn kills_keep()
    ensures keeps { (d : Device) (n : ℕ) (w : Components) → HasNoneOwed w → IsSupervised d w → IsSupervised d (killed n w) }
    ensures owners { (d : Device) (n m : ℕ) (w : Components) → IsSupervised d w → Owns (killed n w) m ↔ ((m ≢ n) × Owns w m) }
{}

/// An end takes its child alone, whatever its exit is.
pub fn ends_keep()
    ensures keeps { (d : Device) (n : ℕ) (e : Exit) (w : Components) → Owns w n → HasNoneOwed w → IsSupervised d w → IsSupervised d (ended n e w) }
    ensures owners { (d : Device) (n m : ℕ) (e : Exit) (w : Components) → IsSupervised d w → Owns (ended n e w) m ↔ ((m ≢ n) × Owns w m) }
{}

/// A failure that is heard and recorded is one that the device counts.
pub fn tellings_keep()
    ensures keeps { (d : Device) (k : ℕ) (n : List ℕ) (s : Step) (e : Exit) (b : Bool) (w : Components) → IsSupervised d w → OwesAt w k s e b →
        At k (λ p. component_name p ≡ n) w.parts
        → IsSupervised (applied d (StepFailed n s e)) (heard_at k w) }
    ensures owners { (n k : ℕ) (w : Components) → owner n (heard_at k w).parts ≡ owner n w.parts }
{}

/// Time that passes changes nothing of this.
pub fn time_keeps()
    ensures keeps { (d : Device) (m : ℕ) (w : Components) → IsSupervised d w → IsSupervised d (later m w) }
    ensures owners { (n m : ℕ) (w : Components) → owner n (later m w).parts ≡ owner n w.parts }
    ensures owes_none { (m : ℕ) (w : Components) → HasNoneOwed w → HasNoneOwed (later m w) }
{}

/// The end of a deployment leaves what is orderly, the children and the failures that are still owed.
pub fn closes_keep()
    ensures orderly { (w : Components) → IsOrderly w → IsOrderly (steadied w) }
    ensures owners { (n : ℕ) (w : Components) → owner n (steadied w).parts ≡ owner n w.parts }
    ensures owes_none { (w : Components) → HasNoneOwed w → HasNoneOwed (steadied w) }
{}
