// What befalls the components keeps what is orderly, whether or not a deployment is driven, and what it makes of the
// children's owners and of what their recipes say.
ghost use Rattle.std.specs.Prelude.{◌≡◌, ◌≢◌, ◌↔◌, ◌<◌, ℕ, Bool, None, List};
ghost use Rattle.std.specs.List.{All};
ghost use Rattle.nuc_base.specs.declared.kinds.Exit.{Exit};
ghost use Rattle.nuc_base.specs.declared.kinds.Step.{Step};
ghost use Rattle.nuc_base.specs.declared.platform.Platform.{Platform};
ghost use Rattle.components.specs.Acts.{Move, MovesInOrder};
ghost use Rattle.components.specs.Changes.{all_stopped, changed_to};
ghost use Rattle.components.specs.Components.{Components, owner};
ghost use Rattle.components.specs.Events.{started, refused, skipped, ended, killed, heard_at, later};
ghost use Rattle.components.specs.Fitted.{Fitted};
ghost use Rattle.components.specs.Platforms.{AllRunFor};
ghost use Rattle.law_supervisor.specs.Keeps.{HasNoneOwed, ItemsDiffer, Owns};
ghost use Rattle.law_supervisor.specs.Sound.{IsOrderly};

/// Each event leaves what is orderly. A start is one whose child has a number that no living one has.
pub fn events_keep_order()
    ensures moves { (w v : Components) (ms : List Move) → MovesInOrder w ms v → IsOrderly w → IsOrderly v }
    ensures starts { (k : ℕ) (s : Step) (n : ℕ) (w : Components) → owner n w.parts ≡ None → IsOrderly w → IsOrderly (started k s n w) }
    ensures refusals { (k : ℕ) (s : Step) (w : Components) → IsOrderly w → IsOrderly (refused k s w) }
    ensures skips { (k : ℕ) (w : Components) → IsOrderly w → IsOrderly (skipped k w) }
    ensures kills { (n : ℕ) (w : Components) → IsOrderly w → IsOrderly (killed n w) }
    ensures ends { (n : ℕ) (e : Exit) (w : Components) → IsOrderly w → IsOrderly (ended n e w) }
    ensures tellings { (k : ℕ) (w : Components) → IsOrderly w → IsOrderly (heard_at k w) }
    ensures time { (m : ℕ) (w : Components) → IsOrderly w → IsOrderly (later m w) }
{}

/// A kill and an end take their child alone.
pub fn children_go_alone()
    ensures kills { (n m : ℕ) (w : Components) → IsOrderly w → Owns (killed n w) m ↔ ((m ≢ n) × Owns w m) }
    ensures ends { (n m : ℕ) (e : Exit) (w : Components) → IsOrderly w → Owns (ended n e w) m ↔ ((m ≢ n) × Owns w m) }
{}

/// A stop of all leaves what is orderly, the children and the failures that are still owed.
pub fn stops_keep_order()
    ensures orderly { (w : Components) → IsOrderly w → IsOrderly (all_stopped w) }
    ensures owners { (n : ℕ) (w : Components) → owner n (all_stopped w).parts ≡ owner n w.parts }
    ensures owes_none { (w : Components) → HasNoneOwed w → HasNoneOwed (all_stopped w) }
{}

/// A change to items that have names of their own and counts below those that break leaves what is orderly, whoever stands and
/// whatever is under way.
pub fn changes_keep_order()
    ensures { (items : List Fitted) (counts : List ℕ) (steady : Bool) (w : Components) → All (λ (n : ℕ). n < 3) counts → ItemsDiffer items → IsOrderly w →
        IsOrderly (changed_to items counts steady w) }
{}

/// Where each component runs for one platform, it goes on so whatever befalls it.
pub fn events_keep_recipes()
    ensures moves { (platform : Platform) (w v : Components) (ms : List Move) → MovesInOrder w ms v → AllRunFor platform w.parts → AllRunFor platform v.parts }
    ensures kills { (platform : Platform) (n : ℕ) (w : Components) → AllRunFor platform w.parts → AllRunFor platform (killed n w).parts }
    ensures tellings { (platform : Platform) (k : ℕ) (w : Components) → AllRunFor platform w.parts → AllRunFor platform (heard_at k w).parts }
    ensures time { (platform : Platform) (m : ℕ) (w : Components) → AllRunFor platform w.parts → AllRunFor platform (later m w).parts }
{}
