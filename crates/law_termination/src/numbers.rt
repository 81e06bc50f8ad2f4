// Laws of numbers that fall, on functions that do nothing.
ghost use Rattle.std.specs.Prelude.{◌≡◌, ◌⊎◌, ◌<◌, ◌≤◌, ◌+◌, ◌-◌, ◌^◌, ℕ, Bool, Some, true};
ghost use Rattle.std.specs.declared.option.Option.{Option};
ghost use Rattle.std.specs.List.{AllByRecursion};
ghost use Rattle.nuc_base.specs.declared.kinds.Exit.{Exit};
ghost use Rattle.nuc_base.specs.declared.kinds.Step.{Step};
ghost use Rattle.lifecycle.specs.declared.kinds.LifeEvent.{LifeEvent};
ghost use Rattle.components.specs.Acts.{MayKill, MayMove, NextAct, OwesAt};
ghost use Rattle.components.specs.declared.kinds.Act.{Act};
ghost use Rattle.components.specs.Deadlines.{least_deadline, until};
ghost use Rattle.components.specs.Events.{ended, killed, later, refused, skipped, started, heard_at};
ghost use Rattle.components.specs.Lives.{lived_at};
ghost use Rattle.components.specs.Turns.{is_begun};
ghost use Rattle.components.specs.Components.{At, Components, owner};
ghost use Rattle.law_termination.specs.Kept.{AreKept, IsFalling, StaysKept, is_done};
ghost use Rattle.law_termination.specs.Rank.{measure, rank};
ghost use Rattle.law_termination.specs.Time.{HasTime};
ghost use Rattle.law_termination.specs.TurnRank.{late_count, turn_rank};

/// What is kept of each component alone is kept by whatever befalls them, however many there are.
pub fn each_keeps()
    ensures moves { (w : Components) → AreKept w → (k : ℕ) (e : LifeEvent) → MayMove w k e → StaysKept w (lived_at k e w) }
    ensures kills { (w : Components) → AreKept w → (n k : ℕ) (s : Step) → MayKill w n k s → StaysKept w (killed n w) }
    ensures hears { (w : Components) → AreKept w → (k : ℕ) (s : Step) (x : Exit) (breaks : Bool) → OwesAt w k s x breaks → StaysKept w (heard_at k w) }
    ensures starts { (w : Components) → AreKept w → (k n : ℕ) (s : Step) → At k (λ p. is_begun s p ≡ true) w.parts → StaysKept w (started k s n w) }
    ensures refuses { (w : Components) → AreKept w → (k : ℕ) (s : Step) → At k (λ p. is_begun s p ≡ true) w.parts → StaysKept w (refused k s w) }
    ensures skips { (w : Components) → AreKept w → (k : ℕ) (s : Step) → At k (λ p. is_begun s p ≡ true) w.parts → StaysKept w (skipped k w) }
    ensures ends { (w : Components) → AreKept w → (n : ℕ) (x : Exit) (k : ℕ) (s : Step) → owner n w.parts ≡ Some (k, s) → StaysKept w (ended n x w) }
    ensures passes { (w : Components) → AreKept w → (m : ℕ) → StaysKept w (later m w) }
{}

/// While no failure is forgotten, whatever befalls the components lowers the number of the loops, but for a start that is
/// handed out, which its answer lowers.
pub fn drives_fall()
    ensures acts { (w v : Components) (act : Option Act) → NextAct w act v → AreKept w → IsFalling w → IsFalling v × (rank v ≤ rank w) ×
        (is_done act ≡ true → rank v < rank w) }
    ensures moves { (w : Components) → AreKept w → IsFalling w → (k : ℕ) (e : LifeEvent) → MayMove w k e → rank (lived_at k e w) < rank w }
    ensures kills { (w : Components) → AreKept w → IsFalling w → (n k : ℕ) (s : Step) → MayKill w n k s → rank (killed n w) < rank w }
    ensures hears { (w : Components) → AreKept w → IsFalling w → (k : ℕ) (s : Step) (x : Exit) (breaks : Bool) → OwesAt w k s x breaks →
        rank (heard_at k w) < rank w }
    ensures starts { (w : Components) → AreKept w → IsFalling w → (k n : ℕ) (s : Step) → At k (λ p. is_begun s p ≡ true) w.parts →
        rank (started k s n w) < rank w }
    ensures refuses { (w : Components) → AreKept w → IsFalling w → (k : ℕ) (s : Step) → At k (λ p. is_begun s p ≡ true) w.parts →
        rank (refused k s w) < rank w }
    ensures skips { (w : Components) → AreKept w → IsFalling w → (k : ℕ) (s : Step) → At k (λ p. is_begun s p ≡ true) w.parts → rank (skipped k w) < rank w }
    ensures ends { (w : Components) → AreKept w → IsFalling w → (n : ℕ) (x : Exit) (k : ℕ) (s : Step) → owner n w.parts ≡ Some (k, s) →
        rank (ended n x w) < rank w }
    ensures passes { (w : Components) (m : ℕ) → rank (later m w) ≡ rank w }
{}

/// While no deployment is driven, what comes between two waits lowers a number, and so does a failure that is forgotten. Time
/// alone leaves it, but where a deadline passes.
pub fn turns_calm()
    ensures acts { (w v : Components) (act : Option Act) → NextAct w act v → AreKept w → w.steady ≡ true → (turn_rank v ≤ turn_rank w) ×
        (is_done act ≡ true → turn_rank v < turn_rank w) }
    ensures moves { (w : Components) → AreKept w → w.steady ≡ true → (k : ℕ) (e : LifeEvent) → MayMove w k e → turn_rank (lived_at k e w) < turn_rank w }
    ensures kills { (w : Components) → AreKept w → w.steady ≡ true → (n k : ℕ) (s : Step) → MayKill w n k s → turn_rank (killed n w) < turn_rank w }
    ensures hears { (w : Components) → AreKept w → w.steady ≡ true → (k : ℕ) (s : Step) (x : Exit) (breaks : Bool) → OwesAt w k s x breaks →
        turn_rank (heard_at k w) < turn_rank w }
    ensures starts { (w : Components) → AreKept w → w.steady ≡ true → w.moment + 1 < 2 ^ 62 → (k n : ℕ) (s : Step) →
        At k (λ p. is_begun s p ≡ true) w.parts → turn_rank (started k s n w) < turn_rank w }
    ensures refuses { (w : Components) → AreKept w → w.steady ≡ true → (k : ℕ) (s : Step) → At k (λ p. is_begun s p ≡ true) w.parts →
        turn_rank (refused k s w) < turn_rank w }
    ensures skips { (w : Components) → AreKept w → w.steady ≡ true → (k : ℕ) (s : Step) → At k (λ p. is_begun s p ≡ true) w.parts →
        turn_rank (skipped k w) < turn_rank w }
    ensures passes { (w : Components) (m : ℕ) → AllByRecursion (λ p. late_count m p.children ≡ late_count w.moment p.children) w.parts →
        turn_rank (later m w) ≡ turn_rank w }
{}

/// A loop of turns ends: each turn something befell the components, or the clock went on, as it does where a wait to the least
/// deadline elapsed.
pub fn turns_fall()
    ensures waits { (w : Components) (now old new limit : ℕ) → w.moment ≡ now → HasTime w → w.moment + 1 < 2 ^ 62 → limit ≡ until (least_deadline w) now →
        now ≤ old → (old + limit ≤ new) ⊎ (new ≡ 2 ^ 62 - 1) → now < new }
    ensures measured { (w v : Components) (old new : ℕ) → old < 2 ^ 62 → new < 2 ^ 62 → (rank v < rank w) ⊎ ((rank v ≤ rank w) × (old < new)) →
        measure (later new v) < measure (later old w) }
{}
