// What a change to other items needs, for `IsSupervised` to hold behind it.
ghost use Rattle.std.specs.Prelude.{◌≡◌, ◌↔◌, ◌<◌, ◌≤◌, ℕ, Bool, List, Some, false, true, length, map};
ghost use Rattle.std.specs.List.{All};
ghost use Rattle.std.specs.Option.{IfSome};
ghost use Rattle.records.specs.Stored.{Item};
ghost use Rattle.records.specs.declared.record.Origin.{Origin};
ghost use Rattle.device.specs.Devices.{Device, Pending};
ghost use Rattle.device.specs.Lawful.{running};
ghost use Rattle.device.specs.Plans.{AreRising, item_name};
ghost use Rattle.components.specs.Made.{AreFitted};
ghost use Rattle.components.specs.Fitted.{Fitted, is_same_item};
ghost use Rattle.components.specs.Components.{ComponentState, Components, is_broken, is_to_stop};
ghost use Rattle.components.specs.Changes.{changed_to, is_replaced};
ghost use Rattle.law_supervisor.specs.Keeps.{IsSupervised, HasNoneOwed, Owns, AreCounted, ItemsDiffer};
ghost use Rattle.law_supervisor.specs.Sound.{IsOrderly};

/// Where each item begins with the device's count of its name, and no failure of before is still owed, a change to
/// these items gives what is to be kept. Children that live stay with their components.
pub fn changes_keep()
    ensures keeps { (d : Device) (items : List Fitted) (counts : List ℕ) (w : Components) → IfSome d.pending (λ q. length q.failures ≡ 128) →
        AreCounted d items counts → ItemsDiffer items
        → HasNoneOwed w → IsOrderly w → IsSupervised d (changed_to items counts false w) }
    ensures owners { (n : ℕ) (items : List Fitted) (counts : List ℕ) (steady : Bool) (w : Components) → Owns (changed_to items counts steady w) n ↔ Owns w n }
    ensures owes_none { (items : List Fitted) (counts : List ℕ) (steady : Bool) (w : Components) →
        HasNoneOwed w → HasNoneOwed (changed_to items counts steady w) }
{}

/// Items that were made ready from those that the stage brings up begin with the device's counts, and have names of their
/// own.
pub fn ready_items_are_counted()
    ensures counted { (o : Origin) (d : Device) (q : Pending) (items : List Item) (fitted : List Fitted) → d.pending ≡ Some q → running d.set q ≡ Some items →
        AreRising (map item_name items)
        → AreFitted o items fitted → length items ≤ length q.failures → All (λ (n : ℕ). n < 3) q.failures → AreCounted d fitted q.failures }
    ensures differ { (o : Origin) (items : List Item) (fitted : List Fitted) → AreRising (map item_name items) → AreFitted o items fitted → ItemsDiffer fitted }
{}

/// Where the item that it has comes for a component that is not to be stopped, it is replaced exactly where it is BROKEN. So what
/// is replaced by a change to the same items is among those that are BROKEN, or was to be stopped before.
pub fn the_broken_are_replaced()
    ensures { (f : Fitted) (p : ComponentState) → is_same_item f.item p.fitted.item ≡ true → is_to_stop p ≡ false → is_replaced f p ≡ is_broken p.life.state }
{}
