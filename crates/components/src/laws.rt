// Laws of the components, on functions that do nothing.
ghost use Rattle.std.specs.Prelude.{◌≡◌, ℕ, Bool, true, false};
ghost use Rattle.std.specs.Prelude.{List as ListOf};
ghost use Rattle.std.specs.declared.option.Option.{Option};
ghost use Rattle.nuc_base.specs.declared.kinds.Exit.{Exit};
ghost use Rattle.components.specs.Marks.{HasFirst, IsClosedWhole, IsLeast};
ghost use Rattle.components.specs.Components.{ComponentState, Components, component_name};
ghost use Rattle.components.specs.Acts.{NextAct};
ghost use Rattle.components.specs.Changes.{all_stopped, changed_to, steadied};
ghost use Rattle.components.specs.Events.{ended, handed_at, later, noticed, refused, skipped, started};
ghost use Rattle.components.specs.Fitted.{Fitted};
ghost use Rattle.components.specs.Made.{AreFitted};
ghost use Rattle.components.specs.Platforms.{AllFor, AllRunFor};
ghost use Rattle.components.specs.Readied.{KeepNeeds, KeepSteps};
ghost use Rattle.components.specs.Turns.{is_held, is_held_far, may_stop};
ghost use Rattle.components.specs.declared.kinds.Act.{Act};
ghost use Rattle.components.specs.declared.kinds.Event.{Event};
ghost use Rattle.nuc_base.specs.declared.kinds.Step.{Step};
ghost use Rattle.nuc_base.specs.declared.platform.Platform.{Platform};
ghost use Rattle.records.specs.Stored.{Item};
ghost use Rattle.records.specs.declared.record.Origin.{Origin};

use recipe_reader::recipe_laws;

/// It makes no difference whether the end of a child is told before or after the moment that was asked for behind it.
pub fn time_passes()
    ensures { (n m : ℕ) (e : Exit) (w : Components) → ended n e (later m w) ≡ later m (ended n e w) }
{}

/// Once its answer is told, it makes no difference that a start was handed out.
pub fn answers_meet_starts()
    ensures started { (k : ℕ) (s : Step) (n : ℕ) (w : Components) → started k s n (handed_at k w) ≡ started k s n w }
    ensures refused { (k : ℕ) (s : Step) (w : Components) → refused k s (handed_at k w) ≡ refused k s w }
    ensures skipped { (k : ℕ) (w : Components) → skipped k (handed_at k w) ≡ skipped k w }
{}

/// Who is stopped because of others are the least that are closed under hard needs and have the first ones.
pub fn marks_are_least()
    ensures first { HasFirst }
    ensures closed { IsClosedWhole }
    ensures least { IsLeast }
{}

/// Whoever is stopped waits for those that need it directly and are to be stopped; who waits for all that reach it waits for
/// these too.
pub fn stops_wait()
    ensures far { (name : ListOf ℕ) (parts : ListOf ComponentState) → is_held name parts ≡ true → is_held_far name parts ≡ true }
    ensures direct { (w : Components) (p : ComponentState) → may_stop w p ≡ true → is_held (component_name p) w.parts ≡ false }
{}

/// Where all items were made ready for one platform, each has the steps and the hard needs that it had before, so they may
/// come at a change; and whatever befalls the components leaves it so.
pub fn one_platform()
    ensures same { (platform : Platform) (fs : ListOf Fitted) (parts : ListOf ComponentState) → AllFor platform fs → AllRunFor platform parts →
        KeepSteps fs parts }
    ensures needs { (platform : Platform) (fs : ListOf Fitted) (parts : ListOf ComponentState) → AllFor platform fs → AllRunFor platform parts →
        KeepNeeds fs parts }
    ensures ready { (origin : Origin) (items : ListOf Item) (fs : ListOf Fitted) → AreFitted origin items fs → AllFor origin.platform fs }
    ensures event { (platform : Platform) (e : Event) (w : Components) → AllRunFor platform w.parts → AllRunFor platform (noticed e w).parts }
    ensures next_act { (platform : Platform) (w : Components) (act : Option Act) (v : Components) → NextAct w act v → AllRunFor platform w.parts →
        AllRunFor platform v.parts }
    ensures stop_all { (platform : Platform) (w : Components) → AllRunFor platform w.parts → AllRunFor platform (all_stopped w).parts }
    ensures steady { (platform : Platform) (w : Components) → AllRunFor platform w.parts → AllRunFor platform (steadied w).parts }
    ensures change { (platform : Platform) (fs : ListOf Fitted) (counts : ListOf ℕ) (steady : Bool) (w : Components) → AllFor platform fs →
        AllRunFor platform w.parts → AllRunFor platform (changed_to fs counts steady w).parts }
{
    recipe_laws();
}
