ghost use Rattle.std.specs.Prelude.{◌≡◌, ◌≤◌, ◌<◌, ◌+◌, ◌^◌, ℕ, true, length, map, option_map, option_and_then, Some, IsSome, IfSome, All, slice_get};
ghost use Rattle.std.specs.declared.option.Option.{Option};
ghost use Rattle.std.specs.Prelude.{List as ListOf, IfOk};
ghost use Rattle.std.specs.List.{AllByRecursion};
ghost use Rattle.nuc_base.specs.Leads.{HasPath};
ghost use Rattle.records.specs.Stored.{item_view};
ghost use Rattle.device.specs.Plans.{AreRising, item_name, AreRegularItems, NeedsByName, HasSomeRecipe};
ghost use Rattle.components.specs.Made.{AreFitted};
ghost use Rattle.components.specs.Acts.{NextAct};
ghost use Rattle.components.specs.Answers.{IsExpected, has_answered, is_steady, broken_count, broken_name, IsLivingAt, IsNextLiving, standing_count};
ghost use Rattle.components.specs.Changes.{changed_to, all_stopped, standing, steadied};
ghost use Rattle.components.specs.Deadlines.{least_deadline};
ghost use Rattle.components.specs.Events.{noticed, later};
ghost use Rattle.components.specs.Fitted.{Fitted, prepared_of};
ghost use Rattle.components.specs.Readied.{KeepSteps};
ghost use Rattle.components.specs.Views.{view_of};
ghost use Rattle.step_runner.specs.Views.{those_shown};
ghost use Rattle.components.specs.Components.{Components, At, component_name, is_settled, is_stopped};

use crate::kinds::{Act, Event, Mode};
use nuc_base::{List, Name, NoMemory, Step};
use recipe_reader::Skip;
use records::{Item, Origin};
use std::alloc::Global;
use step_runner::{Command, View};

/// The calls of a supervisor, by what each makes of the components, of which it is a view itself.
pub trait Supervise: View {
    /// What a later change takes: items that were made ready, and room for the components that stand.
    type Ready;

    /// The components.
    ghost world: { Self → Components };

    /// The items that were made ready.
    ghost coming: { Self.Ready → ListOf Fitted };

    /// For how many components that stand there is room.
    ghost room: { Self.Ready → ℕ };

    /// Takes all memory that a later change to these items needs. Their names rise strictly, and their needs have no cycle.
    fn ready(
        &self,
        alloc: Global,
        origin: &Origin,
        items: &List<Item>,
    ) -> Result<Self::Ready, NoMemory>
        requires rise { AreRising (map item_name (map item_view items.now)) }
        requires few { length items.now ≤ 128 }
        requires recipes { AllByRecursion (λ i. HasSomeRecipe origin.now.platform i.recipe) (map item_view items.now) }
        requires acyclic { (name : ListOf ℕ) → HasPath (NeedsByName origin.now.platform (map item_view items.now)) name name → ⊥ }
        requires regular { AreRegularItems (map item_view items.now) }
        ensures made { IfOk result (λ r. AreFitted origin.now (map item_view items.now) (coming r)) }
        ensures room { IfOk result (λ r. standing_count (world self.now) ≤ room r) };

    /// Other items are to run, each with the failures at its place. An item that a component that stands has already has the
    /// steps that it had, as where both were made ready for one platform.
    fn change(&mut self, ready: Self::Ready, failures: &[u8; 128], mode: Mode)
        requires room { standing_count (world self.old) ≤ room ready }
        requires few { All (λ (n : ℕ). n < 3) failures.now }
        requires answered { has_answered (world self.old) ≡ true }
        requires same { KeepSteps (coming ready) (standing (world self.old).parts) }
        ensures { world self.new ≡ changed_to (coming ready) failures.now (is_steady mode) (world self.old) };

    /// A failure first, else what the component of the least name that may act has to have done.
    fn next_act(&mut self) -> Option<Act>
        ensures next { NextAct (world self.old) result (world self.new) };

    /// Something befell a component, or time went on.
    fn event(&mut self, event: Event, moment: u64)
        requires answers { IsExpected (world self.old) event }
        requires late { (world self.old).moment ≤ moment }
        requires in_time { moment < 2 ^ 62 }
        ensures { world self.new ≡ noticed event (later moment (world self.old)) };

    /// All are to be stopped for good.
    fn stop_all(&mut self)
        ensures { world self.new ≡ all_stopped (world self.old) };

    /// No deployment is driven from now on.
    fn steady(&mut self)
        ensures { world self.new ≡ steadied (world self.old) };

    /// Whether all that stand are running or finished, and none is to be stopped.
    fn settled(&self) -> bool
        ensures { result ≡ is_settled (world self.now) };

    /// Whether none stands.
    fn stopped(&self) -> bool
        ensures { result ≡ is_stopped (world self.now) };

    /// The least name that is broken.
    fn broken(&self) -> Option<&Name>
        ensures { option_map (λ n. n.now) result ≡ broken_name (world self.now) };

    /// How many are broken, and not to be stopped.
    fn broken_count(&self) -> usize
        ensures { result ≡ broken_count (world self.now) };

    /// The least deadline of a living step.
    fn next_deadline(&self) -> Option<u64>
        ensures least { result ≡ least_deadline (world self.now) }
        ensures near { IfSome result (λ d. d ≤ (world self.now).moment + 1000000000) };

    /// The child that so many living ones come before, by their numbers.
    fn living(&self, at: u32) -> Option<u64>
        ensures { IsLivingAt (world self.now) at result };

    /// The living child of the least number above the last one, or of all where there is no last one.
    fn next_living(&self, last: Option<u64>) -> Option<u64>
        ensures { IsNextLiving (world self.now) last result };

    /// The name of the component of this number.
    fn name(&self, component: u32) -> &Name
        requires { component < length (world self.now).parts }
        ensures { slice_get (map component_name (world self.now).parts) component ≡ Some result.now };

    /// What the step of this component runs.
    fn command(&self, component: u32, step: Step) -> &Command
        requires { At component (λ p. IsSome (prepared_of p.fitted step)) (world self.now).parts }
        ensures { At component (λ p. option_map (λ m. m.command) (prepared_of p.fitted step) ≡ Some result.now) (world self.now).parts };

    /// Whether the step of this component may be skipped, and by what probe.
    fn skip(&self, component: u32, step: Step) -> Option<&Skip>
        requires { At component (λ p. IsSome (prepared_of p.fitted step)) (world self.now).parts }
        ensures { At component (λ p. option_and_then (λ m. m.skip) (prepared_of p.fitted step) ≡ option_map (λ s. s.now) result) (world self.now).parts };

    /// What it shows are the components that stand.
    ghost shows: { (s : Self) → those_shown (Self.components s) ≡ view_of (world s) };
}
