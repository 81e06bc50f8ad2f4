//! The components of a device, and what is handed out.
ghost use Rattle.std.specs.Prelude.{◌≡◌, ◌≤◌, ◌<◌, ◌+◌, ◌^◌, ℕ, [], true, length, map, option_map, option_and_then, Some, IsSome, IfSome, IfOk, All, slice_get};
ghost use Rattle.std.specs.Prelude.{List as ListOf};
ghost use Rattle.std.specs.List.{AllByRecursion};
ghost use Rattle.nuc_base.specs.Leads.{HasPath};
ghost use Rattle.records.specs.Stored.{item_view};
ghost use Rattle.device.specs.Plans.{AreRising, item_name, AreRegularItems, NeedsByName, HasSomeRecipe};
ghost use Rattle.components.specs.Made.{AreFitted};
ghost use Rattle.components.specs.Acts.{NextAct};
ghost use Rattle.components.specs.Answers.{IsExpected, has_answered, is_steady, broken_count, broken_name, IsLivingAt, IsNextLiving, standing_count};
ghost use Rattle.components.specs.Changes.{changed_to, all_stopped, standing, steadied};
ghost use Rattle.components.specs.Deadlines.{least_deadline};
ghost use Rattle.components.specs.Events.{noticed, later};
ghost use Rattle.components.specs.Fitted.{prepared_of};
ghost use Rattle.components.specs.Components.{Components, At, component_name, is_settled, is_stopped};
ghost use Rattle.components.specs.Readied.{KeepSteps, Readied};

use crate::acting::next_in;
use crate::befall::befall_in;
use crate::changing::{forget_all, leave_all};
use crate::merging::change_in;
use crate::ready::{Ready, make_ready};
use crate::slot::Slot;
use crate::{asks, merging};
use components::{Act, Event, Mode, Supervise};
use nuc_base::{List, Name, NoMemory, Step};
use recipe_reader::Skip;
use records::{Item, Origin};
use std::alloc::Global;
use std::marker::Model;
use step_runner::{Command, View, ViewedComponent};

/// The components of a device as they run, in the order of their names; they are numbered from 0. Contracts see it as a
/// world of components.
#[derive(Drop)]
pub struct Supervisor {
    slots: Vec<Slot>,
    flags: Vec<bool>,
    moment: u64,
    steady: bool,
}

impl Model for Supervisor {
    ghost use Rattle.std.specs.Prelude.{◌≡◌, length};
    ghost use Rattle.components.specs.Components.{Components};
    ghost use Rattle.components.specs.Readied.{IsKept};
    ghost use Rattle.components.specs.Whole.{AreWhole};
    ghost use Rattle.std.specs.Coded.{codes};
    ghost use Rattle.supervisor.specs.Coding.{data_code};

    ghost Value = { Components };

    ghost coded = { Prim.hlevel (codes, data_code) };

    ghost view = { λ s. record { parts = s.slots.items; moment = s.moment; steady = s.steady } };

    ghost invariant = { λ s. IsKept (record { parts = s.slots.items; moment = s.moment; steady = s.steady }) × (length s.flags.items ≡ length s.slots.items) ×
        AreWhole s.slots.items };
}

impl Supervisor {
    /// No components yet, at moment 0, and no deployment is driven.
    pub fn new(alloc: Global) -> Supervisor
        ensures { result ≡ record { parts = []; moment = 0; steady = true } }
    {
        Supervisor {
            slots: Vec::new(alloc),
            flags: Vec::new(alloc),
            moment: 0,
            steady: true,
        }
    }

    /// Takes all memory that a later change to these items needs: the items with their steps expanded, and room beside them
    /// for the components that stand now. The items are at most 128 with strictly rising names, each recipe can be read for
    /// the platform of the device, and their dependencies have no cycle.
    pub fn ready(
        &self,
        alloc: Global,
        origin: &Origin,
        items: &List<Item>,
    ) -> Result<Ready, NoMemory>
        requires rise { AreRising (map item_name (map item_view items.now)) }
        requires few { length items.now ≤ 128 }
        requires recipes { AllByRecursion (λ i. HasSomeRecipe origin.now.platform i.recipe) (map item_view items.now) }
        requires acyclic { (name : ListOf ℕ) → HasPath (NeedsByName origin.now.platform (map item_view items.now)) name name → ⊥ }
        requires regular { AreRegularItems (map item_view items.now) }
        ensures made { IfOk result (λ r. AreFitted origin.now (map item_view items.now) r.coming) }
        ensures room { IfOk result (λ r. standing_count self.now ≤ r.room) }
    {
        make_ready(alloc, origin, items, self.slots.len())
    }

    /// What is to be done next: a failure first, else what the component of the least name that may act has to have done. None
    /// comes where no failure is owed and no component may act.
    pub fn next_act(&mut self) -> Option<Act>
        ensures next { NextAct self.old result self.new }
    {
        let moment = self.moment;
        let steady = self.steady;
        next_in(&mut self.slots, &mut self.flags, moment, steady)
    }

    /// Something befell a component at this moment, or time went on to it. The start that an event answers was handed out, the
    /// child that ended lives, and the number of a started child is that of none that lives. A moment is below 2^62, and not
    /// below an earlier one.
    pub fn event(&mut self, event: Event, moment: u64)
        requires answers { IsExpected self.old event }
        requires late { self.old.moment ≤ moment }
        requires in_time { moment < 2 ^ 62 }
        ensures { self.new ≡ noticed event (later moment self.old) }
    {
        let steady = self.steady;
        befall_in(&mut self.slots, &mut self.flags, event, moment, steady);
        self.moment = moment;
    }

    /// Other items are to run, each with the failures at its place. Those that go away, and those that are replaced, are stopped
    /// first. An item that a component that stands has already has the steps that it had, and each start that was handed out is
    /// answered.
    pub fn change(&mut self, ready: Ready, failures: &[u8; 128], mode: Mode)
        requires room { standing_count self.old ≤ ready.room }
        requires few { All (λ (n : ℕ). n < 3) failures.now }
        requires answered { has_answered self.old ≡ true }
        requires same { KeepSteps ready.coming (standing self.old.parts) }
        ensures { self.new ≡ changed_to ready.coming failures.now (is_steady mode) self.old }
    {
        change_in(&mut self.slots, &mut self.flags, ready, failures);
        self.steady = merging::is_steady(mode);
    }

    /// All components are to be stopped for good.
    pub fn stop_all(&mut self)
        ensures { self.new ≡ all_stopped self.old }
    {
        leave_all(&mut self.slots);
    }

    /// No deployment is driven from now on, and the failures so far are forgotten.
    pub fn steady(&mut self)
        ensures { self.new ≡ steadied self.old }
    {
        forget_all(&mut self.slots);
        self.steady = true;
    }

    /// Whether all components that stand are RUNNING or FINISHED, and none of them is to be stopped.
    pub fn settled(&self) -> bool
        ensures { result ≡ is_settled self.now }
    {
        asks::are_settled(self.slots.as_slice())
    }

    /// Whether no component stands, as once the stops of `stop_all` are done.
    pub fn stopped(&self) -> bool
        ensures { result ≡ is_stopped self.now }
    {
        asks::are_stopped(self.slots.as_slice())
    }

    /// The least name of a component that is BROKEN.
    pub fn broken(&self) -> Option<&Name>
        ensures { option_map (λ n. n.now) result ≡ broken_name self.now }
    {
        asks::broken_in(self.slots.as_slice())
    }

    /// How many components are BROKEN, and not to be stopped.
    pub fn broken_count(&self) -> usize
        ensures { result ≡ broken_count self.now }
    {
        asks::broken_among(self.slots.as_slice())
    }

    /// The least deadline of a living step, in milliseconds. It is at most 1,000,000,000 ms ahead.
    pub fn next_deadline(&self) -> Option<u64>
        ensures least { result ≡ least_deadline self.now }
        ensures near { IfSome result (λ d. d ≤ self.now.moment + 1000000000) }
    {
        asks::deadline_in(self.slots.as_slice())
    }

    /// The number of the child that so many living ones come before, in rising order of their numbers. A child lives until its
    /// kill was handed out or its end was told.
    pub fn living(&self, at: u32) -> Option<u64>
        ensures { IsLivingAt self.now at result }
    {
        asks::living_at(self.slots.as_slice(), at)
    }

    /// The number of the living child that comes after the last one in rising order, or first where there is no last one. So
    /// all can be gone over, however many they are.
    pub fn next_living(&self, last: Option<u64>) -> Option<u64>
        ensures { IsNextLiving self.now last result }
    {
        asks::next_number(self.slots.as_slice(), last)
    }

    /// The name of the component of this number.
    pub fn name(&self, component: u32) -> &Name
        requires { component < length self.now.parts }
        ensures { slice_get (map component_name self.now.parts) component ≡ Some result.now }
    {
        asks::name_at(self.slots.as_slice(), component)
    }

    /// What the step of the component of this number runs. Its recipe has the step.
    pub fn command(&self, component: u32, step: Step) -> &Command
        requires { At component (λ p. IsSome (prepared_of p.fitted step)) self.now.parts }
        ensures { At component (λ p. option_map (λ m. m.command) (prepared_of p.fitted step) ≡ Some result.now) self.now.parts }
    {
        asks::command_at(self.slots.as_slice(), component, step)
    }

    /// The probe by which the step of the component of this number is skipped. Its recipe has the step; None comes exactly
    /// where the step is never skipped.
    pub fn skip(&self, component: u32, step: Step) -> Option<&Skip>
        requires { At component (λ p. IsSome (prepared_of p.fitted step)) self.now.parts }
        ensures { At component (λ p. option_and_then (λ m. m.skip) (prepared_of p.fitted step) ≡ option_map (λ s. s.now) result) self.now.parts }
    {
        asks::skip_at(self.slots.as_slice(), component, step)
    }
}

impl View for Supervisor {
    ghost use Rattle.components.specs.Views.{places_of};

    ghost components = { places_of };

    fn places(&self) -> usize {
        self.slots.len()
    }

    fn component(&self, place: usize) -> Option<ViewedComponent<'_>> {
        asks::viewed_at(self.slots.as_slice(), place)
    }
}

impl Supervise for Supervisor {
    ghost use Rattle.components.proofs.Shown.{standing_shown};

    type Ready = Ready;

    ghost world = { λ (s : Components). s };

    ghost coming = { λ (r : Readied). r.coming };

    ghost room = { λ (r : Readied). r.room };

    fn ready(&self, alloc: Global, origin: &Origin, items: &List<Item>) -> Result<Ready, NoMemory> {
        Supervisor::ready(self, alloc, origin, items)
    }

    fn change(&mut self, ready: Ready, failures: &[u8; 128], mode: Mode) {
        Supervisor::change(self, ready, failures, mode);
    }

    fn next_act(&mut self) -> Option<Act> {
        Supervisor::next_act(self)
    }

    fn event(&mut self, event: Event, moment: u64) {
        Supervisor::event(self, event, moment);
    }

    fn stop_all(&mut self) {
        Supervisor::stop_all(self);
    }

    fn steady(&mut self) {
        Supervisor::steady(self);
    }

    fn settled(&self) -> bool {
        Supervisor::settled(self)
    }

    fn stopped(&self) -> bool {
        Supervisor::stopped(self)
    }

    fn broken(&self) -> Option<&Name> {
        Supervisor::broken(self)
    }

    fn broken_count(&self) -> usize {
        Supervisor::broken_count(self)
    }

    fn next_deadline(&self) -> Option<u64> {
        Supervisor::next_deadline(self)
    }

    fn living(&self, at: u32) -> Option<u64> {
        Supervisor::living(self, at)
    }

    fn next_living(&self, last: Option<u64>) -> Option<u64> {
        Supervisor::next_living(self, last)
    }

    fn name(&self, component: u32) -> &Name {
        Supervisor::name(self, component)
    }

    fn command(&self, component: u32, step: Step) -> &Command {
        Supervisor::command(self, component, step)
    }

    fn skip(&self, component: u32, step: Step) -> Option<&Skip> {
        Supervisor::skip(self, component, step)
    }

    ghost shows = { standing_shown };
}
