//! One component.
ghost use Rattle.std.specs.Prelude.{◌≡◌, ℕ, Bool, ◌<◌, ◌≤◌, ◌^◌, ◌&&◌, ◌||◌, ◌∷◌, [], not, true, false, None, Some, is_some, option_map, if◌then◌else◌, IfSome};
ghost use Rattle.components.specs.Fitted.{prepared_of, limit_of, steps_of, is_same_item};
ghost use Rattle.components.specs.Components.{component_name, without_child, is_orphan, is_up as is_state_up, is_running as is_state_running};
ghost use Rattle.components.specs.Components.{is_broken as is_state_broken, is_to_stop, stands_up, is_over, has_orphan as has_an_orphan, is_spared};
ghost use Rattle.components.specs.Turns.{may_retry, serves_softly, is_begun, is_late, is_unstarted, is_to_start, coming_needs};
ghost use Rattle.components.specs.Lives.{lived, drops};
ghost use Rattle.components.specs.Runs.{IsShort};
ghost use Rattle.components.specs.Rows.{is_begin_ready, is_stop_ready, taken_item};
ghost use Rattle.components.specs.Events.{with_child, kill_event};
ghost use Rattle.components.specs.Changes.{leaving, forgetting, fresh_part, is_replaced, is_replacing, with_texts, replacing, staying, coming_again, meeting};
ghost use Rattle.components.specs.Deadlines.{deadline_after, has_passed};
ghost use Rattle.components.specs.Readied.{IsFresh, coming_of};
ghost use Rattle.components.specs.Flags.{may_by};
ghost use Rattle.components.specs.Marks.{may_restart, may_replan};
ghost use Rattle.components.specs.Acts.{HasStart, kills};
ghost use Rattle.supervisor.specs.Deeds.{HasChild, IsFor, has_deed};
ghost use Rattle.supervisor.specs.Holds.{asks_for_good};
ghost use Rattle.components.specs.Views.{shown_at};
ghost use Rattle.components.specs.Whole.{IsWhole};
ghost use Rattle.lifecycle.specs.Awaits.{is_awaited};
ghost use Rattle.step_runner.specs.Views.{shown_as};

use crate::acting::Deed;
use crate::children::{Children, has_child_of, has_orphan, is_late_child, outlives, overdue};
use crate::fitted::FittedItem;
use crate::lives;
use crate::needs::{Need, User};
use components::{Child, Prepared};
use lifecycle::{After, Component, LifeEvent};
use nuc_base::{Exit, Name, Step};
use std::cell::Cell;
use std::marker::Model;
use std::mem::{replace, swap};
use step_runner::ViewedComponent;

const LAST_MOMENT: u64 = (1 << 62) - 1;

/// A component as it runs.
#[derive(Drop)]
pub struct Slot {
    fitted: FittedItem,
    life: Component,
    children: Children,
    handed: bool,
    owed: Option<(Step, Exit)>,
    stop: Option<After>,
    /// The item, None where it is its own, and the failures that it takes once it is stopped with Again.
    next: Option<(Option<FittedItem>, u8)>,
    /// The first of those that need it hard, as far as they are known.
    first_user: Cell<Option<User>>,
    /// The number of a hard need that was not met the last time.
    missing: Cell<usize>,
    /// While marks spread, the next one that is still to be gone on from.
    rest: Cell<Option<usize>>,
}

impl Model for Slot {
    ghost use Rattle.components.specs.Components.{ComponentState};
    ghost use Rattle.components.specs.Rows.{next_of};
    ghost use Rattle.components.specs.Runs.{IsKeptPart};
    ghost use Rattle.std.specs.Coded.{codes};
    ghost use Rattle.supervisor.specs.Coding.{data_code};

    ghost Value = { ComponentState };

    ghost coded = { Prim.hlevel (codes, data_code) };

    ghost view = { λ s. record {
      fitted = s.fitted;
      life = s.life;
      children = s.children;
      handed = s.handed;
      owed = s.owed;
      stop = s.stop;
      next =
          next_of s.fitted s.next;
    } };

    ghost invariant = { λ s. IsKeptPart (record {
      fitted = s.fitted;
      life = s.life;
      children = s.children;
      handed = s.handed;
      owed = s.owed;
      stop =
          s.stop;
      next = next_of s.fitted s.next;
    }) };
}

/// Until when a step may take that is started at this moment.
fn deadline(limit: Option<u64>, moment: u64) -> Option<u64>
    requires { moment < 2 ^ 62 }
    ensures { result ≡ deadline_after limit moment }
{
    match limit {
        None => None,
        Some(limit) => {
            if limit > LAST_MOMENT - moment {
                Some(LAST_MOMENT)
            } else {
                Some(moment + limit)
            }
        }
    }
}

fn limit_in(step: Option<&Prepared>) -> Option<u64>
    ensures { result ≡ limit_of (option_map (λ m. m.now) step.entry) }
{
    match step {
        None => None,
        Some(step) => step.limit_ms,
    }
}

impl Slot {
    pub(crate) fn name(&self) -> &Name
        ensures { result.now ≡ component_name self.now }
    {
        self.fitted.name()
    }

    pub(crate) fn fitted(&self) -> &FittedItem
        ensures { result.now ≡ self.now.fitted }
    {
        &self.fitted
    }

    pub(crate) fn step(&self, step: Step) -> Option<&Prepared>
        ensures { option_map (λ m. m.now) result ≡ prepared_of self.now.fitted step }
    {
        self.fitted.step(step)
    }

    pub(crate) fn children(&self) -> &[Child]
        ensures { result.now ≡ self.now.children }
    {
        self.children.as_slice()
    }

    pub(crate) fn owed(&self) -> Option<(Step, Exit)>
        ensures { result ≡ self.now.owed }
    {
        self.owed
    }

    pub(crate) fn is_broken(&self) -> bool
        ensures { result ≡ is_state_broken self.now.life.state }
    {
        lives::is_broken(self.life.state())
    }

    pub(crate) fn is_gone(&self) -> bool
        ensures { result ≡ self.now.life.gone }
    {
        self.life.is_gone()
    }

    pub(crate) fn is_up(&self) -> bool
        ensures { result ≡ is_state_up self.now.life.state }
    {
        lives::is_up(self.life.state())
    }

    fn is_running(&self) -> bool
        ensures { result ≡ is_state_running self.now.life.state }
    {
        lives::is_running(self.life.state())
    }

    pub(crate) fn has_orphan(&self) -> bool
        ensures { result ≡ has_an_orphan self.now }
    {
        has_orphan(self.children.as_slice(), &self.life)
    }

    /// Whether a stop is asked for, or under way.
    pub(crate) fn is_to_stop(&self) -> bool
        ensures { result ≡ is_to_stop self.now }
    {
        self.stop.is_some() || (lives::is_stopping(self.life.state()) || self.has_orphan())
    }

    /// Whether it is running or finished, and not to be stopped.
    pub(crate) fn stands_up(&self) -> bool
        ensures { result ≡ stands_up self.now }
    {
        self.is_up() && !(self.is_to_stop() || self.life.is_gone())
    }

    /// Whether one that needs it softly may begin.
    pub(crate) fn serves_softly(&self) -> bool
        ensures { result ≡ serves_softly self.now }
    {
        self.stands_up() || (self.is_broken() && !(self.is_to_stop() || self.life.is_gone()))
    }

    /// Whether it stands no more.
    pub(crate) fn is_over(&self) -> bool
        ensures { result ≡ is_over self.now }
    {
        self.life.is_gone() && self.children.as_slice().is_empty()
    }

    /// What is shown of it, where it stands.
    pub(crate) fn viewed(&self) -> Option<ViewedComponent<'_>>
        ensures { option_map shown_as result ≡ shown_at self.now }
    {
        if self.is_over() {
            return None;
        }
        Some(ViewedComponent {
            name: self.name().as_str(),
            version: self.fitted.version().as_str(),
            state: self.life.state(),
            failures: self.life.failures(),
            is_to_stop: self.is_to_stop(),
        })
    }

    /// Whether it may be restarted at a change.
    pub(crate) fn may_replan(&self) -> bool
        ensures { result ≡ may_replan self.now }
    {
        !(self.is_to_stop() || self.life.is_gone())
    }

    /// Whether it may be restarted where another one failed.
    pub(crate) fn may_restart(&self) -> bool
        ensures { result ≡ may_restart self.now }
    {
        (lives::is_starting(self.life.state()) || self.is_up()) && self.may_replan()
    }

    pub(crate) fn may_retry(&self) -> bool
        ensures { result ≡ may_retry self.now }
    {
        self.life.awaits(LifeEvent::Retry) && !self.is_to_stop()
    }

    /// Whether it may begin where what it needs is there.
    pub(crate) fn waits(&self) -> bool
        ensures { result ≡ is_begin_ready self.now }
    {
        self.life.awaits(LifeEvent::MayBegin) && !self.is_to_stop()
    }

    /// The step that was begun and of which no child lives.
    pub(crate) fn unstarted(&self) -> Option<Step>
        ensures is_some { is_some result ≡ is_unstarted self.now }
        ensures begun { IfSome result (λ s. is_begun s self.now ≡ true) }
    {
        match self.life.busy() {
            None => None,
            Some(step) => {
                if has_child_of(self.children.as_slice(), step) {
                    None
                } else {
                    Some(step)
                }
            }
        }
    }

    pub(crate) fn is_to_start(&self) -> bool
        ensures { result ≡ is_to_start self.now }
    {
        self.unstarted().is_some() && !self.handed
    }

    /// The stop that is asked for, where its turn has come but for those that need it.
    pub(crate) fn due_stop(&self) -> Option<After>
        ensures is { IfSome result (λ a. self.now.stop ≡ Some a) }
        ensures due { is_some result ≡ is_stop_ready self.now }
    {
        match self.stop {
            None => None,
            Some(after) => {
                let awaits = self.life.awaits(LifeEvent::Stop(after));
                if awaits && !(self.has_orphan() || self.unstarted().is_some()) {
                    Some(after)
                } else {
                    None
                }
            }
        }
    }

    /// Whether it asks for a stop with Again or Gone, and its turn has come but for those that reach it.
    pub(crate) fn asks_for_good(&self) -> bool
        ensures { result ≡ asks_for_good self.now }
    {
        match self.due_stop() {
            None => false,
            Some(after) => !matches!(after, After::Restart),
        }
    }

    /// The step whose start is to be handed out.
    #[tactic(auto, using(crate::proofs::Asked::start_of))]
    fn to_start(&self) -> Option<Step>
        ensures is_some { is_some result ≡ is_to_start self.now }
        ensures start { IfSome result (λ t. HasStart t self.now) }
    {
        match self.unstarted() {
            None => None,
            Some(step) => { if self.handed { None } else { Some(step) } }
        }
    }

    fn has_shutdown(&self) -> bool
        ensures { result ≡ self.now.life.steps.shutdown }
    {
        let _ = &self.life;
        self.fitted.step(Step::Shutdown).is_some()
    }

    /// Whether a stop would begin with its shutdown.
    fn shuts_down(&self) -> bool
        ensures { result ≡ (is_state_running self.now.life.state && self.now.life.steps.shutdown) }
    {
        self.is_running() && self.has_shutdown()
    }

    /// Whether one of its steps, or its run child, is there to be ended.
    fn is_at_work(&self) -> bool
        ensures { result ≡ (self.now.life.runs || is_some self.now.life.busy) }
    {
        self.life.runs() || self.life.busy().is_some()
    }

    /// Whether the stop kills its children.
    fn stop_kills(&self, after: After) -> bool
        requires { is_awaited (LifeEvent.Stop after) self.now.life ≡ true }
        ensures { result ≡ kills (LifeEvent.Stop after) self.now }
    {
        !self.shuts_down() && self.is_at_work()
    }

    /// A child that is late, or that outlived the stop.
    fn overdue(&self, moment: u64) -> Option<u64>
        ensures is_some { is_some result ≡ (is_late moment self.now || has_an_orphan self.now) }
        ensures child { IfSome result (λ n. HasChild (λ c. has_passed moment c.deadline || is_orphan self.now.life c.of) n self.now) }
    {
        match overdue(self.children.as_slice(), &self.life, moment) {
            None => None,
            Some(child) => Some(child.number),
        }
    }

    /// What it has to do where its stop may be given.
    fn stop_deed(&self, after: After) -> Deed
        requires asked { self.now.stop ≡ Some after }
        requires ready { is_stop_ready self.now ≡ true }
        requires whole { IsWhole self.now }
        ensures { (moment : ℕ) (begins : Bool) → IsFor moment begins (Some after) self.now result }
    {
        if !self.stop_kills(after) {
            return Deed::Moves(LifeEvent::Stop(after));
        }
        match self.children().first() {
            Some(child) => Deed::Kills(child.number),
            None => unreachable!(),
        }
    }

    /// What it has to do, by whether it may begin and which stop may be given.
    pub(crate) fn deed(&self, moment: u64, begins: bool, stop: Option<After>) -> Option<Deed>
        requires given { IfSome stop (λ a. (self.now.stop ≡ Some a) × (is_stop_ready self.now ≡ true)) }
        requires whole { IsWhole self.now }
        ensures is_some { is_some result ≡ has_deed moment begins stop self.now }
        ensures deed { IfSome result (IsFor moment begins stop self.now) }
    {
        if begins {
            return Some(Deed::Moves(LifeEvent::MayBegin));
        }
        if self.may_retry() {
            return Some(Deed::Moves(LifeEvent::Retry));
        }
        if let Some(number) = self.overdue(moment) {
            return Some(Deed::Kills(number));
        }
        if let Some(after) = stop {
            return Some(self.stop_deed(after));
        }
        match self.to_start() {
            None => None,
            Some(step) => Some(Deed::Starts(step)),
        }
    }

    /// An event of the table.
    fn move_by(&mut self, steady: bool, event: LifeEvent)
        ensures { self.new ≡ lived steady event self.old }
    {
        if !self.life.awaits(event) {
            return;
        }
        let was = self.life.state();
        let busy = self.life.busy();
        let way = self.life.stop();
        let act = self.life.step(event);
        let now = self.life.state();
        lives::forget_where(
            lives::both(steady, lives::succeeds(was, busy, now)),
            &mut self.life,
        );
        let spared = lives::is_spared(self.stop, &self.life);
        self.owed = lives::owed_after(act, spared, self.owed);
        self.stop = lives::stop_after(event, self.stop);
        let again = lives::is_again(lives::completed(event, was, way, now));
        lives::take_where(again, &mut self.fitted, &mut self.life, &mut self.next);
    }

    /// An event of the table. The answer is whether it left RUNNING or FINISHED by an error.
    pub(crate) fn live(&mut self, steady: bool, event: LifeEvent) -> bool
        ensures lived { self.new ≡ lived steady event self.old }
        ensures drops { result ≡ drops steady event self.old }
    {
        let was_up = self.is_up();
        let stops = self.is_to_stop();
        self.move_by(steady, event);
        was_up && (!self.is_up() && !stops)
    }

    /// Its start is answered: the child of this number lives.
    pub(crate) fn start_child(&mut self, number: u64, step: Step, moment: u64)
        requires time { moment < 2 ^ 62 }
        requires begun { is_begun step self.old ≡ true }
        ensures started { self.new ≡ with_child number step moment (record self.old { handed = false }) }
        ensures short { IsShort (limit_of (prepared_of self.old.fitted step)) }
    {
        let limit = limit_in(self.fitted.step(step));
        self.handed = false;
        self.children.push(Child {
            number,
            of: step,
            deadline: deadline(limit, moment),
        });
    }

    pub(crate) fn remove_child(&mut self, number: u64)
        ensures { self.new ≡ without_child number self.old }
    {
        self.children.remove(number);
    }

    pub(crate) fn set_handed(&mut self, handed: bool)
        ensures { self.new ≡ record self.old { handed = handed } }
    {
        self.handed = handed;
    }

    /// Whether a child of the step would be one that outlived the stop.
    pub(crate) fn is_orphan(&self, step: Step) -> bool
        ensures { result ≡ is_orphan self.now.life step }
    {
        outlives(step, &self.life)
    }

    /// What the kill of its child is to it.
    pub(crate) fn kill_event(&self, step: Step, number: u64, moment: u64) -> Option<LifeEvent>
        ensures { result ≡ kill_event moment number step self.now }
    {
        if is_late_child(self.children.as_slice(), number, moment) {
            return Some(LifeEvent::Ended(step, Exit::TimedOut));
        }
        match self.stop {
            None => None,
            Some(after) => Some(LifeEvent::Stop(after)),
        }
    }

    /// The failure that is owed was handed out.
    pub(crate) fn tell(&mut self)
        ensures { self.new ≡ record self.old { owed = None } }
    {
        self.owed = None;
    }

    fn may_by(&self, anyway: bool) -> bool
        ensures { result ≡ may_by anyway self.now }
    {
        if anyway {
            self.may_replan()
        } else {
            self.may_restart()
        }
    }

    /// It is to be restarted, where it is reached and may be.
    pub(crate) fn restart_by(&mut self, reached: bool, anyway: bool)
        ensures { self.new ≡ (if reached && may_by anyway self.old then record self.old { stop = Some After.Restart } else self.old) }
    {
        if reached && self.may_by(anyway) {
            self.stop = Some(After::Restart);
        }
    }

    pub(crate) fn hard(&self) -> &[Need]
        ensures { result.now ≡ self.now.fitted.hard }
    {
        self.fitted.hard()
    }

    pub(crate) fn soft(&self) -> &[Need]
        ensures { result.now ≡ self.now.fitted.soft }
    {
        self.fitted.soft()
    }

    /// The item that takes the place of its own, where there is another one.
    pub(crate) fn coming(&self) -> Option<&FittedItem> {
        match &self.next {
            None => None,
            Some(next) => next.0.as_ref(),
        }
    }

    /// The item that it takes at the end of the stop that is under way.
    pub(crate) fn taken(&self) -> Option<&FittedItem>
        ensures { coming_needs self.now ≡ elim (option_map (λ f. f.now) result) [ None ↦ [] | Some f ↦ f.hard ] }
    {
        if !lives::is_again(lives::under_way(&self.life)) {
            return None;
        }
        match &self.next {
            None => None,
            Some(next) => match &next.0 {
                None => Some(&self.fitted),
                Some(item) => Some(item),
            },
        }
    }

    pub(crate) fn first_user(&self) -> Option<User> {
        self.first_user.get()
    }

    pub(crate) fn set_first_user(&self, user: Option<User>) {
        self.first_user.set(user);
    }

    pub(crate) fn missing(&self) -> usize {
        self.missing.get()
    }

    pub(crate) fn set_missing(&self, need: usize) {
        self.missing.set(need);
    }

    pub(crate) fn rest(&self) -> Option<usize> {
        self.rest.get()
    }

    pub(crate) fn set_rest(&self, first: Option<usize>) {
        self.rest.set(first);
    }

    /// It is to be stopped for good.
    pub(crate) fn leave(&mut self)
        ensures { self.new ≡ leaving self.old }
    {
        if self.life.is_gone() {
            return;
        }
        if lives::is_gone(lives::under_way(&self.life)) {
            self.stop = None;
        } else {
            self.stop = Some(After::Gone);
        }
        self.next = None;
    }

    /// The failures so far are forgotten.
    pub(crate) fn forget(&mut self)
        ensures { self.new ≡ forgetting self.old }
    {
        self.life.forget();
        if let Some(next) = &mut self.next {
            next.1 = 0;
        }
    }

    fn is_spared(&self) -> bool
        ensures { result ≡ is_spared self.now }
    {
        lives::is_spared(self.stop, &self.life)
    }

    /// Whether the item that comes for it takes its place.
    fn is_replaced(&self, item: &FittedItem) -> bool
        ensures { result ≡ is_replaced item.now self.now }
    {
        !item.is_same_item(&self.fitted) || (self.is_spared() || self.is_broken())
    }

    /// Whether another item, or its own one anew, takes its place.
    pub(crate) fn is_replacing(&self) -> bool
        ensures { result ≡ is_replacing self.now }
    {
        self.next.is_some()
    }

    /// It takes its item as it is expanded now. Another item is given back.
    fn take_texts(&mut self, item: FittedItem) -> Option<FittedItem>
        requires same { is_same_item item.item self.old.fitted.item ≡ true → steps_of item ≡ steps_of self.old.fitted }
        ensures texts { self.new ≡ with_texts item self.old }
        ensures other { taken_item self.new.fitted result ≡ item }
    {
        if !item.is_same_item(&self.fitted) {
            return Some(item);
        }
        let earlier = replace(&mut self.fitted, item);
        self.next = lives::keep_next(self.next.take(), earlier);
        None
    }

    /// It is to be stopped with Again, and then takes the item, where None is its own one.
    fn replace(&mut self, item: Option<FittedItem>, failures: u8)
        requires { failures < 3 }
        ensures { self.new ≡ replacing (taken_item self.old.fitted item, failures) self.old }
    {
        self.next = Some((item, failures));
        self.stop = Some(After::Again);
        if !lives::stops_for_good(&self.life) {
            return;
        }
        lives::end_as_restart(&mut self.life);
    }

    /// It stays as it is, with these failures.
    fn stay(&mut self, failures: u8)
        requires { failures < 3 }
        ensures { self.new ≡ record self.old { life = record self.old.life { failures = failures } } }
    {
        self.life.set_failures(failures);
    }

    /// It stands, and this item comes for it.
    fn meet_item(&mut self, item: FittedItem, failures: u8)
        requires few { failures < 3 }
        requires same { is_same_item item.item self.old.fitted.item ≡ true → steps_of item ≡ steps_of self.old.fitted }
        ensures { self.new ≡ (if is_replaced item self.old then replacing (item, failures) (with_texts item self.old) else staying (item, failures)
            (with_texts item self.old)) }
    {
        let anew = self.is_replaced(&item);
        let other = self.take_texts(item);
        if anew {
            self.replace(other, failures);
        } else {
            drop(other);
            self.stay(failures);
        }
    }

    /// The other one gets its children.
    fn give_children(&mut self, other: &mut Slot)
        ensures { other.new ≡ record other.old { children = self.old.children } }
    {
        swap(&mut self.children, &mut other.children);
    }

    /// It is gone, and its child is still to be killed: it is a new component that still has that child.
    fn come_again(&mut self, mut coming: Slot)
        requires { IsFresh coming }
        ensures { self.new ≡ coming_again (coming_of coming) self.old }
    {
        self.give_children(&mut coming);
        swap(self, &mut coming);
        drop(coming);
    }

    /// The item of one that did not stand before, and its failures.
    fn into_coming(self) -> (FittedItem, u8)
        ensures { result ≡ coming_of self }
    {
        let failures = self.life.failures();
        (self.fitted, failures)
    }

    /// What comes is of its name.
    pub(crate) fn meet(&mut self, coming: Slot)
        requires fresh { IsFresh coming }
        requires same { is_same_item coming.fitted.item self.old.fitted.item ≡ true → steps_of coming.fitted ≡ steps_of self.old.fitted }
        ensures { self.new ≡ meeting (coming_of coming) self.old }
    {
        if self.is_gone() {
            self.come_again(coming);
        } else {
            let coming = coming.into_coming();
            self.meet_item(coming.0, coming.1);
        }
    }

    /// It is one that did not stand before, and begins with these failures.
    pub(crate) fn begin_with(&mut self, failures: u8)
        requires few { failures < 3 }
        requires fresh { IsFresh self.old }
        ensures { self.new ≡ fresh_part (self.old.fitted, failures) }
    {
        self.life.set_failures(failures);
    }

    /// One that did not stand before.
    pub(crate) fn fresh(fitted: FittedItem, children: Children, failures: u8) -> Slot
        requires few { failures < 3 }
        requires alone { children ≡ [] }
        ensures { result ≡ fresh_part (fitted, failures) }
    {
        let life = Component::new(fitted.steps(), failures);
        Slot {
            fitted,
            life,
            children,
            handed: false,
            owed: None,
            stop: None,
            next: None,
            first_user: Cell::new(None),
            missing: Cell::new(0),
            rest: Cell::new(None),
        }
    }
}
