//! The views that a runner in memory keeps.
ghost use Rattle.std.specs.Prelude.{◌≡◌, ◌∷◌, ◌++◌, [], Some, OnOk};
ghost use Rattle.step_runner.specs.Entries.{HasGrownBy};
ghost use Rattle.step_runner.specs.KeptViews.{views_kept, views_told, last_view};
ghost use Rattle.step_runner.specs.Views.{those_shown, WasShown};

use crate::shown::ShownComponent;
use crate::view::{View, copy_view};
use nuc_base::{List, NoMemory};
use std::alloc::Global;

/// The views that were shown. From the first one on for which there is no memory they are told no more.
#[derive(Drop)]
pub(crate) struct KeptViews {
    views: List<List<ShownComponent>>,
    is_told: bool,
}

impl KeptViews {
    pub(crate) fn new(alloc: Global) -> KeptViews
        ensures { views_told result ≡ Some [] }
    {
        KeptViews {
            views: List::empty(alloc),
            is_told: true,
        }
    }

    pub(crate) fn views(&self) -> &List<List<ShownComponent>>
        ensures { result.now ≡ views_kept self.now }
    {
        &self.views
    }

    /// Adds a copy of this view.
    fn add<V: View>(&mut self, alloc: Global, view: &V) -> Result<(), NoMemory>
        ensures { OnOk result (views_kept self.new ≡ views_kept self.old ++ those_shown (V.components view.now) ∷ []) }
    {
        let shown = copy_view(alloc, view)?;
        self.views.push(shown)?;
        Ok(())
    }

    /// Adds a copy of this view where they are still told and there is memory.
    pub(crate) fn keep<V: View>(&mut self, alloc: Global, view: &V)
        ensures kept { HasGrownBy (views_told self.old) (views_told self.new) (those_shown (V.components view.now) ∷ []) }
        ensures last { WasShown (last_view (views_told self.new)) (V.components view.now) }
    {
        self.is_told = self.is_told && self.add(alloc, view).is_ok();
    }
}
