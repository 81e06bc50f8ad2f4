// The revisions of one group that a device took.
ghost use Rattle.std.specs.Prelude.{◌≡◌, ◌+◌, ◌<◌, ◌∷◌, ◌++◌, [], OnOk, OnErr};
ghost use Rattle.fleet_core.specs.Takings.{level, AreBy};

use nuc_base::NoMemory;
use std::alloc::Global;
use std::marker::Model;

/// A device took a document.
#[derive(Clone, Copy, Debug, PartialEq, Eq)]
pub struct Taking {
    /// How many reports the fleet had sent before.
    pub reports: u32,
    /// The revision of the document.
    pub revision: u64,
}

/// The documents of one group that a device took, the first one first.
#[derive(Debug, Drop)]
pub(crate) struct History {
    takings: Vec<Taking>,
}

impl Model for History {
    ghost use Rattle.std.specs.Prelude.{List};
    ghost use Rattle.fleet_core.specs.declared.history.Taking.{Taking};
    ghost use Rattle.fleet_core.specs.Takings.{IsRising};

    ghost Value = { List Taking };

    ghost view = { λ h. h.takings.items };

    ghost invariant = { λ h. IsRising h.takings.items };
}

impl History {
    /// None was taken yet.
    pub(crate) fn empty(alloc: Global) -> History
        ensures { result ≡ [] }
    {
        History {
            takings: Vec::new(alloc),
        }
    }

    /// The revision that was kept when fewer than so many reports had been sent: 0 where none was taken then.
    pub(crate) fn level(&self, reports: u32) -> u64
        ensures { result ≡ level reports self.now }
    {
        let count = self
            .takings
            .partition_point(|taking| taking.reports < reports);
        if count == 0 {
            return 0;
        }
        self.takings[count - 1].revision
    }

    /// Adds a document that is newer than all before it. Where memory is refused nothing changes.
    pub(crate) fn add(&mut self, taking: Taking) -> Result<(), NoMemory>
        requires later { AreBy taking.reports self.old }
        requires newer { level (taking.reports + 1) self.old < taking.revision }
        ensures ok { OnOk result (self.new ≡ self.old ++ taking ∷ []) }
        ensures err { OnErr result (self.new ≡ self.old) }
    {
        self.takings.push(taking)?;
        Ok(())
    }
}
