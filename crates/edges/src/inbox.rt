ghost use Rattle.std.specs.Prelude.{◌≡◌, ◌≤◌, ◌+◌, ℕ, IsTrue, IfOk, IfSome, OnOk, OnErr, IsErrOf, MatchResult};
ghost use Rattle.std.specs.Option.{option_map};
ghost use Rattle.std.specs.declared.option.Option.{Option};
ghost use Rattle.nuc_base.specs.Faults.{Rose, HasCause};
ghost use Rattle.edges.specs.declared.answered.Answered.{Answered as Answers};
ghost use Rattle.edges.specs.Inboxes.{kind_of, after_answer, after_done};
ghost use Rattle.edges.specs.Waiting.{Waiting, next_of, IsShort, without_first};

use crate::answered::Kind;
use crate::source::EdgeFault;
use nuc_base::{Bytes, NoMemory};
use std::alloc::Global;

/// What an inbox gives: a document, or that there is none now, or that none will come any more.
#[derive(Debug, Drop)]
pub enum Incoming {
    Document(Bytes),
    Nothing,
    Closed,
}

impl Incoming {
    pub fn kind(&self) -> Kind
        ensures { result ≡ kind_of self.now }
    {
        match self {
            Incoming::Document(_) => Kind::Document,
            Incoming::Nothing => Kind::Nothing,
            Incoming::Closed => Kind::Closed,
        }
    }
}

/// Why an inbox gave nothing: it failed, or memory was refused.
#[derive(Clone, Copy, Debug, PartialEq, Eq)]
pub enum InboxFault {
    Failed,
    NoMemory,
}

impl From<NoMemory> for InboxFault {
    ghost use Rattle.edges.specs.declared.inbox.InboxFault.TheVariants.{NoMemory as OutOfMemory};

    ghost from_gives = { λ _ e. e ≡ OutOfMemory };

    fn from(_refused: NoMemory) -> InboxFault {
        InboxFault::NoMemory
    }
}

/// Where deployment documents come from, one after another. A call answers its fault where the count rose, and else
/// not. Every inbox tells how it answered.
pub trait Inbox {
    ghost use Rattle.std.specs.declared.result.Result.{Result};
    ghost use Rattle.edges.specs.declared.inbox.Incoming.{Incoming};
    ghost use Rattle.edges.specs.declared.inbox.InboxFault.{InboxFault};
    ghost use Rattle.edges.specs.declared.source.EdgeFault.{EdgeFault};

    /// The documents that are not done, and whether the inbox was closed, where they are told.
    ghost waiting: { Self → Option Waiting };

    /// What a question may be answered that leads from the one inbox to the other.
    ghost asks: { Self → Self → Result Incoming InboxFault → Type 0 };

    /// What the end of a document may do that leads from the one inbox to the other.
    ghost ends: { Self → Self → Result (Unit {0}) EdgeFault → Type 0 };

    /// How it has answered.
    ghost answered: { Self → Answers };

    /// How often it has failed.
    ghost faults: { Self → ℕ };

    /// The first document that is not done, whole or its first 524,289 bytes. Where all are done, `Closed` exactly
    /// where the inbox was closed, and else `Nothing`.
    fn next(&mut self, alloc: Global) -> Result<Incoming, InboxFault>
        ensures asks { asks self.old self.new result }
        ensures told { IfOk result (λ incoming. IfSome (waiting self.old) (λ w. incoming ≡ next_of w.documents w.closed)) }
        ensures short { IfOk result IsShort }
        ensures waiting { waiting self.new ≡ waiting self.old }
        ensures counted { IfOk result (λ incoming. answered self.new ≡ after_answer (kind_of incoming) (answered self.old)) }
        ensures uncounted { OnErr result (answered self.new ≡ answered self.old) }
        ensures cause { IsErrOf result InboxFault.Failed → Rose (faults self.old) (faults self.new) }
        ensures later { faults self.old ≤ faults self.new }
        ensures quiet { ¬ (IsErrOf result InboxFault.Failed) → faults self.new ≡ faults self.old };

    /// Drops the document that `next` gave.
    fn done(&mut self) -> Result<(), EdgeFault>
        requires { IsTrue (answered self.old).is_given }
        ensures ends { ends self.old self.new result }
        ensures told { MatchResult result (λ _. waiting self.new ≡ option_map without_first (waiting self.old)) (λ _. waiting self.new ≡ waiting self.old) }
        ensures counted { OnOk result (answered self.new ≡ after_done (answered self.old)) }
        ensures uncounted { OnErr result (answered self.new ≡ answered self.old) }
        ensures cause { HasCause (faults self.old) (faults self.new) result }
        ensures quiet { OnOk result (faults self.new ≡ faults self.old) };
}
