// An inbox whose document comes late.
use edges::{Answered, EdgeFault, Inbox, InboxFault, Incoming};
use nuc_base::Bytes;
use std::alloc::Global;

/// Has nothing so many times, then a document that is no JSON, and then nothing. It tells nothing of what waits in it.
#[derive(Drop)]
pub(crate) struct LateInbox {
    early: u64,
    is_done: bool,
    answered: Answered,
}

impl LateInbox {
    pub(crate) fn new(early: u64) -> LateInbox {
        LateInbox {
            early,
            is_done: false,
            answered: Answered::none(),
        }
    }
}

impl Inbox for LateInbox {
    ghost use Rattle.std.specs.Prelude.{None, ⊤};

    ghost waiting = { λ i. None };

    ghost answered = { λ i. i.answered };

    ghost faults = { λ i. 0 };

    ghost asks = { λ old new result. ⊤ };

    ghost ends = { λ old new result. ⊤ };

    fn next(&mut self, alloc: Global) -> Result<Incoming, InboxFault> {
        let incoming = if self.early == 0 && !self.is_done {
            Incoming::Document(Bytes::from_slice(alloc, b"{")?)
        } else {
            Incoming::Nothing
        };
        self.early = self.early.saturating_sub(1);
        self.answered.count(incoming.kind());
        Ok(incoming)
    }

    fn done(&mut self) -> Result<(), EdgeFault> {
        self.is_done = true;
        self.answered.count_done();
        Ok(())
    }
}
