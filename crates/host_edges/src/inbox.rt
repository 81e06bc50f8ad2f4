ghost use Rattle.std.specs.Prelude.{◌≡◌, ◌≤◌, ◌+◌, None, length, IfOk, IfSome, OnOk, IsErrOf, ⊤};
ghost use Rattle.nuc_base.specs.Faults.{Rose, HasCause};
ghost use Rattle.edges.specs.Inboxes.{unanswered};
ghost use Rattle.edges.specs.Waiting.{IsShort};
ghost use Rattle.host_edges.specs.Real.{inbox_answered, inbox_faults};

use crate::tray::Tray;
use edges::{Answered, EdgeFault, Inbox, InboxFault, Incoming};
use host_files::Event;
use nuc_base::{Bytes, NoMemory};
use std::alloc::Global;
use std::fs::{File, Files};
use std::io;
use std::io::ErrorKind;
use std::rt::Clock;

/// The documents that were listed and are not done.
#[derive(Drop)]
struct Listed<'a, R: Files<File = File>> {
    tray: Tray<'a, R>,
    /// The name of the one that was taken and given.
    in_hand: Option<String>,
    /// The names of those that were taken before, the last one first.
    taken: Vec<String>,
    /// The names of those in the inbox, the last one first.
    names: Vec<String>,
}

impl<'a, R: Files<File = File> + Clock + AllocGlobal> Listed<'a, R> {
    fn new(rt: &'a R, root: &'a str) -> Result<Self, NoMemory> {
        let alloc = rt.alloc();
        Ok(Listed {
            tray: Tray::new(rt, root)?,
            in_hand: None,
            taken: Vec::new(alloc),
            names: Vec::new(alloc),
        })
    }

    /// The bytes of the document in hand, if there is one. One that cannot be had any more is not in hand any more.
    fn again(&mut self, alloc: Global) -> io::Result<Option<Bytes>>
        ensures { IfOk result (λ found. IfSome found (λ bytes. length bytes ≤ 524289)) }
    {
        let Some(name) = &self.in_hand else {
            return Ok(None);
        };
        let bytes = self.tray.read(alloc, name.as_str())?;
        if bytes.is_none() {
            self.in_hand = None;
        }
        Ok(bytes)
    }

    /// Takes in hand what was taken under this name, and gives its bytes.
    fn begin(&mut self, alloc: Global, name: String) -> io::Result<Option<Bytes>>
        ensures { IfOk result (λ found. IfSome found (λ bytes. length bytes ≤ 524289)) }
    {
        self.in_hand = Some(name);
        let found = self.again(alloc)?;
        if let (Some(name), Some(bytes)) = (&self.in_hand, &found) {
            self.tray.told.tell(&Event::Taken {
                name: name.as_str(),
                bytes: bytes.len(),
            });
        }
        Ok(found)
    }

    /// The first of those that were taken before.
    fn first_taken(&mut self, alloc: Global) -> io::Result<Option<Bytes>>
        ensures { IfOk result (λ found. IfSome found (λ bytes. length bytes ≤ 524289)) }
    {
        for _ in 0..self.taken.len() {
            let Some(name) = self.taken.pop() else {
                break;
            };
            let found = self.begin(alloc, name)?;
            if found.is_some() {
                return Ok(found);
            }
        }
        Ok(None)
    }

    /// The first of those in the inbox that can be taken.
    fn first_new(&mut self, alloc: Global) -> io::Result<Option<Bytes>>
        ensures { IfOk result (λ found. IfSome found (λ bytes. length bytes ≤ 524289)) }
    {
        for _ in 0..self.names.len() {
            let Some(name) = self.names.pop() else {
                break;
            };
            if !self.tray.take(name.as_str())? {
                continue;
            }
            let found = self.begin(alloc, name)?;
            if found.is_some() {
                return Ok(found);
            }
        }
        Ok(None)
    }

    /// The first of all that were listed, where it can be had.
    fn first(&mut self, alloc: Global) -> io::Result<Option<Bytes>>
        ensures { IfOk result (λ found. IfSome found (λ bytes. length bytes ≤ 524289)) }
    {
        let found = self.again(alloc)?;
        if found.is_some() {
            return Ok(found);
        }
        let found = self.first_taken(alloc)?;
        if found.is_some() {
            return Ok(found);
        }
        self.first_new(alloc)
    }

    /// What comes next. Once all that were listed are done, the folders are listed again. Whether the inbox is closed is
    /// asked before that, so that no document is missed that came before it was closed.
    fn next(&mut self, alloc: Global) -> io::Result<Incoming>
        ensures { IfOk result IsShort }
    {
        self.tray.make_room()?;
        if let Some(bytes) = self.first(alloc)? {
            return Ok(Incoming::Document(bytes));
        }
        let is_closed = self.tray.is_closed()?;
        self.list()?;
        match self.first(alloc)? {
            Some(bytes) => Ok(Incoming::Document(bytes)),
            None if is_closed => Ok(Incoming::Closed),
            None => Ok(Incoming::Nothing),
        }
    }

    fn list(&mut self) -> io::Result<()> {
        let mut names = self.tray.list_inbox()?;
        let mut taken = self.tray.list_taken()?;
        names.reverse();
        taken.reverse();
        self.names = names;
        self.taken = taken;
        Ok(())
    }

    /// Takes away the one in hand.
    fn put_away(&mut self) {
        if let Some(name) = self.in_hand.take() {
            self.tray.put_away(name);
        }
    }
}

/// The inbox in a folder: the plain files of `inbox` whose names are text and end in `.json`, in byte order of their names. A
/// document is moved into the folder `taken` before it is read, so that what comes under its name meanwhile is another
/// document; what stands in `taken` at the first call comes first. A document is done by its removal, or by a move into the folder
/// `handled` where that stands, and a file `inbox/closed` closes the inbox. The folders are listed once for all documents
/// that stand there, so one that comes later waits until these are done. What is no document, or cannot be taken or read now, is
/// passed over and tried at each listing; what cannot be taken away once it is done is passed over for good. A call fails where
/// the inbox cannot be listed, as where the root is gone. It tells nothing of what the documents hold, and counts its faults.
#[derive(Drop)]
pub struct FolderInbox<'a, R: Files<File = File>> {
    listed: Listed<'a, R>,
    answered: Answered,
    faults: u64,
}

impl<'a, R: Files<File = File> + Clock + AllocGlobal + Clone + Drop> FolderInbox<'a, R> {
    /// An empty root is the current folder. Nothing is read before the first call.
    pub fn new(rt: &'a R, root: &'a str) -> Result<Self, NoMemory>
        ensures answered { IfOk result (λ inbox. inbox_answered inbox ≡ unanswered) }
        ensures faults { IfOk result (λ inbox. inbox_faults inbox ≡ 0) }
    {
        Ok(FolderInbox {
            listed: Listed::new(rt, root)?,
            answered: Answered::none(),
            faults: 0,
        })
    }
}

impl<'a, R: Files<File = File> + Clock + AllocGlobal + Clone + Drop> Inbox for FolderInbox<'a, R> {
    ghost waiting = { λ inbox. None };

    ghost asks = { λ before after result. ⊤ };

    ghost ends = { λ before after result. ⊤ };

    ghost answered = { λ inbox. inbox_answered inbox };

    ghost faults = { λ inbox. inbox_faults inbox };

    fn next(&mut self, alloc: Global) -> Result<Incoming, InboxFault> {
        match self.listed.next(alloc) {
            Ok(incoming) => {
                self.answered.count(incoming.kind());
                Ok(incoming)
            }
            Err(error) if error.kind() == ErrorKind::OutOfMemory => Err(InboxFault::NoMemory),
            Err(error) => {
                self.listed.tray.tell_fault("next", &error);
                self.faults = self.faults.saturating_add(1);
                Err(InboxFault::Failed)
            }
        }
    }

    fn done(&mut self) -> Result<(), EdgeFault> {
        self.listed.put_away();
        self.answered.count_done();
        Ok(())
    }
}
