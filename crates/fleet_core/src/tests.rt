// A run of a fleet, step by step.
use crate::{Fleet, Happening};
use nuc_base::Bytes;
use std::alloc::Global;
use std::test::Fail;

/// What happens next.
#[derive(Clone, Copy, Debug, PartialEq, Eq)]
enum Next {
    Send,
    Deliver,
    Lose,
    Restart,
    Report,
    Hear,
}

/// What happens, with a number, and the reply. A document that is sent is of the group `g` to device 0, and the number is
/// its revision.
const STEPS: &[(Next, u32, &str)] = &[
    (Next::Send, 1, "Ok(Sent(0))"),
    (Next::Send, 2, "Ok(Sent(1))"),
    (Next::Deliver, 1, "Ok(Taken(0, \"g\", 2))"),
    (Next::Deliver, 0, "Ok(Stale(0, \"g\", 2))"),
    (Next::Deliver, 1, "Ok(Again(0, \"g\", 2))"),
    (Next::Lose, 0, "Ok(Lost(0))"),
    (Next::Deliver, 0, "Ok(Gone(0))"),
    (Next::Restart, 0, "Ok(Restarted(0))"),
    (Next::Report, 0, "Ok(Reported(0))"),
    (Next::Hear, 0, "Ok(Known(0, [(\"g\", 2)]))"),
    (Next::Send, 0, "Err(Document(BadRevision))"),
    (Next::Deliver, 2, "Err(NoPacket)"),
    (Next::Restart, 1, "Err(NoDevice)"),
    (Next::Hear, 1, "Err(NoReport)"),
];

/// A document of that revision.
fn document(alloc: Global, revision: u32) -> Result<Bytes, Fail> {
    let text = format!(in alloc;
        "{{\"targetArn\":\"g\",\"revision\":{revision},\"components\":{{}}}}"
    )?;
    Ok(Bytes::from_slice(alloc, text.as_bytes())?)
}

fn happening(alloc: Global, next: Next, number: u32) -> Result<Happening, Fail> {
    Ok(match next {
        Next::Send => Happening::Send(0, document(alloc, number)?),
        Next::Deliver => Happening::Deliver(number),
        Next::Lose => Happening::Lose(number),
        Next::Restart => Happening::Restart(number),
        Next::Report => Happening::Report(number),
        Next::Hear => Happening::Hear(number),
    })
}

/// The reply to what happens, in words.
fn said(alloc: Global, fleet: &mut Fleet, next: Next, number: u32) -> Result<String, Fail> {
    let happening = happening(alloc, next, number)?;
    let reply = fleet.step(happening);
    Ok(format!(in alloc; "{reply:?}")?)
}

#[test]
fn takes_no_older_revision(rt: HostRuntime) -> Result<(), Fail> {
    let alloc = rt.alloc();
    let mut fleet = Fleet::new(alloc, 1)?;
    for (next, number, wanted) in STEPS {
        let reply = said(alloc, &mut fleet, *next, *number)?;
        assert_eq!(rt; reply.as_str(), *wanted);
    }
    Ok(())
}
