use edges::{
    EdgeFault, Inbox, InboxFault, Incoming, Kind, MemoryInbox, MemorySink, MemorySource, ReadFault,
    ReadSource, Sink, Source, WriteSink, read_up_to, write_pieces,
};
use nuc_base::{Bytes, List};
use std::alloc::{AllocError, Global};
use std::test::Fail;

fn calls(alloc: Global, numbers: &[u64]) -> Result<List<u64>, AllocError> {
    Ok(List::new(Vec::from_slice(alloc, numbers)?))
}

/// Whether these bytes are read of a source up to five bytes, by way of the bound.
fn reads<S: Source>(alloc: Global, source: &mut S, want: &[u8]) -> Result<bool, ReadFault> {
    let bytes = read_up_to(alloc, source, 5)?;
    Ok(bytes.as_slice() == want)
}

/// A source of seven bytes whose call 1, the second read, fails.
fn seven(alloc: Global) -> Result<MemorySource, Fail> {
    let failing = calls(alloc, &[1])?;
    Ok(MemorySource::new(Bytes::from_slice(alloc, b"seven b")?, failing))
}

/// What is written to a sink, by way of the bound.
fn print<K: Sink>(sink: &mut K) -> Result<(), EdgeFault> {
    write_pieces(sink, &["one ", "", "two\n"])
}

/// What an inbox gives next, by way of the bound. A document is done at once.
fn take<I: Inbox>(alloc: Global, inbox: &mut I) -> Result<Incoming, InboxFault> {
    let incoming = inbox.next(alloc)?;
    if let Incoming::Document(_) = &incoming {
        if inbox.done().is_err() {
            return Err(InboxFault::Failed);
        }
    }
    Ok(incoming)
}

/// How many bytes a document has. None of another answer.
fn size(incoming: &Incoming) -> Option<usize> {
    match incoming {
        Incoming::Document(bytes) => Some(bytes.len()),
        _ => None,
    }
}

#[test]
fn sources_pass_bytes_on(rt: HostRuntime) -> Result<(), Fail> {
    let alloc = rt.alloc();
    let mut memory = seven(alloc)?;
    let told = [
        reads(alloc, &mut memory, b"seven"),
        reads(alloc, &mut memory, b""),
        reads(alloc, &mut memory, b" b"),
    ];
    drop(memory);
    assert_eq!(rt; told, [Ok(true), Err(ReadFault::Edge), Ok(true)]);
    let mut reader = ReadSource::new(b"seven b".as_slice());
    assert_eq!(rt; reads(alloc, &mut reader, b"seven"), Ok(true));
    Ok(())
}

#[test]
fn sinks_pass_bytes_on(rt: HostRuntime) -> Result<(), Fail> {
    let alloc = rt.alloc();
    let mut sink = MemorySink::new(alloc, calls(alloc, &[2])?);
    let told = [print(&mut sink), print(&mut sink)];
    let is_written = sink.bytes() == b"one two\n".as_slice();
    drop(sink);
    assert_eq!(rt; told, [Ok(()), Err(EdgeFault)]);
    assert!(rt; is_written);
    let mut room = [0u8; 5];
    let mut writer = WriteSink::new(room.as_mut_slice());
    assert!(rt; print(&mut writer) == Err(EdgeFault));
    Ok(())
}

/// Of what kind the next answer of an inbox is, and how many bytes its document has.
fn told<I: Inbox>(alloc: Global, inbox: &mut I) -> Result<(Kind, Option<usize>), InboxFault> {
    let incoming = take(alloc, inbox)?;
    Ok((incoming.kind(), size(&incoming)))
}

fn documents(alloc: Global) -> Result<List<Bytes>, Fail> {
    let mut documents = List::empty(alloc);
    documents.push(Bytes::from_slice(alloc, b"one")?)?;
    documents.push(Bytes::new(vec![in alloc; b' '; 524_300]?))?;
    Ok(documents)
}

/// An inbox of two documents whose call 1, the first `done`, fails.
fn inbox(alloc: Global) -> Result<MemoryInbox, Fail> {
    let failing = calls(alloc, &[1])?;
    Ok(MemoryInbox::new(documents(alloc)?, true, failing))
}

#[test]
fn an_inbox_gives_each_document_until_it_is_done(rt: HostRuntime) -> Result<(), Fail> {
    let alloc = rt.alloc();
    let mut inbox = inbox(alloc)?;
    let answers = [
        told(alloc, &mut inbox),
        told(alloc, &mut inbox),
        told(alloc, &mut inbox),
        told(alloc, &mut inbox),
    ];
    drop(inbox);
    assert_eq!(rt; answers[0], Err(InboxFault::Failed));
    assert_eq!(rt; answers[1], Ok((Kind::Document, Some(3))));
    assert_eq!(rt; answers[2], Ok((Kind::Document, Some(524_289))));
    assert_eq!(rt; answers[3], Ok((Kind::Closed, None)));
    Ok(())
}

#[test]
fn an_open_inbox_gives_nothing(rt: HostRuntime) -> Result<(), Fail> {
    let alloc = rt.alloc();
    let mut open = MemoryInbox::new(List::empty(alloc), false, calls(alloc, &[])?);
    let answer = told(alloc, &mut open);
    drop(open);
    assert_eq!(rt; answer, Ok((Kind::Nothing, None)));
    Ok(())
}
