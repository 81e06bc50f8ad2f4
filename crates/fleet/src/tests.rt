// What lines print, and which line is refused.
use crate::running::fleet;
use edges::{MemorySink, MemorySource};
use fleet_core::{Fleet, Happening, Reply, StepFault};
use nuc_base::{Bytes, List, Status};
use std::alloc::Global;
use std::test::Fail;

/// The words of a call without a word but the program's name.
fn name_alone(alloc: Global) -> Result<Vec<String>, Fail> {
    let mut words = Vec::new(alloc);
    words.push(String::from_str(alloc, "fleet")?)?;
    Ok(words)
}

/// Runs the program on these bytes, and gives its status and what it printed.
fn ran(alloc: Global, bytes: Vec<u8>) -> Result<(Status, String), Fail> {
    let words = name_alone(alloc)?;
    let mut source = MemorySource::new(Bytes::new(bytes), List::empty(alloc));
    let mut sink = MemorySink::new(alloc, List::empty(alloc));
    let status = fleet(alloc, &words, &mut source, &mut sink);
    let printed = String::from_str(alloc, str::from_utf8(sink.bytes())?)?;
    Ok((status, printed))
}

/// A document of the group `g` in this revision is sent to device 0.
fn sending(alloc: Global, revision: u64) -> Result<String, Fail> {
    Ok(format!(in alloc;
        "send 0 {{\"targetArn\":\"g\",\"revision\":{revision},\"components\":{{}}}}\n"
    )?)
}

#[test]
fn takes_no_older_revision(rt: HostRuntime) -> Result<(), Fail> {
    let alloc = rt.alloc();
    let mut lines = String::from_str(alloc, "devices 1\n")?;
    lines.push_str(sending(alloc, 1)?.as_str())?;
    lines.push_str(sending(alloc, 2)?.as_str())?;
    lines.push_str("deliver 1\ndeliver 0\ndeliver 1\nlose 0\ndeliver 0\nreport 0\nhear 0\n")?;
    let (status, printed) = ran(alloc, lines.as_bytes().to_vec(alloc)?)?;
    let wanted =
        "sent 0\nsent 1\ntaken 0 g 2\nstale 0 g 2\nagain 0 g 2\nlost 0\ngone 0\nreported 0\nknown 0 g 2\n";
    assert_eq!(rt; printed.as_str(), wanted);
    assert!(rt; status == Status::Done);
    Ok(())
}

/// Inputs, each with the number of its first line that is refused.
const REFUSED: &[(&str, u32)] = &[
    // Nothing, and a first line that begins no fleet.
    ("", 1),
    ("\n", 1),
    ("restart 0\n", 1),
    ("devices 0\n", 1),
    ("devices 1025\n", 1),
    ("devices 01\n", 1),
    ("devices +1\n", 1),
    ("devices  1\n", 1),
    ("devices 1 \n", 1),
    ("devices\n", 1),
    ("devices 1\r\n", 1),
    // A rest without a line feed, at the first line and later.
    ("devices 1", 1),
    ("devices 1\nrestart 0", 2),
    // Lines that are no command.
    ("devices 1\n\n", 2),
    ("devices 1\ndevices 1\n", 2),
    ("devices 1\nRestart 0\n", 2),
    ("devices 1\nrestart  0\n", 2),
    ("devices 1\nrestart 0 \n", 2),
    ("devices 1\n restart 0\n", 2),
    ("devices 1\nrestart 00\n", 2),
    ("devices 1\nrestart -0\n", 2),
    ("devices 1\nrestart 4294967296\n", 2),
    ("devices 1\nrestart\n", 2),
    ("devices 1\nsend 0\n", 2),
    ("devices 1\nsend {} 0\n", 2),
    // No such device, packet or report.
    ("devices 2\nrestart 1\nrestart 2\n", 3),
    ("devices 1\nreport 1\n", 2),
    (
        "devices 1\nsend 1 {\"targetArn\":\"g\",\"revision\":1}\n",
        2,
    ),
    ("devices 1\ndeliver 0\n", 2),
    ("devices 1\nlose 0\n", 2),
    ("devices 1\nhear 0\n", 2),
    // No document, and one without a revision.
    ("devices 1\nsend 0 \n", 2),
    ("devices 1\nsend 0 {\n", 2),
    ("devices 1\nsend 0 {\"revision\":1}\n", 2),
    (
        "devices 1\nsend 0 {\"targetArn\":\"g\",\"revision\":0}\n",
        2,
    ),
    ("devices 1\nsend 0 {\"targetArn\":\"g\"}\n", 2),
];

/// Whether the last line that is printed refuses the line with this number.
fn refuses(alloc: Global, printed: &str, number: u32) -> Result<bool, Fail> {
    let line = format!(in alloc; "refused 2 line {number}\n")?;
    Ok(printed.ends_with(line.as_str()))
}

#[test]
fn names_the_line_that_is_refused(rt: HostRuntime) -> Result<(), Fail> {
    let alloc = rt.alloc();
    for (input, number) in REFUSED {
        let (status, printed) = ran(alloc, input.as_bytes().to_vec(alloc)?)?;
        assert!(rt; status == Status::BadInput, "{input:?}");
        assert!(rt; refuses(alloc, printed.as_str(), *number)?, "{input:?}");
    }
    Ok(())
}

#[test]
fn knows_groups_in_byte_order(rt: HostRuntime) -> Result<(), Fail> {
    let alloc = rt.alloc();
    let lines =
        b"devices 2\nreport 1\nhear 0\nsend 1 {\"targetArn\":\"h\",\"revision\":7}\nsend 1 {\"targetArn\":\"G\",\"revision\":9223372036854775807}\nreport 1\n\
        deliver 0\ndeliver 1\nrestart 1\nreport 1\nhear 2\nhear 1\n";
    let wanted =
        "reported 0\nknown 1\nsent 0\nsent 1\nreported 1\ntaken 1 h 7\ntaken 1 G 9223372036854775807\nrestarted 1\nreported 2\n\
        known 1 G 9223372036854775807\nknown 1 h 7\nknown 1 G 9223372036854775807\nknown 1 h 7\n";
    let (status, printed) = ran(alloc, lines.to_vec(alloc)?)?;
    assert_eq!(rt; printed.as_str(), wanted);
    assert!(rt; status == Status::Done);
    Ok(())
}

#[test]
fn takes_no_word(rt: HostRuntime) -> Result<(), Fail> {
    let alloc = rt.alloc();
    let mut words = name_alone(alloc)?;
    words.push(String::from_str(alloc, "more")?)?;
    let mut source = MemorySource::new(Bytes::empty(alloc), List::empty(alloc));
    let mut sink = MemorySink::new(alloc, List::empty(alloc));
    let status = fleet(alloc, &words, &mut source, &mut sink);
    assert!(rt; status == Status::Usage);
    assert!(rt; sink.bytes() == b"usage: fleet\n".as_slice());
    Ok(())
}

/// A list of calls that fail: the one with this number.
fn failing(alloc: Global, number: u64) -> Result<List<u64>, Fail> {
    let mut numbers = List::empty(alloc);
    numbers.push(number)?;
    Ok(numbers)
}

#[test]
fn ends_where_a_stream_fails(rt: HostRuntime) -> Result<(), Fail> {
    let alloc = rt.alloc();
    let words = name_alone(alloc)?;
    let lines = Bytes::from_slice(alloc, b"devices 1\nrestart 0\nrestart 0\n")?;
    let mut source = MemorySource::new(lines, failing(alloc, 0)?);
    let mut sink = MemorySink::new(alloc, List::empty(alloc));
    let status = fleet(alloc, &words, &mut source, &mut sink);
    assert!(rt; status == Status::Edge);
    assert!(rt; sink.bytes().is_empty());
    // The source goes on, and the sink takes one line and not the next.
    let mut sink = MemorySink::new(alloc, failing(alloc, 1)?);
    let status = fleet(alloc, &words, &mut source, &mut sink);
    assert!(rt; status == Status::Edge);
    assert!(rt; sink.bytes() == b"restarted 0\n".as_slice());
    Ok(())
}

#[test]
fn reads_so_many_bytes(rt: HostRuntime) -> Result<(), Fail> {
    let alloc = rt.alloc();
    let (status, printed) = ran(alloc, vec![in alloc; b'a'; 1_048_576]?)?;
    assert!(rt; status == Status::BadInput);
    assert_eq!(rt; printed.as_str(), "refused 2 line 1\n");
    let (status, printed) = ran(alloc, vec![in alloc; b'a'; 1_048_577]?)?;
    assert!(rt; status == Status::Limit);
    assert_eq!(rt; printed.as_str(), "refused 14 TooLong 1048576\n");
    Ok(())
}

#[test]
fn sends_so_many_reports(rt: HostRuntime) -> Result<(), Fail> {
    let alloc = rt.alloc();
    let mut lines = String::from_str(alloc, "devices 1\n")?;
    for _ in 0..65_537 {
        lines.push_str("report 0\n")?;
    }
    let (status, printed) = ran(alloc, lines.as_bytes().to_vec(alloc)?)?;
    assert!(rt; status == Status::Limit);
    assert!(rt;
        printed
            .as_str()
            .ends_with("reported 65535\nrefused 14 Full 65536\n")
    );
    Ok(())
}

#[test]
fn sends_so_many_packets(rt: HostRuntime) -> Result<(), Fail> {
    let alloc = rt.alloc();
    let mut fleet = Fleet::new(alloc, 1024)?;
    let document = b"{\"targetArn\":\"g\",\"revision\":1}";
    for number in 0..65_536u32 {
        let bytes = Bytes::from_slice(alloc, document)?;
        let reply = fleet.step(Happening::Send(number % 1024, bytes));
        assert!(rt; matches!(&reply, Ok(Reply::Sent(sent)) if *sent == number));
    }
    let bytes = Bytes::from_slice(alloc, document)?;
    let reply = fleet.step(Happening::Send(0, bytes));
    assert!(rt; matches!(&reply, Err(StepFault::Full)));
    Ok(())
}
