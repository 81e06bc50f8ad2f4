// What requests and changes make of devices, and what is told of a configuration.
ghost use Rattle.device.specs.Devices.{device_view, IsRegularDevice};
ghost use Rattle.device.specs.Sound.{IsSound};

use crate::devices::device_of;
use config_cmd::{Change, config_document, config_get};
use deployment_doc::{Document, Root};
use device::Device;
use local_deploy::{LocalRequest, local_document};
use nuc_base::{Name, Pointer, Policy};
use std::alloc::Global;
use std::test::Fail;

// Each line has the records that left a device, a request, and what comes of it: the id, the group, the revision and the
// policy of the document, and each root with its range and the merge of its update; or the refusal.
const REQUESTS: &str = concat!(
    r#"genesis|{"deploymentId":"l1","merge":{"X":"^1.0.0"},"updateConfig":{"X":{"merge":{"p":1}}}}|l1 local 0 ROLLBACK X ^1.0.0 merge Fields([("p", Whole(1))])
genesis|{"deploymentId":"l1"}|l1 local 0 ROLLBACK
genesis|{"deploymentId":"l1","failureHandlingPolicy":"DO_NOTHING","merge":{"B":"*","A":"1.x"}}|l1 local 0 DO_NOTHING A 1.x B *
genesis|{"deploymentId":"l3","remove":["Y"]}|NotLocal("Y")
genesis|{"deploymentId":"l3","updateConfig":{"Y":{},"B":{}}}|Unlisted("B")
genesis l1 activate close|{"deploymentId":"l2","remove":["X"]}|l2 local 0 ROLLBACK
genesis l1 activate close|{"deploymentId":"l2","remove":["X","X"],"merge":{"Y":"*"}}|l2 local 0 ROLLBACK Y *
genesis l1 activate close|{"deploymentId":"l3","remove":["Z","X","Y"],"updateConfig":{"A":{}}}|NotLocal("Y")
genesis l1 activate close|{"deploymentId":"l4","merge":{"X":"2.0.0","A":"*"}}|l4 local 0 ROLLBACK A * X 2.0.0
genesis l1 activate close|{"deploymentId":"l5","merge":{"Y":"*","A":"*"},"updateConfig":{"X":{"merge":{}},"Y":{}}}|"#,
    r#"l5 local 0 ROLLBACK A * X ^1.0.0 merge Fields([]) Y * update
genesis l1 activate close|{"deploymentId":"l6","remove":["X"],"updateConfig":{"X":{}}}|Unlisted("X")
genesis l1 activate close g1 activate close|{"deploymentId":"l7","remove":["Y"]}|NotLocal("Y")
genesis l1 activate close g1 activate close|{"deploymentId":"l8","merge":{"Y":"1.0.0"}}|l8 local 0 ROLLBACK X ^1.0.0 Y 1.0.0"#
);

// Each line has the records that left a device, a component, a change, and what comes of it.
const CHANGES: &str =
    r#"genesis l1 activate close g1 activate close|X|{"deploymentId":"c1","merge":{"p":2}}|c1 local 0 ROLLBACK X ^1.0.0 merge Fields([("p", Whole(2))])
genesis l1 activate close g1 activate close|Y|{"deploymentId":"c2"}|c2 g 0 ROLLBACK X 1.x Y * update
genesis l1 activate close g1 activate close|Z|{"deploymentId":"c3"}|NotListed
genesis l1 activate close g1 activate close|W|{"deploymentId":"c4"}|NoComponent
genesis|X|{"deploymentId":"c5"}|NoComponent"#;

// Each line has the records that left a device, a component, a pointer, and what is told.
const NODES: &str = r#"genesis l1 activate close|X|/p|1
genesis l1 activate close|X||{"p":1}
genesis l1 activate close|X|/x|NoNode
genesis l1 activate close|X|/p/0|NoNode
genesis l1 activate close|W|/p|NoComponent
genesis l1 activate close|Y||NoComponent
genesis l1 activate close g1 activate close|Z||{}"#;

fn add_root(alloc: Global, text: &mut String, root: &Root) -> Result<(), Fail> {
    text.push_str(&format!(in alloc; " {} {}", root.name, root.range.text())?)?;
    let Some(update) = &root.update else {
        return Ok(());
    };
    match &update.merge {
        Some(merge) => text.push_str(&format!(in alloc; " merge {merge:?}")?)?,
        None => text.push_str(" update")?,
    }
    Ok(())
}

fn add_roots(alloc: Global, text: &mut String, roots: &[Root]) -> Result<(), Fail> {
    for root in roots {
        add_root(alloc, text, root)?;
    }
    Ok(())
}

fn head_of(alloc: Global, document: &Document) -> Result<String, Fail> {
    let policy = match document.policy {
        Policy::Rollback => "ROLLBACK",
        Policy::DoNothing => "DO_NOTHING",
    };
    Ok(format!(in alloc;
        "{} {} {} {policy}",
        document.id, document.group, document.revision
    )?)
}

fn text_of(alloc: Global, document: &Document) -> Result<String, Fail> {
    let mut text = head_of(alloc, document)?;
    add_roots(alloc, &mut text, document.roots.as_slice())?;
    Ok(text)
}

/// What comes of the request.
fn request_answer(alloc: Global, device: &Device, request: &str) -> Result<String, Fail>
    requires { IsSound (device_view device.now) }
{
    let request = LocalRequest::read(alloc, request.as_bytes())?;
    match local_document(alloc, device, request) {
        Ok(document) => text_of(alloc, &document),
        Err(refusal) => Ok(format!(in alloc; "{refusal:?}")?),
    }
}

/// What comes of the change of this component.
fn change_answer(alloc: Global, device: &Device, name: &Name, change: &str) -> Result<String, Fail>
    requires { IsSound (device_view device.now) }
{
    let change = Change::read(alloc, change.as_bytes(), name)?;
    match config_document(alloc, device, name, change) {
        Ok(document) => text_of(alloc, &document),
        Err(fault) => Ok(format!(in alloc; "{fault:?}")?),
    }
}

/// What is told of the component's configuration.
fn node_answer(alloc: Global, device: &Device, name: &Name, at: &str) -> Result<String, Fail>
    requires { IsRegularDevice (device_view device.now) }
{
    let at = Pointer::read(alloc, at)?;
    match config_get(alloc, device, name, &at) {
        Ok(text) => Ok(text.into_string()),
        Err(fault) => Ok(format!(in alloc; "{fault:?}")?),
    }
}

fn is_request_row(alloc: Global, row: &str) -> Result<bool, Fail> {
    let mut fields = row.split('|');
    let history = fields.next().unwrap_or("");
    let request = fields.next().unwrap_or("");
    let want = fields.next().unwrap_or("?");
    let device = device_of(alloc, history)?;
    let answer = request_answer(alloc, &device, request)?;
    drop(device);
    Ok(answer.as_str() == want)
}

fn is_change_row(alloc: Global, row: &str) -> Result<bool, Fail> {
    let mut fields = row.split('|');
    let history = fields.next().unwrap_or("");
    let name = Name::read(alloc, fields.next().unwrap_or("").as_bytes())?;
    let change = fields.next().unwrap_or("");
    let want = fields.next().unwrap_or("?");
    let device = device_of(alloc, history)?;
    let answer = change_answer(alloc, &device, &name, change)?;
    drop(device);
    Ok(answer.as_str() == want)
}

fn is_node_row(alloc: Global, row: &str) -> Result<bool, Fail> {
    let mut fields = row.split('|');
    let history = fields.next().unwrap_or("");
    let name = Name::read(alloc, fields.next().unwrap_or("").as_bytes())?;
    let at = fields.next().unwrap_or("");
    let want = fields.next().unwrap_or("?");
    let device = device_of(alloc, history)?;
    let answer = node_answer(alloc, &device, &name, at)?;
    drop(device);
    Ok(answer.as_str() == want)
}

/// The first line of requests of which something else comes, or none.
fn first_wrong_request(alloc: Global) -> Result<&'static str, Fail> {
    for row in REQUESTS.lines() {
        if !is_request_row(alloc, row)? {
            return Ok(row);
        }
    }
    Ok("")
}

fn first_wrong_change(alloc: Global) -> Result<&'static str, Fail> {
    for row in CHANGES.lines() {
        if !is_change_row(alloc, row)? {
            return Ok(row);
        }
    }
    Ok("")
}

fn first_wrong_node(alloc: Global) -> Result<&'static str, Fail> {
    for row in NODES.lines() {
        if !is_node_row(alloc, row)? {
            return Ok(row);
        }
    }
    Ok("")
}

fn add_merged(alloc: Global, text: &mut String, at: u32) -> Result<(), Fail> {
    if at > 0 {
        text.push(',')?;
    }
    text.push_str(&format!(in alloc; r#""A{at}":"*""#)?)?;
    Ok(())
}

/// A request that merges so many names.
fn many_merged(alloc: Global, count: u32) -> Result<String, Fail> {
    let mut text = String::from_str(alloc, r#"{"deploymentId":"l","merge":{"#)?;
    for at in 0..count {
        add_merged(alloc, &mut text, at)?;
    }
    text.push_str("}}")?;
    Ok(text)
}

/// What comes of so many merged names where one is required already.
fn many_answer(alloc: Global, count: u32) -> Result<String, Fail> {
    let request = many_merged(alloc, count)?;
    let device = device_of(alloc, "genesis l1 activate close")?;
    let answer = request_answer(alloc, &device, request.as_str());
    drop(device);
    answer
}

#[test]
fn requests_come_to_documents_or_are_refused(rt: HostRuntime) -> Result<(), Fail> {
    let alloc = rt.alloc();
    assert_eq!(rt; first_wrong_request(alloc)?, "");
    assert_eq!(rt; many_answer(alloc, 128)?.as_str(), "TooManyLocal(129)");
    assert!(rt; many_answer(alloc, 127)?.starts_with("l local 0 ROLLBACK A0 * A1 * A10 *"));
    Ok(())
}

#[test]
fn changes_come_to_documents_or_are_refused(rt: HostRuntime) -> Result<(), Fail> {
    assert_eq!(rt; first_wrong_change(rt.alloc())?, "");
    Ok(())
}

#[test]
fn nodes_are_told(rt: HostRuntime) -> Result<(), Fail> {
    assert_eq!(rt; first_wrong_node(rt.alloc())?, "");
    Ok(())
}
