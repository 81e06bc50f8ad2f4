ghost use Rattle.std.specs.Prelude.{IfOk};
ghost use Rattle.device.specs.Devices.{device_view, IsRegularDevice};
ghost use Rattle.device.specs.Sound.{IsSound};

use device::Device;
use library_core::MemoryLibrary;
use nuc_base::List;
use plan_core::{Refusal, propose_read};
use records::Draft;
use std::alloc::Global;
use std::test::Fail;
use test_support::recipes_of;

/// Records by names for the table below, each as the bytes that a journal holds of it: a start; a deployment `r5` of
/// nothing to the group `g`, with revision 5; one to the group `ga`, which wants `X` from 1.0.0 on and before 2.0.0 and
/// has it in 1.2.9; its activation; and its end.
const RECORDS: &[(&str, &[u8])] = &[
    (
        "genesis",
        b"\x11\0\0\0\x03/gg\0\0\0\x02t1\0\0\0\x062.12.0\0\0\0\x05linux\0\0\0\x05amd64",
    ),
    (
        "r5",
        b"\x1d\0\0\0\x02r5\0\0\0\x01g\0\0\0\0\0\0\0\x05\0\0\0\0\0\0\0\0\0\0\0\0\0",
    ),
    (
        "ga",
        b"\x12\0\0\0\x02d0\0\0\0\x02ga\0\0\0\0\x01\0\0\0\x01X\0\0\0\x0e>=1.0.0 <2.0.0\0\0\0\x01\0\0\0\x01X\0\0\0\x051.2.9\0\0\0S{\"RecipeFormatVersion\":\"20\
        20-01-25\",\"ComponentName\":\"X\",\"ComponentVersion\":\"1.2.9\"}\0\0\0\x02{}\0\0\0\0\0\0\0\0",
    ),
    ("activate", b"\x15"),
    ("close", b"\x18\x01"),
];

/// Each line has the records that left a device, the recipes of a library, a document, and what comes of it: the
/// components of the draft with their versions and those whose bootstraps run, or the refusal. A recipe is written out, or
/// it is the component's name, its version, and a dependency with its range where it has one.
const ROWS: &str = concat!(
    r#"genesis|{"RecipeFormatVersion":"2020-01-25","ComponentName":"com.example.HelloWorld","ComponentVersion":"1.0.0","#,
    r#""ComponentDescription":"My first component","ComponentPublisher":"Example","ComponentConfiguration":{"DefaultConfiguration":{"Message":"world"}},"#,
    r#""Manifests":[{"Platform":{"os":"linux"},"Lifecycle":{"run":"python3 -u {artifacts:path}/hello_world.py \"{configuration:/Message}\""},"#,
    r#""Artifacts":[{"URI":"s3://bucket/artifacts/hello_world.py"}]}]}|{"deploymentId":"d1","targetArn":"arn:aws:iot:us-east-1:123456789012:thinggroup/g1","#,
    r#""deploymentName":"hello","components":{"com.example.HelloWorld":{"componentVersion":"1.0.0"}}}|com.example.HelloWorld 1.0.0
genesis ga activate close|X 1.1.0;X 1.2.9;X 2.0.0|{"deploymentId":"d1","targetArn":"gb","components":{"X":{"componentVersion":"~1.2"}}}|X 1.2.9
genesis|A 2.0.0 C ^2;A 1.0.0 C ^1;B 1.0.0 C ^1;C 1.0.0;C 2.0.0|"#,
    r#"{"deploymentId":"d1","targetArn":"g","components":{"A":{"componentVersion":"*"},"B":{"componentVersion":"*"}}}|A 1.0.0,B 1.0.0,C 1.0.0
genesis|A 2.0.0 C ^2;B 1.0.0 C ^1;C 1.0.0;C 2.0.0|"#,
    r#"{"deploymentId":"d1","targetArn":"g","components":{"A":{"componentVersion":"*"},"B":{"componentVersion":"*"}}}|Plan(NoVersion)
genesis r5 activate close|X 1.0.0|{"deploymentId":"r4","targetArn":"g","revision":4,"components":{}}|Stale("r4", 5)
genesis r5 activate close|X 1.0.0|{"deploymentId":"r0","targetArn":"g","components":{}}|
genesis r5 activate close|X 1.0.0|{"deploymentId":"r5","targetArn":"g","revision":4,"components":{}}|Repeated("r5", Successful)
genesis|X 1.0.0|{"deploymentId":"d1","targetArn":"g","revision":0,"components":{}}|Document(BadRevision)
genesis|{"RecipeFormatVersion":"2020-01-25","ComponentName":"A","ComponentVersion":"1.0.0","Manifests":[{"Artifacts":[{"URI":"s3://b/f","#,
    r#""Unarchive":"ZIP"}]}]}|{"deploymentId":"d1","targetArn":"g","components":{}}|Candidates(Recipe(0, ZipArtifact))
genesis|{"RecipeFormatVersion":"2020-01-25","ComponentName":"A","ComponentVersion":"1.0.0","ComponentDependencies":{"B":{"VersionRequirement":"*"}},"#,
    r#""Manifests":[{"Lifecycle":{"bootstrap":"s"}}]};{"RecipeFormatVersion":"2020-01-25","ComponentName":"B","ComponentVersion":"1.0.0","#,
    r#""Manifests":[{"Lifecycle":{"bootstrap":"s"}}]}|"#,
    r#"{"deploymentId":"d1","targetArn":"g","components":{"A":{"componentVersion":"*"}}}|A 1.0.0,B 1.0.0,boot B,boot A"#
);

/// The device of a journal with these records.
fn device_of(alloc: Global, history: &str) -> Result<Device, Fail>
    ensures regular { IfOk result (λ d. IsRegularDevice (device_view d)) }
    ensures sound { IfOk result (λ d. IsSound (device_view d)) }
{
    test_replays::device_of(alloc, RECORDS, history)
}

fn library_of(alloc: Global, components: &str) -> Result<MemoryLibrary, Fail> {
    let recipes = recipes_of(alloc, components)?;
    Ok(MemoryLibrary::new(recipes, List::empty(alloc), List::empty(alloc)))
}

fn push_item(text: &mut String, item: &str) -> Result<(), Fail> {
    if !text.is_empty() {
        text.push(',')?;
    }
    text.push_str(item)?;
    Ok(())
}

fn push_boots(alloc: Global, draft: &Draft, text: &mut String) -> Result<(), Fail> {
    for name in draft.boots.as_slice() {
        push_item(text, format!(in alloc; "boot {name}")?.as_str())?;
    }
    Ok(())
}

/// What a draft has, as the lines above write it.
fn text_of(alloc: Global, draft: &Draft) -> Result<String, Fail> {
    let mut text = String::new(alloc);
    for item in draft.items.as_slice() {
        push_item(
            &mut text,
            format!(in alloc; "{} {}", item.name, item.version)?.as_str(),
        )?;
    }
    push_boots(alloc, draft, &mut text)?;
    Ok(text)
}

fn answer_of(alloc: Global, proposed: &Result<Draft, Refusal>) -> Result<String, Fail> {
    match proposed {
        Ok(draft) => text_of(alloc, draft),
        Err(fault) => Ok(format!(in alloc; "{fault:?}")?),
    }
}

/// What comes of the document.
fn answer(alloc: Global, device: &Device, components: &str, document: &str) -> Result<String, Fail>
    requires sound { IsSound (device_view device.now) }
    requires regular { IsRegularDevice (device_view device.now) }
{
    if device.origin.is_none() || device.pending.is_some() {
        return Ok(format!(in alloc; "busy")?);
    }
    let mut library = library_of(alloc, components)?;
    let proposed = propose_read(alloc, device, &mut library, document.as_bytes());
    drop(library);
    let answer = answer_of(alloc, &proposed);
    drop(proposed);
    answer
}

/// Whether this comes of the document on the device.
fn is_answer(
    alloc: Global,
    device: &Device,
    components: &str,
    document: &str,
    want: &str,
) -> Result<bool, Fail>
    requires sound { IsSound (device_view device.now) }
    requires regular { IsRegularDevice (device_view device.now) }
{
    Ok(answer(alloc, device, components, document)?.as_str() == want)
}

fn is_row(alloc: Global, row: &str) -> Result<bool, Fail> {
    let mut fields = row.split('|');
    let history = fields.next().unwrap_or("");
    let components = fields.next().unwrap_or("");
    let document = fields.next().unwrap_or("");
    let want = fields.next().unwrap_or("?");
    let device = device_of(alloc, history)?;
    let is_answer = is_answer(alloc, &device, components, document, want);
    drop(device);
    is_answer
}

/// The first line of which something else comes, or none.
fn first_wrong(alloc: Global) -> Result<&'static str, Fail> {
    for row in ROWS.lines() {
        if !is_row(alloc, row)? {
            return Ok(row);
        }
    }
    Ok("")
}

#[test]
fn documents_come_to_drafts_or_are_refused(rt: HostRuntime) -> Result<(), Fail> {
    assert_eq!(rt; first_wrong(rt.alloc())?, "");
    Ok(())
}
