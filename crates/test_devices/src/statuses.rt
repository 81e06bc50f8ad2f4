ghost use Rattle.device.specs.Devices.{device_view, IsRegularDevice};

use device::Device;
use nuc_base::NoMemory;
use records::Record;
use status_text::{status_json, status_lines};
use std::alloc::Global;
use std::test::Fail;

const GENESIS: &[u8] =
    b"\x11\0\0\0\x03/gg\0\0\0\x02t1\0\0\0\x062.12.0\0\0\0\x05linux\0\0\0\x05amd64";

const INITIALISED: &[&[u8]] = &[GENESIS];

const INITIALISED_LINES: &str = "thing t1\nnucleus 2.12.0\n";

const INITIALISED_JSON: &str =
    "{\"closed\":[],\"components\":[],\"groups\":[],\"nucleus\":\"2.12.0\",\"pending\":null,\"thing\":\"t1\"}";

const HELLO: &[&[u8]] = &[
    GENESIS,
    b"\x12\0\0\0\x02d1\0\0\00arn:aws:iot:us-east-1:123456789012:thinggroup/g1\0\0\0\0\x01\0\0\0\x16com.example.HelloWorld\0\0\0\x051.0.0\0\0\0\x01\0\0\0\x16c\
    om.example.HelloWorld\0\0\0\x051.0.0\0\0\0h{\"RecipeFormatVersion\":\"2020-01-25\",\"ComponentName\":\"com.example.HelloWorld\",\
    \"ComponentVersion\":\"1.0.0\"}\0\0\0\x13{\"Message\":\"world\"}\0\0\0\0\0\0\0\0",
    b"\x15",
    b"\x18\x01",
];

const HELLO_LINES: &str =
    "thing t1\nnucleus 2.12.0\ngroup arn:aws:iot:us-east-1:123456789012:thinggroup/g1\nrequire com.example.HelloWorld 1.0.0\n\
    component com.example.HelloWorld 1.0.0 {\"Message\":\"world\"}\nclosed d1 SUCCESSFUL\n";

const HELLO_JSON: &str =
    "{\"closed\":[{\"id\":\"d1\",\"outcome\":\"SUCCESSFUL\"}],\"components\":[{\"config\":{\"Message\":\"world\"},\"name\":\"com.example.HelloWorld\",\
    \"version\":\"1.0.0\"}],\"groups\":[{\"arn\":\"arn:aws:iot:us-east-1:123456789012:thinggroup/g1\",\"components\":[{\"name\":\"com.example.HelloWorld\",\
    \"range\":\"1.0.0\"}],\"revision\":0}],\"nucleus\":\"2.12.0\",\"pending\":null,\"thing\":\"t1\"}";

// Group z with two components; then group b keeps its failed bootstrap; then group a, whose deployment fails and can't
// be rolled back, and fails once more and is. Then it has a revision, and its next deployment goes back by a bootstrap.
const COURSE: &[&[u8]] = &[
    GENESIS,
    b"\x12\0\0\0\x02d2\0\0\0\x01z\0\0\0\0\x02\0\0\0\x01A\0\0\0\x0e>=1.0.0 <2.0.0\0\0\0\x01B\0\0\0\0\0\0\0\x02\0\0\0\x01A\0\0\0\x051.2.0\0\0\0S{\"RecipeFormat\
    Version\":\"2020-01-25\",\"ComponentName\":\"A\",\"ComponentVersion\":\"1.2.0\"}\0\0\0 {\"l\":[1,null,true],\"o\":{\"k\":-2}}\0\0\0\0\0\0\0\x01B\0\0\0\
    \x0a0.1.0-rc.1\0\0\0X{\"RecipeFormatVersion\":\"2020-01-25\",\"ComponentName\":\"B\",\"ComponentVersion\":\"0.1.0-rc.1\"}\0\0\0\x02{}\0\0\0\0\0\0\0\0",
    b"\x15",
    b"\x18\x01",
    b"\x12\0\0\0\x02d3\0\0\0\x01b\x01\0\0\0\0\0\0\0\x01\0\0\0\x01A\0\0\0\x051.2.0\0\0\0\x81{\"RecipeFormatVersion\":\"2020-01-25\",\"ComponentName\":\"A\",\
    \"ComponentVersion\":\"1.2.0\",\"Manifests\":[{\"Lifecycle\":{\"bootstrap\":\"b\"}}]}\0\0\0 {\"l\":[1,null,true],\"o\":{\"k\":-2}}\0\0\0\0\0\0\0\x01\0\0\
    \0\x01A",
    b"\x13\0\0\0\x01A",
    b"\x14\0\0\0\x01A\0\0\0\0\x01",
    b"\x18\x03",
    b"\x12\0\0\0\x02d4\0\0\0\x01a\0\0\0\0\x01\0\0\0\x01A\0\0\0\x02^1\0\0\0\x01\0\0\0\x01A\0\0\0\x051.2.0\0\0\0\x81{\"RecipeFormatVersion\":\"2020-01-25\",\
    \"ComponentName\":\"A\",\"ComponentVersion\":\"1.2.0\",\"Manifests\":[{\"Lifecycle\":{\"bootstrap\":\"b\"}}]}\0\0\0\x02{}\0\0\0\0\0\0\0\x01\0\0\0\x01A",
    b"\x13\0\0\0\x01A",
    b"\x14\0\0\0\x01A\0\0\0\0\0",
    b"\x15",
    b"\x16\0\0\0\x01A\x02\x01",
    b"\x16\0\0\0\x01A\x02\x01",
    b"\x16\0\0\0\x01A\x02\x01",
    b"\x17\0\0\0\x01A",
    b"\x16\0\0\0\x01A\x02\x01",
    b"\x16\0\0\0\x01A\x02\x01",
    b"\x16\0\0\0\x01A\x02\x01",
    b"\x18\x04",
    b"\x12\0\0\0\x02d5\0\0\0\x01a\0\0\0\0\x01\0\0\0\x01A\0\0\0\x02^1\0\0\0\x01\0\0\0\x01A\0\0\0\x051.2.0\0\0\0\x81{\"RecipeFormatVersion\":\"2020-01-25\",\
    \"ComponentName\":\"A\",\"ComponentVersion\":\"1.2.0\",\"Manifests\":[{\"Lifecycle\":{\"bootstrap\":\"b\"}}]}\0\0\0\x02{}\0\0\0\0\0\0\0\x01\0\0\0\x01A",
    b"\x13\0\0\0\x01A",
    b"\x14\0\0\0\x01A\0\0\0\0\x01",
    b"\x17\0\0\0\x01A",
    b"\x18\x02",
    b"\x1d\0\0\0\x02d6\0\0\0\x01a\0\0\0\0\0\0\0\x07\0\0\0\0\x01\0\0\0\x01A\0\0\0\x02^1\0\0\0\x01\0\0\0\x01A\0\0\0\x051.2.0\0\0\0\xa7{\"RecipeFormatVersion\":\
    \"2020-01-25\",\"ComponentName\":\"A\",\"ComponentVersion\":\"1.2.0\",\"Manifests\":[{\"Lifecycle\":{\"bootstrap\":{\"BootstrapOnRollback\":true,\
    \"Script\":\"b\"}}}]}\0\0\0\x02{}\0\0\0\0\0\0\0\0",
    b"\x15",
    b"\x18\x01",
    b"\x1d\0\0\0\x02d7\0\0\0\x01a\0\0\0\0\0\0\0\x08\0\0\0\0\x01\0\0\0\x01A\0\0\0\x02^1\0\0\0\x01\0\0\0\x01A\0\0\0\x051.2.0\0\0\0\xa7{\"RecipeFormatVersion\":\
    \"2020-01-25\",\"ComponentName\":\"A\",\"ComponentVersion\":\"1.2.0\",\"Manifests\":[{\"Lifecycle\":{\"bootstrap\":{\"BootstrapOnRollback\":true,\
    \"Script\":\"b\"}}}]}\0\0\0\x02{}\0\0\0\0\0\0\0\x01\0\0\0\x01A",
    b"\x13\0\0\0\x01A",
    b"\x14\0\0\0\x01A\x01",
    b"\x1f\0\0\0\x01A",
];

// How many records of the course, the lines and the JSON text.
const MOMENTS: &[(usize, &str, &str)] = &[
    (
        4,
        "thing t1\nnucleus 2.12.0\ngroup z\nrequire A >=1.0.0 <2.0.0\nrequire B \ncomponent A 1.2.0 {\"l\":[1,null,true],\"o\":{\"k\":-2}}\n\
        component B 0.1.0-rc.1 {}\nclosed d2 SUCCESSFUL\n",
        "{\"closed\":[{\"id\":\"d2\",\"outcome\":\"SUCCESSFUL\"}],\"components\":[{\"config\":{\"l\":[1,null,true],\"o\":{\"k\":-2}},\"name\":\"A\",\
        \"version\":\"1.2.0\"},{\"config\":{},\"name\":\"B\",\"version\":\"0.1.0-rc.1\"}],\"groups\":[{\"arn\":\"z\",\"components\":[{\"name\":\"A\",\
        \"range\":\">=1.0.0 <2.0.0\"},{\"name\":\"B\",\"range\":\"\"}],\"revision\":0}],\"nucleus\":\"2.12.0\",\"pending\":null,\"thing\":\"t1\"}",
    ),
    (
        9,
        "thing t1\nnucleus 2.12.0\ngroup z\nrequire A >=1.0.0 <2.0.0\nrequire B \ngroup b\ncomponent A 1.2.0 {\"l\":[1,null,true],\"o\":{\"k\":-2}}\n\
        closed d2 SUCCESSFUL\nclosed d3 FAILED_ROLLBACK_NOT_REQUESTED\npending d4 Booting\n",
        "{\"closed\":[{\"id\":\"d2\",\"outcome\":\"SUCCESSFUL\"},{\"id\":\"d3\",\"outcome\":\"FAILED_ROLLBACK_NOT_REQUESTED\"}],\
        \"components\":[{\"config\":{\"l\":[1,null,true],\"o\":{\"k\":-2}},\"name\":\"A\",\"version\":\"1.2.0\"}],\"groups\":[{\"arn\":\"z\",\
        \"components\":[{\"name\":\"A\",\"range\":\">=1.0.0 <2.0.0\"},{\"name\":\"B\",\"range\":\"\"}],\"revision\":0},{\"arn\":\"b\",\"components\":[],\
        \"revision\":0}],\"nucleus\":\"2.12.0\",\"pending\":{\"id\":\"d4\",\"stage\":\"Booting\"},\"thing\":\"t1\"}",
    ),
    (
        12,
        "thing t1\nnucleus 2.12.0\ngroup z\nrequire A >=1.0.0 <2.0.0\nrequire B \ngroup b\ncomponent A 1.2.0 {\"l\":[1,null,true],\"o\":{\"k\":-2}}\n\
        closed d2 SUCCESSFUL\nclosed d3 FAILED_ROLLBACK_NOT_REQUESTED\npending d4 Activating\n",
        "{\"closed\":[{\"id\":\"d2\",\"outcome\":\"SUCCESSFUL\"},{\"id\":\"d3\",\"outcome\":\"FAILED_ROLLBACK_NOT_REQUESTED\"}],\
        \"components\":[{\"config\":{\"l\":[1,null,true],\"o\":{\"k\":-2}},\"name\":\"A\",\"version\":\"1.2.0\"}],\"groups\":[{\"arn\":\"z\",\
        \"components\":[{\"name\":\"A\",\"range\":\">=1.0.0 <2.0.0\"},{\"name\":\"B\",\"range\":\"\"}],\"revision\":0},{\"arn\":\"b\",\"components\":[],\
        \"revision\":0}],\"nucleus\":\"2.12.0\",\"pending\":{\"id\":\"d4\",\"stage\":\"Activating\"},\"thing\":\"t1\"}",
    ),
    (
        16,
        "thing t1\nnucleus 2.12.0\ngroup z\nrequire A >=1.0.0 <2.0.0\nrequire B \ngroup b\ncomponent A 1.2.0 {\"l\":[1,null,true],\"o\":{\"k\":-2}}\n\
        closed d2 SUCCESSFUL\nclosed d3 FAILED_ROLLBACK_NOT_REQUESTED\npending d4 Rolling\n",
        "{\"closed\":[{\"id\":\"d2\",\"outcome\":\"SUCCESSFUL\"},{\"id\":\"d3\",\"outcome\":\"FAILED_ROLLBACK_NOT_REQUESTED\"}],\
        \"components\":[{\"config\":{\"l\":[1,null,true],\"o\":{\"k\":-2}},\"name\":\"A\",\"version\":\"1.2.0\"}],\"groups\":[{\"arn\":\"z\",\
        \"components\":[{\"name\":\"A\",\"range\":\">=1.0.0 <2.0.0\"},{\"name\":\"B\",\"range\":\"\"}],\"revision\":0},{\"arn\":\"b\",\"components\":[],\
        \"revision\":0}],\"nucleus\":\"2.12.0\",\"pending\":{\"id\":\"d4\",\"stage\":\"Rolling\"},\"thing\":\"t1\"}",
    ),
    (
        25,
        "thing t1\nnucleus 2.12.0\ngroup z\nrequire A >=1.0.0 <2.0.0\nrequire B \ngroup b\ncomponent A 1.2.0 {\"l\":[1,null,true],\"o\":{\"k\":-2}}\n\
        closed d2 SUCCESSFUL\nclosed d3 FAILED_ROLLBACK_NOT_REQUESTED\nclosed d4 FAILED_UNABLE_TO_ROLLBACK\nclosed d5 FAILED_ROLLBACK_COMPLETE\n",
        "{\"closed\":[{\"id\":\"d2\",\"outcome\":\"SUCCESSFUL\"},{\"id\":\"d3\",\"outcome\":\"FAILED_ROLLBACK_NOT_REQUESTED\"},{\"id\":\"d4\",\
        \"outcome\":\"FAILED_UNABLE_TO_ROLLBACK\"},{\"id\":\"d5\",\"outcome\":\"FAILED_ROLLBACK_COMPLETE\"}],\"components\":[{\"config\":{\"l\":[1,null,\
        true],\"o\":{\"k\":-2}},\"name\":\"A\",\"version\":\"1.2.0\"}],\"groups\":[{\"arn\":\"z\",\"components\":[{\"name\":\"A\",\
        \"range\":\">=1.0.0 <2.0.0\"},{\"name\":\"B\",\"range\":\"\"}],\"revision\":0},{\"arn\":\"b\",\"components\":[],\"revision\":0}],\
        \"nucleus\":\"2.12.0\",\"pending\":null,\"thing\":\"t1\"}",
    ),
    (
        32,
        "thing t1\nnucleus 2.12.0\ngroup z\nrequire A >=1.0.0 <2.0.0\nrequire B \ngroup b\ngroup a\nrevision 7\nrequire A ^1\ncomponent A 1.2.0 {}\n\
        closed d2 SUCCESSFUL\nclosed d3 FAILED_ROLLBACK_NOT_REQUESTED\nclosed d4 FAILED_UNABLE_TO_ROLLBACK\nclosed d5 FAILED_ROLLBACK_COMPLETE\n\
        closed d6 SUCCESSFUL\npending d7 Backing\n",
        "{\"closed\":[{\"id\":\"d2\",\"outcome\":\"SUCCESSFUL\"},{\"id\":\"d3\",\"outcome\":\"FAILED_ROLLBACK_NOT_REQUESTED\"},{\"id\":\"d4\",\
        \"outcome\":\"FAILED_UNABLE_TO_ROLLBACK\"},{\"id\":\"d5\",\"outcome\":\"FAILED_ROLLBACK_COMPLETE\"},{\"id\":\"d6\",\"outcome\":\"SUCCESSFUL\"}],\
        \"components\":[{\"config\":{},\"name\":\"A\",\"version\":\"1.2.0\"}],\"groups\":[{\"arn\":\"z\",\"components\":[{\"name\":\"A\",\
        \"range\":\">=1.0.0 <2.0.0\"},{\"name\":\"B\",\"range\":\"\"}],\"revision\":0},{\"arn\":\"b\",\"components\":[],\"revision\":0},{\"arn\":\"a\",\
        \"components\":[{\"name\":\"A\",\"range\":\"^1\"}],\"revision\":7}],\"nucleus\":\"2.12.0\",\"pending\":{\"id\":\"d7\",\"stage\":\"Backing\"},\
        \"thing\":\"t1\"}",
    ),
];

/// Takes the record that the bytes spell, and says whether it was taken.
fn take(alloc: Global, device: &mut Device, bytes: &[u8]) -> Result<bool, NoMemory>
    requires { IsRegularDevice (device_view device.old) }
    ensures { IsRegularDevice (device_view device.new) }
{
    match Record::read(alloc, bytes)? {
        Some(record) => Ok(device.apply(alloc, record).is_ok()),
        None => Ok(false),
    }
}

/// Whether the status has these lines and this JSON text.
fn shows(alloc: Global, device: &Device, lines: &str, json: &str) -> Result<bool, NoMemory>
    requires { IsRegularDevice (device_view device.now) }
{
    if device.origin.is_none() {
        return Ok(false);
    }
    let printed = status_lines(alloc, device)?;
    let text = status_json(alloc, device)?;
    Ok(printed.as_str() == lines && text.as_str() == json)
}

/// Whether the records are lawful on the device.
fn take_all(alloc: Global, device: &mut Device, entries: &[&[u8]]) -> Result<bool, NoMemory>
    requires { IsRegularDevice (device_view device.old) }
    ensures { IsRegularDevice (device_view device.new) }
{
    for bytes in entries {
        if !take(alloc, device, bytes)? {
            return Ok(false);
        }
    }
    Ok(true)
}

/// Whether the records are lawful, and the device that they leave has these lines and this JSON text.
fn prints(alloc: Global, entries: &[&[u8]], lines: &str, json: &str) -> Result<bool, NoMemory> {
    let mut device = Device::empty(alloc);
    let answer = match take_all(alloc, &mut device, entries) {
        Ok(true) => shows(alloc, &device, lines, json),
        other => other,
    };
    drop(device);
    answer
}

fn are_moments_printed(alloc: Global) -> Result<bool, NoMemory> {
    for (count, lines, json) in MOMENTS {
        let Some(entries) = COURSE.get(..*count) else {
            return Ok(false);
        };
        if !prints(alloc, entries, lines, json)? {
            return Ok(false);
        }
    }
    Ok(true)
}

#[test]
fn statuses_are_printed(rt: HostRuntime) -> Result<(), Fail> {
    let alloc = rt.alloc();
    assert!(rt; prints(alloc, INITIALISED, INITIALISED_LINES, INITIALISED_JSON)?);
    assert!(rt; prints(alloc, HELLO, HELLO_LINES, HELLO_JSON)?);
    assert!(rt; are_moments_printed(alloc)?);
    Ok(())
}
