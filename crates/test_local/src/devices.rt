ghost use Rattle.std.specs.Prelude.{IfOk};
ghost use Rattle.device.specs.Devices.{device_view, IsRegularDevice};
ghost use Rattle.device.specs.Sound.{IsSound};

use device::Device;
use std::alloc::Global;
use std::test::Fail;

/// Records by names for the tables, each as the bytes that a journal holds of it: a start; a deployment `l1` to the group
/// `local`, which requires `X` as `^1.0.0` and has it with the configuration `{"p":1}`; one `g1` to the group `g`, which
/// requires `X` as `1.x` and `Y`, and has these and `Z`, which `Y` needs; the activation; and the end.
const RECORDS: &[(&str, &[u8])] = &[
    (
        "genesis",
        b"\x11\0\0\0\x03/gg\0\0\0\x02t1\0\0\0\x062.12.0\0\0\0\x05linux\0\0\0\x05amd64",
    ),
    (
        "l1",
        b"\x12\0\0\0\x02l1\0\0\0\x05local\0\0\0\0\x01\0\0\0\x01X\0\0\0\x06^1.0.0\0\0\0\x01\0\0\0\x01X\0\0\0\x051.0.0\0\0\0S{\"RecipeFormatVersion\":\"2020-01\
        -25\",\"ComponentName\":\"X\",\"ComponentVersion\":\"1.0.0\"}\0\0\0\x07{\"p\":1}\0\0\0\0\0\0\0\0",
    ),
    (
        "g1",
        b"\x12\0\0\0\x02g1\0\0\0\x01g\0\0\0\0\x02\0\0\0\x01X\0\0\0\x031.x\0\0\0\x01Y\0\0\0\x01*\0\0\0\x03\0\0\0\x01X\0\0\0\x051.0.0\0\0\0S{\"RecipeFormatVers\
        ion\":\"2020-01-25\",\"ComponentName\":\"X\",\"ComponentVersion\":\"1.0.0\"}\0\0\0\x07{\"p\":1}\0\0\0\0\0\0\0\x01Y\0\0\0\x051.0.0\0\0\0\x8c{\"RecipeF\
        ormatVersion\":\"2020-01-25\",\"ComponentName\":\"Y\",\"ComponentVersion\":\"1.0.0\",\"ComponentDependencies\":{\"Z\":{\"VersionRequirement\":\"*\"}}\
        }\0\0\0\x02{}\0\0\0\0\0\0\0\x01Z\0\0\0\x051.0.0\0\0\0S{\"RecipeFormatVersion\":\"2020-01-25\",\"ComponentName\":\"Z\",\
        \"ComponentVersion\":\"1.0.0\"}\0\0\0\x02{}\0\0\0\0\0\0\0\0",
    ),
    ("activate", b"\x15"),
    ("close", b"\x18\x01"),
];

/// The device of a journal with these records.
pub(crate) fn device_of(alloc: Global, history: &str) -> Result<Device, Fail>
    ensures regular { IfOk result (λ d. IsRegularDevice (device_view d)) }
    ensures sound { IfOk result (λ d. IsSound (device_view d)) }
{
    test_replays::device_of(alloc, RECORDS, history)
}
