//! Recipes: which are read and which faults the others have, worked out by hand from the lines of the format, and recipes
//! in the forms that the developer guide of AWS IoT Greengrass V2 shows.
use nuc_base::{Step, Text};
use recipe_reader::{Dependency, Platform, Recipe, RecipeFault, Skip, StepDef};
use std::alloc::Global;
use std::test::Fail;
use test_support::{joined, linux};
use tree_core::Tree;

/// Whole recipes. Each line is what is answered, `Ok`, or `Back` where the bootstrap runs again on the way back, with the script of
/// the run step, a bar and the text.
const WHOLE: &str = r#"NotJson|{
NotJson|
NotWhole|{"a":1.5}
NotWhole|{"a":-0}
TooDeep|[[[[[[[[[[[[[[[[[[[[[[[[[[[[[[[[[[[[[[[[[[[[[[[[[[[[[[[[[[[[[[[[[]]]]]]]]]]]]]]]]]]]]]]]]]]]]]]]]]]]]]]]]]]]]]]]]]]]]]]]]]]]]]]]]]
WrongKind recipe|[]
WrongKind recipe|"x"
Missing RecipeFormatVersion|{}
Missing RecipeFormatVersion|{"ComponentName":1}
Missing RecipeFormatVersion|{"recipeformatversion":"2020-01-25","ComponentName":"A","ComponentVersion":"1.0.0"}
WrongKind RecipeFormatVersion|{"RecipeFormatVersion":null}
WrongKind RecipeFormatVersion|{"RecipeFormatVersion":20200125,"ComponentVersion":1}
FormatVersion|{"RecipeFormatVersion":"2020-01-26"}
Missing ComponentName|{"RecipeFormatVersion":"2020-01-25"}
WrongKind ComponentName|{"RecipeFormatVersion":"2020-01-25","ComponentName":[],"ComponentVersion":1}
BadName ComponentName|{"RecipeFormatVersion":"2020-01-25","ComponentName":"..","ComponentVersion":"x"}
BadName ComponentName|{"RecipeFormatVersion":"2020-01-25","ComponentName":"a b"}
Missing ComponentVersion|{"RecipeFormatVersion":"2020-01-25","ComponentName":"A","ComponentType":1}
WrongKind ComponentVersion|{"RecipeFormatVersion":"2020-01-25","ComponentName":"A","ComponentVersion":1}
BadVersion|{"RecipeFormatVersion":"2020-01-25","ComponentName":"A","ComponentVersion":"1.0"}
BadVersion|{"RecipeFormatVersion":"2020-01-25","ComponentName":"A","ComponentVersion":"01.0.0","ComponentType":"x"}
Ok|{"RecipeFormatVersion":"2020-01-25","ComponentName":"A","ComponentVersion":"1.0.0-a.1+b"}"#;

/// What stands behind the three keys that must be there. Each line is what is answered, `Ok` with the script of the run step, a bar and the text.
const BODIES: &str = concat!(
    r#"WrongKind ComponentType|"ComponentType":1
UnsupportedType|"ComponentType":"aws.greengrass.lambda","Lifecycle":1
Ok|"ComponentType":"aws.greengrass.generic"
Ok|"ComponentType":null
GlobalLifecycle|"Lifecycle":{"run":"x"}
GlobalLifecycle|"Lifecycle":[],"ComponentConfiguration":1
Ok|"Lifecycle":{}
Ok|"Lifecycle":null
Ok|"lifecycle":1,"Other":[]
WrongKind ComponentConfiguration|"ComponentConfiguration":[]
WrongKind DefaultConfiguration|"ComponentConfiguration":{"DefaultConfiguration":1},"ComponentDependencies":1
Ok|"ComponentConfiguration":{"DefaultConfiguration":null}
Ok|"ComponentConfiguration":{"defaultconfiguration":1}
WrongKind ComponentDependencies|"ComponentDependencies":[],"Manifests":1
TooMany ComponentDependencies|"ComponentDependencies":{"a0":{},"a1":{},"a2":{},"a3":{},"a4":{},"a5":{},"a6":{},"a7":{},"a8":{},"a9":{},"a10":{},"a11":{},"#,
    r#""a12":{},"a13":{},"a14":{},"a15":{},"a16":{},"a17":{},"a18":{},"a19":{},"a20":{},"a21":{},"a22":{},"a23":{},"a24":{},"a25":{},"a26":{},"a27":{},"#,
    r#""a28":{},"a29":{},"a30":{},"a31":{},"a32":{},"a33":{},"a34":{},"a35":{},"a36":{},"a37":{},"a38":{},"a39":{},"a40":{},"a41":{},"a42":{},"a43":{},"#,
    r#""a44":{},"a45":{},"a46":{},"a47":{},"a48":{},"a49":{},"a50":{},"a51":{},"a52":{},"a53":{},"a54":{},"#,
    r#""a55":{},"a56":{},"a57":{},"a58":{},"a59":{},"a60":{},"a61":{},"a62":{},"a63":{},"a64":{}}
BadName ComponentDependencies|"ComponentDependencies":{"..":1},"Manifests":1
WrongKind ComponentDependencies|"ComponentDependencies":{"A":null}
WrongKind VersionRequirement|"ComponentDependencies":{"A":{"VersionRequirement":1,"DependencyType":"X"}}
BadRange|"ComponentDependencies":{"A":{"VersionRequirement":"1.2.3.4","DependencyType":"X"}}
BadRange|"ComponentDependencies":{"A":{"VersionRequirement":"1 1 1 1 1 1 1 1 1 1 1 1 1 1 1 1 1 1 1 1 1 1 1 1 1 1 1 1 1 1 1 1 1"}}
WrongKind DependencyType|"ComponentDependencies":{"A":{"DependencyType":"X"},"B":1}
WrongKind DependencyType|"ComponentDependencies":{"A":{"DependencyType":true}},"Manifests":1
Ok|"ComponentDependencies":{"A":{},"B":{"VersionRequirement":null,"DependencyType":"soft"},"C":{"VersionRequirement":"^1"}}
WrongKind Manifests|"Manifests":{}
TooMany Manifests|"#,
    r#""Manifests":[0,0,0,0,0,0,0,0,0,0,0,0,0,0,0,0,0,0,0,0,0,0,0,0,0,0,0,0,0,0,0,0,0,0,0,0,0,0,0,0,0,0,0,0,0,0,0,0,0,0,0,0,0,0,0,0,0,0,0,0,0,0,0,0,0]
Ok|"Manifests":[]
Ok|"Manifests":null"#
);

/// Manifests. Each line is what is answered, `Ok` with the script of the run step, a bar and the text.
const MANIFESTS: &str = r#"WrongKind Manifests|1
WrongKind Platform|{"Platform":1,"Lifecycle":1}
ZipArtifact|{"Artifacts":[{"Uri":"s3://b/f","Unarchive":"ZIP"}]}
Ok|{"Artifacts":[{"Uri":"s3://b/f","Unarchive":"NONE"}]}
Ok a|{"Platform":{"os":"linux"},"Lifecycle":{"run":"a"}},{"Platform":{"os":"windows"},"Artifacts":[{"Uri":"s3://b/f","Unarchive":"ZIP"}]}
Ok a|{"Lifecycle":{"run":"a"}},1
Ok b|{"Platform":{"os":"windows"},"Lifecycle":1},{"Lifecycle":{"run":"b"}},{"Lifecycle":{"run":"c"}}
WrongKind Manifests|{"Platform":{"os":"windows"}},1
UnsupportedPlatform|{"Platform":{"os":"!"}},{}
NoManifest|{"Platform":{"os":"windows"}},{"Platform":{"os":"darwin"}}
WrongKind Lifecycle|{"Lifecycle":1,"Artifacts":1}
RunAndStartup|{"Lifecycle":{"run":"a","startup":"b"},"Artifacts":1}"#;

/// The platform of a manifest whose run step is `here`. Each line is what is answered, `Ok` with the script of the run step, a bar and the text.
const PLATFORMS: &str = r#"Ok here|null
Ok here|{}
Ok here|{"os":"linux"}
Ok here|{"os":"*"}
Ok here|{"os":"all"}
Ok here|{"os":null,"architecture":null}
Ok here|{"os":"linux","architecture":"amd64"}
Ok here|{"os":"/darwin|linux/"}
Ok here|{"os":"/linux/","architecture":"/arm|amd64/"}
Ok here|{"os":"linux","runtime":"*"}
Ok here|{"runtime":"all","x":null}
NoManifest|{"os":"windows"}
NoManifest|{"os":"Linux"}
NoManifest|{"os":"linux","architecture":"arm"}
NoManifest|{"os":"/darwin|windows/"}
NoManifest|{"os":"linux","runtime":"aws_nucleus_lite"}
NoManifest|{"os":"linux","runtime":1}
NoManifest|{"OS":"linux"}
WrongKind Platform|[]
WrongKind os|{"os":1,"architecture":1}
WrongKind architecture|{"os":"linux","architecture":[]}
WrongKind architecture|{"os":"windows","architecture":false}
UnsupportedPlatform|{"os":""}
UnsupportedPlatform|{"os":"lin ux","architecture":1}
UnsupportedPlatform|{"os":"/"}
UnsupportedPlatform|{"os":"//"}
UnsupportedPlatform|{"os":"/linux"}
UnsupportedPlatform|{"os":"/a||b/"}
UnsupportedPlatform|{"os":"(linux)"}
UnsupportedPlatform|{"architecture":"**"}"#;

/// The lifecycle of a manifest. Each line is what is answered, `Ok` with the script of the run step, a bar and the text.
const LIFECYCLES: &str = r#"WrongKind Lifecycle|[]
Ok|null
Ok|{}
Ok x|{"run":"x"}
Ok x|{"RUN":{"SCRIPT":"x","RequiresPrivilege":1}}
DuplicateKey run|{"run":"x","Run":"x"}
DuplicateKey Setenv|{"run":null,"Run":null,"setenv":1,"Setenv":1}
DuplicateKey install|{"install":null,"INSTALL":null,"Bootstrap":1,"bootstrap":2}
Ok|{"other":1,"Other":2}
WrongKind Setenv|{"Setenv":[],"run":1}
WrongKind Setenv|{"Setenv":{"A":null}}
WrongKind Setenv|{"Setenv":{"":"x"}}
WrongKind Setenv|{"Setenv":{"A=B":"x"}}
WrongKind Setenv|{"Setenv":{"A":[]}}
Ok|{"Setenv":{"A":"x","B":1,"C":true}}
Ok|{"Setenv":null}
WrongKind install|{"install":1,"run":1}
WrongKind run|{"run":[],"startup":[]}
WrongKind startup|{"startup":false,"shutdown":1}
WrongKind shutdown|{"shutdown":0,"recover":0}
WrongKind recover|{"recover":1,"bootstrap":{}}
WrongKind bootstrap|{"bootstrap":1}
Missing Script|{"bootstrap":{}}
Missing Script|{"run":{"Timeout":0}}
WrongKind Script|{"run":{"Script":null,"Timeout":0}}
DuplicateKey Script|{"run":{"Script":"a","script":"a","Timeout":1,"timeout":1}}
DuplicateKey Skipif|{"run":{"Skipif":1,"SkipIf":1}}
DuplicateKey Timeout|{"run":{"Timeout":1,"timeout":1,"setenv":1,"Setenv":1}}
DuplicateKey Setenv|{"run":{"setenv":1,"Setenv":1}}
BadSkipif|{"run":{"Script":"x","Skipif":1,"Timeout":"1"}}
BadSkipif|{"run":{"Script":"x","Skipif":"onpath"}}
BadSkipif|{"run":{"Script":"x","Skipif":"onpath  "}}
BadSkipif|{"run":{"Script":"x","Skipif":" onpath x"}}
BadSkipif|{"run":{"Script":"x","Skipif":"Onpath x"}}
BadSkipif|{"run":{"Script":"x","Skipif":"exists \t "}}
BadSkipif|{"run":{"Script":"x","Skipif":"true"}}
Ok x|{"run":{"Script":"x","Skipif":"exists  /opt/x "}}
Ok x|{"run":{"Script":"x","Skipif":null}}
WrongKind Timeout|{"run":{"Script":"x","Timeout":"1","Setenv":1}}
BadTimeout|{"run":{"Script":"x","Timeout":0,"Setenv":1}}
BadTimeout|{"run":{"Script":"x","Timeout":1000001}}
BadTimeout|{"run":{"Script":"x","Timeout":-1}}
BadTimeout|{"run":{"Script":"x","Timeout":18446744073709551615}}
Ok x|{"run":{"Script":"x","Timeout":1}}
Ok x|{"run":{"Script":"x","Timeout":1000000}}
Ok x|{"run":{"Script":"x","Timeout":null}}
WrongKind Setenv|{"run":{"Script":"x","Setenv":1}}
RunAndStartup|{"run":"x","startup":"y"}
Ok|{"run":null,"startup":"y"}
Back|{"bootstrap":{"Script":"b","BootstrapOnRollback":true}}
Back x|{"BOOTSTRAP":{"script":"b","bootstraponrollback":true},"run":"x"}
Back|{"bootstrap":{"Script":"b","BootstrapOnRollback":true,"bootstraponrollback":false}}
Ok|{"bootstrap":{"Script":"b","BootstrapOnRollback":false,"bootstraponrollback":true}}
Ok|{"bootstrap":{"Script":"b","BootstrapOnRollback":false}}
Ok|{"bootstrap":{"Script":"b","BootstrapOnRollback":null}}
Ok|{"bootstrap":{"Script":"b","BootstrapOnRollback":"true"}}
Ok|{"bootstrap":{"Script":"b","BootstrapOnRollback":1}}
Ok|{"bootstrap":{"Script":"b","BootstrapOnRollback":[true]}}
Ok|{"bootstrap":"b"}
Ok|{"install":{"Script":"b","BootstrapOnRollback":true}}
Ok|{"BootstrapOnRollback":true,"bootstrap":{"Script":"b"}}
Missing Script|{"bootstrap":{"BootstrapOnRollback":true}}"#;

/// The artifacts of a manifest. Each line is what is answered, `Ok` with the script of the run step, a bar and the text.
const ARTIFACTS: &str = concat!(
    r#"WrongKind Artifacts|{}
TooMany Artifacts|[0,0,0,0,0,0,0,0,0,0,0,0,0,0,0,0,0,0,0,0,0,0,0,0,0,0,0,0,0,0,0,0,0,0,0,0,0,0,0,0,0,0,0,0,0,0,0,0,0,0,0,0,0,0,0,0,0,0,0,0,0,0,0,0,0]
WrongKind Artifacts|[1]
DuplicateKey URI|[{"URI":1,"Uri":1}]
DuplicateKey Unarchive|[{"Uri":"s3://b/f","Unarchive":null,"unarchive":null}]
DuplicateKey Digest|[{"uri":1,"Digest":null,"digest":null}]
DuplicateKey Algorithm|[{"Uri":"s3://b/f","Algorithm":1,"ALGORITHM":1,"Digest":1,"digest":1}]
Missing URI|[{}]
WrongKind URI|[{"Uri":null,"Unarchive":"ZIP"}]
UnsupportedUri|[{"Uri":"ftp://x/y","Unarchive":"ZIP"}]
UnsupportedUri|[{"Uri":"s3:x","Unarchive":"ZIP"}]
UnsupportedUri|[{"Uri":"s3://b/","Unarchive":"ZIP"}]
UnsupportedUri|[{"Uri":"s3://b/..","Unarchive":"ZIP"}]
UnsupportedUri|[{"Uri":"s3://b/.","Unarchive":"ZIP"}]
UnsupportedUri|[{"Uri":"s3://b/a b","Unarchive":"ZIP"}]
UnsupportedUri|[{"Uri":"S3://b/x","Unarchive":"ZIP"}]
UnsupportedUri|"#,
    r#"[{"Uri":"s3://b/aaaaaaaaaaaaaaaaaaaaaaaaaaaaaaaaaaaaaaaaaaaaaaaaaaaaaaaaaaaaaaaaaaaaaaaaaaaaaaaaaaaaaaaaaaaaaaaaaaaaaaaaaaaaaaaaaaaaaaaaaaaaaaaaa","#,
    r#""Unarchive":"ZIP"}]
Ok|[{"Uri":"s3://b/f"}]
Ok|[{"Uri":"https://h/a/f.zip"}]
Ok|[{"Uri":"greengrass:x/y"}]
Ok|[{"Uri":"file:///tmp/f"}]
Ok|[{"Uri":"s3://b/aaaaaaaaaaaaaaaaaaaaaaaaaaaaaaaaaaaaaaaaaaaaaaaaaaaaaaaaaaaaaaaaaaaaaaaaaaaaaaaaaaaaaaaaaaaaaaaaaaaaaaaaaaaaaaaaaaaaaaaaaaaaaaaa"}]
ZipArtifact|[{"Uri":"s3://b/f","Unarchive":"ZIP","Algorithm":"x"}]
WrongKind Unarchive|[{"Uri":"s3://b/f","Unarchive":"zip"}]
WrongKind Unarchive|[{"Uri":"s3://b/f","Unarchive":1,"Algorithm":"x"}]
BadDigest|[{"Uri":"s3://b/f","Algorithm":"SHA-1"}]
BadDigest|[{"Uri":"s3://b/f","Algorithm":1,"Digest":1}]
Ok|[{"Uri":"s3://b/f","Algorithm":"SHA-256"}]
BadDigest|[{"Uri":"s3://b/f","Digest":"ba7816bf8f01cfea414140de5dae2223b00361a396177a9cb410ff61f20015a"}]
BadDigest|[{"Uri":"s3://b/f","Digest":"ba7816bf8f01cfea414140de5dae2223b00361a396177a9cb410ff61f20015ad0"}]
BadDigest|[{"Uri":"s3://b/f","Digest":"ba7816bf8f01cfea414140de5dae2223b00361a396177a9cb410ff61f20015ag"}]
BadDigest|[{"Uri":"s3://b/f","Digest":"ungWv48Bz+pBQUDeXa4iI7ADYaOWF3qctBD/YfIAFa0"}]
BadDigest|[{"Uri":"s3://b/f","Digest":"YWJj"}]
BadDigest|[{"Uri":"s3://b/f","Digest":1}]
Ok|[{"Uri":"s3://b/f","Digest":"ba7816bf8f01cfea414140de5dae2223b00361a396177a9cb410ff61f20015ad"}]
Ok|[{"Uri":"s3://b/f","Digest":"BA7816BF8F01CFEA414140DE5DAE2223B00361A396177A9CB410FF61F20015AD"}]
Ok|[{"Uri":"s3://b/f","Digest":"ungWv48Bz+pBQUDeXa4iI7ADYaOWF3qctBD/YfIAFa0="}]
Ok|[{"Uri":"s3://b/f","Digest":null}]
DuplicateArtifact|[{"Uri":"s3://b/f"},{"Uri":"https://c/f"},{"Uri":1}]
Missing URI|[{"Uri":"s3://b/f"},{},{"Uri":"s3://c/f"}]
Ok|[{"Uri":"s3://b/f"},{"Uri":"s3://b/g"}]"#
);

const HEAD: &str =
    r#"{"RecipeFormatVersion":"2020-01-25","ComponentName":"com.x","ComponentVersion":"1.0.0","#;

fn script_of(recipe: &Recipe) -> &str {
    match recipe.step(Step::Run) {
        Some(step) => step.script.as_str(),
        None => "",
    }
}

fn is_said(recipe: &Recipe, wanted: &str) -> bool {
    let (word, script) = wanted.split_once(' ').unwrap_or((wanted, ""));
    let said = if recipe.boot_back { "Back" } else { "Ok" };
    word == said && script_of(recipe) == script
}

fn is_answer(
    alloc: Global,
    answer: &Result<Recipe, RecipeFault>,
    wanted: &str,
) -> Result<bool, Fail> {
    match answer {
        Ok(recipe) => Ok(is_said(recipe, wanted)),
        Err(fault) => Ok(fault.to_string(alloc)?.as_str() == wanted),
    }
}

/// Whether what is read of the bytes is as it says.
fn is_answered(
    alloc: Global,
    platform: &Platform,
    bytes: &[u8],
    wanted: &str,
) -> Result<bool, Fail> {
    let read = Recipe::read(alloc, bytes, platform);
    let is_answer = is_answer(alloc, &read, wanted);
    drop(read);
    is_answer
}

fn is_row(
    alloc: Global,
    platform: &Platform,
    prefix: &str,
    row: &str,
    back: &str,
) -> Result<bool, Fail> {
    let Some((answer, middle)) = row.split_once('|') else {
        return Ok(false);
    };
    let text = joined(alloc, prefix, middle, back)?;
    is_answered(alloc, platform, text.as_bytes(), answer)
}

fn is_read(alloc: Global, platform: &Platform, bytes: &[u8]) -> bool {
    let read = Recipe::read(alloc, bytes, platform);
    let is_read = read.is_ok();
    drop(read);
    is_read
}

/// A recipe with blanks at its end, of so many bytes.
fn padded(alloc: Global, length: usize) -> Result<Vec<u8>, Fail> {
    let mut bytes = Vec::from_slice(alloc, HELLO.as_bytes())?;
    bytes.resize(length, b' ')?;
    Ok(bytes)
}

/// With blanks at its end a recipe is read up to 65,536 bytes.
fn is_limited(alloc: Global, platform: &Platform) -> Result<bool, Fail> {
    let mut bytes = padded(alloc, 65_536)?;
    let is_read = is_read(alloc, platform, bytes.as_slice());
    bytes.push(b' ')?;
    let is_refused = is_answered(alloc, platform, bytes.as_slice(), "TooLarge")?;
    Ok(is_read && is_refused)
}

/// The number from 1 of the first row of a table that is not answered as it says, or 0.
fn first_wrong(
    alloc: Global,
    platform: &Platform,
    prefix: &str,
    table: &str,
    back: &str,
) -> Result<usize, Fail> {
    let mut number = 0usize;
    for row in table.lines() {
        number = number.saturating_add(1);
        if !is_row(alloc, platform, prefix, row, back)? {
            return Ok(number);
        }
    }
    Ok(0)
}

/// The same on Linux.
fn first_wrong_on_linux(
    alloc: Global,
    prefix: &str,
    table: &str,
    back: &str,
) -> Result<usize, Fail> {
    let platform = linux(alloc)?;
    let wrong = first_wrong(alloc, &platform, prefix, table, back);
    drop(platform);
    wrong
}

/// The same behind the three keys that must be there.
fn first_wrong_body(alloc: Global, opening: &str, table: &str, back: &str) -> Result<usize, Fail> {
    let prefix = joined(alloc, HEAD, opening, "")?;
    first_wrong_on_linux(alloc, prefix.as_str(), table, back)
}

fn is_limited_on_linux(alloc: Global) -> Result<bool, Fail> {
    let platform = linux(alloc)?;
    let is_limited = is_limited(alloc, &platform);
    drop(platform);
    is_limited
}

#[test]
fn recipes_are_read_or_refused(rt: HostRuntime) -> Result<(), Fail> {
    let alloc = rt.alloc();
    assert_eq!(rt; first_wrong_on_linux(alloc, "", WHOLE, "")?, 0);
    assert_eq!(rt; first_wrong_body(alloc, "", BODIES, "}")?, 0);
    assert_eq!(rt;
        first_wrong_body(alloc, r#""Manifests":["#, MANIFESTS, "]}")?,
        0
    );
    let opening = r#""Manifests":[{"Lifecycle":{"run":"here"},"Platform":"#;
    assert_eq!(rt; first_wrong_body(alloc, opening, PLATFORMS, "}]}")?, 0);
    let opening = r#""Manifests":[{"Lifecycle":"#;
    assert_eq!(rt; first_wrong_body(alloc, opening, LIFECYCLES, "}]}")?, 0);
    let opening = r#""Manifests":[{"Artifacts":"#;
    assert_eq!(rt; first_wrong_body(alloc, opening, ARTIFACTS, "}]}")?, 0);
    assert!(rt; is_limited_on_linux(alloc)?);
    Ok(())
}

/// A script with an artifact.
const HELLO: &str = r#"{
  "RecipeFormatVersion": "2020-01-25",
  "ComponentName": "com.example.HelloWorld",
  "ComponentVersion": "1.0.0",
  "ComponentDescription": "My first AWS IoT Greengrass component.",
  "ComponentPublisher": "Amazon",
  "ComponentConfiguration": { "DefaultConfiguration": { "Message": "world" } },
  "Manifests": [
    {
      "Platform": { "os": "linux" },
      "Lifecycle": { "run": "python3 -u {artifacts:path}/hello_world.py \"{configuration:/Message}\"" },
      "Artifacts": [ { "URI": "s3://DOC-EXAMPLE-BUCKET/artifacts/com.example.HelloWorld/1.0.0/hello_world.py" } ]
    }
  ]
}"#;

const HELLO_SCRIPT: &str =
    r#"python3 -u {artifacts:path}/hello_world.py "{configuration:/Message}""#;

/// Dependencies and a configuration.
const NEEDS: &str = r#"{
  "RecipeFormatVersion": "2020-01-25",
  "ComponentName": "com.example.FooService",
  "ComponentVersion": "1.0.0",
  "ComponentDescription": "Complete recipe for AWS IoT Greengrass components",
  "ComponentPublisher": "Amazon",
  "ComponentConfiguration": { "DefaultConfiguration": { "TestParam": "TestValue" } },
  "ComponentDependencies": {
    "BarService": { "VersionRequirement": "^1.1", "DependencyType": "SOFT" },
    "BazService": { "VersionRequirement": "^2.0" }
  },
  "Manifests": [
    {
      "Platform": { "os": "linux", "architecture": "amd64" },
      "Lifecycle": {
        "Setenv": { "environment_variable1": "variable_value1", "environment_variable2": "variable_value2" },
        "Install": {
          "Skipif": "onpath git",
          "Script": "sudo apt-get install git",
          "Setenv": { "environment_variable1": "own", "count": 3, "quiet": true }
        }
      },
      "Artifacts": [ {
        "URI": "s3://DOC-EXAMPLE-BUCKET/hello_world.zip",
        "Unarchive": "NONE",
        "Algorithm": "SHA-256",
        "Digest": "ungWv48Bz+pBQUDeXa4iI7ADYaOWF3qctBD/YfIAFa0="
      } ]
    }
  ]
}"#;

/// Several manifests.
const SEVERAL: &str = r#"{
  "RecipeFormatVersion": "2020-01-25",
  "ComponentName": "com.example.PythonRuntime",
  "ComponentVersion": "3.7.0",
  "Manifests": [
    { "Platform": { "os": "windows" }, "Lifecycle": { "install": { "script": "choco install python3" } } },
    { "Platform": { "os": "/linux|darwin/" }, "Lifecycle": { "startup": { "script": "start", "timeout": 900 }, "shutdown": "stop" } },
    { "Lifecycle": { "run": "other" } }
  ]
}"#;

fn is_variable(variable: &(Text, Text), name: &str, value: &str) -> bool {
    variable.0.as_str() == name && variable.1.as_str() == value
}

fn is_named(recipe: &Recipe, name: &str, version: &str) -> bool {
    recipe.name.as_str() == name && recipe.version.text().as_str() == version
}

fn has_message(recipe: &Recipe, text: &str) -> bool {
    match recipe.default_config.member("Message") {
        Some(Tree::Text(message)) => message.as_str() == text,
        _ => false,
    }
}

fn has_plain_artifact(recipe: &Recipe, file: &str) -> bool {
    match recipe.artifacts.as_slice() {
        [artifact] => artifact.file.as_str() == file && artifact.digest.is_none(),
        _ => false,
    }
}

fn runs(recipe: &Recipe, script: &str) -> bool {
    match recipe.step(Step::Run) {
        Some(step) => {
            step.script.as_str() == script && step.limit_ms.is_none() && step.env.is_empty()
        }
        None => false,
    }
}

fn is_needed(dependency: &Dependency, name: &str, range: &str, hard: bool) -> bool {
    dependency.name.as_str() == name
        && dependency.range.text().as_str() == range
        && dependency.hard == hard
}

fn needs_two(recipe: &Recipe) -> bool {
    match recipe.dependencies.as_slice() {
        [bar, baz] => is_needed(bar, "BarService", "^1.1", false)
            && is_needed(baz, "BazService", "^2.0", true),
        _ => false,
    }
}

fn is_skipped_on_path(step: &StepDef, word: &str) -> bool {
    match &step.skip {
        Some(Skip::OnPath(program)) => program.as_str() == word,
        _ => false,
    }
}

/// The step's own variable wins, a number and a truth value are their texts, and the names rise.
fn has_four_variables(step: &StepDef) -> bool {
    match step.env.as_slice() {
        [count, first, second, quiet] => {
            is_variable(count, "count", "3")
                && is_variable(first, "environment_variable1", "own")
                && is_variable(second, "environment_variable2", "variable_value2")
                && is_variable(quiet, "quiet", "true")
        }
        _ => false,
    }
}

fn installs(recipe: &Recipe) -> bool {
    match recipe.step(Step::Install) {
        Some(step) => {
            step.limit_ms == Some(120_000)
                && is_skipped_on_path(step, "git")
                && has_four_variables(step)
        }
        None => false,
    }
}

/// The digest is that of the bytes `abc` (FIPS 180-4).
fn has_digest(recipe: &Recipe) -> bool {
    match recipe.artifacts.as_slice() {
        [artifact] => match artifact.digest {
            Some(digest) => digest[0] == 0xba && digest[31] == 0xad,
            None => false,
        },
        _ => false,
    }
}

fn starts_up(recipe: &Recipe) -> bool {
    match recipe.step(Step::Startup) {
        Some(step) => step.script.as_str() == "start" && step.limit_ms == Some(900_000),
        None => false,
    }
}

fn has_second_manifest(recipe: &Recipe) -> bool {
    starts_up(recipe)
        && recipe.step(Step::Install).is_none()
        && recipe.step(Step::Run).is_none()
        && recipe.step(Step::Shutdown).is_some()
        && recipe.artifacts.is_empty()
}

fn is_hello(recipe: &Recipe) -> bool {
    is_named(recipe, "com.example.HelloWorld", "1.0.0")
        && has_message(recipe, "world")
        && has_plain_artifact(recipe, "hello_world.py")
        && runs(recipe, HELLO_SCRIPT)
}

fn is_in_need(recipe: &Recipe) -> bool {
    needs_two(recipe) && installs(recipe) && has_digest(recipe)
}

/// One of the guide's recipes, by what it shows.
#[derive(Clone, Copy)]
enum Shown {
    Hello,
    Needs,
    Several,
}

fn text_of(shown: Shown) -> &'static str {
    match shown {
        Shown::Hello => HELLO,
        Shown::Needs => NEEDS,
        Shown::Several => SEVERAL,
    }
}

fn is_shown(recipe: &Recipe, shown: Shown) -> bool {
    match shown {
        Shown::Hello => is_hello(recipe),
        Shown::Needs => is_in_need(recipe),
        Shown::Several => has_second_manifest(recipe),
    }
}

fn is_read_as_shown(alloc: Global, platform: &Platform, shown: Shown) -> Result<bool, Fail> {
    let recipe = Recipe::read(alloc, text_of(shown).as_bytes(), platform)?;
    let is_shown = is_shown(&recipe, shown);
    drop(recipe);
    Ok(is_shown)
}

fn is_read_on_linux(alloc: Global, shown: Shown) -> Result<bool, Fail> {
    let platform = linux(alloc)?;
    let is_read = is_read_as_shown(alloc, &platform, shown);
    drop(platform);
    is_read
}

#[test]
fn recipes_of_the_guide_are_read(rt: HostRuntime) -> Result<(), Fail> {
    let alloc = rt.alloc();
    assert!(rt; is_read_on_linux(alloc, Shown::Hello)?);
    assert!(rt; is_read_on_linux(alloc, Shown::Needs)?);
    assert!(rt; is_read_on_linux(alloc, Shown::Several)?);
    Ok(())
}
