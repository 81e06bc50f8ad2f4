// Texts with variables, and what they become.
ghost use Rattle.std.specs.Prelude.{IfOk, All};
ghost use Rattle.tree_core.specs.Regular.{IsRegular};
ghost use Rattle.tree_core.specs.View.{view};
ghost use Rattle.interpolation.specs.Scopes.{HasRegularConfigs};

use interpolation::{Place, Scope, expand, work_folder};
use npm_ranges::Version;
use nuc_base::{Label, List, Name, Text};
use std::alloc::Global;
use std::test::Fail;
use tree_core::Tree;

const CONFIG: &str = concat!(
    r#"{"a":"x","b":{"c":[1,true]},"d":[null,-5,"q",{"k":"v"}],"":"e","once":"{configuration:/a}","#,
    r#""half":"{work","n":18446744073709551615,"t":false,"s/t~u":"s","q\"":"say \"hi\""}"#
);

/// A text, and what it becomes.
const ROWS: &str =
    r#"echo ${HOME} {configuration:/b} {configuration:/a} {nope} {C:work:path};echo ${HOME} {"c":[1,true]} x {nope} /gg/work/C
;
plain;plain
{;{
};}
{};{}
}{;}{
{{}};{{}}
{configuration:/a;{configuration:/a
configuration:/a};configuration:/a}
{{configuration:/a}};{x}
{{{configuration:/a};{{x
{configuration:/a}}};x}}
{configuration:/a}{configuration:/a};xx
{}{configuration:/a}{;{}x{
{configuration:/{configuration:/a}};{configuration:/x}
{configuration:/{}a};{configuration:/{}a}
{configuration:/once};{configuration:/a}
{configuration:/half}:path};{work:path}
{configuration:/b};{"c":[1,true]}
{configuration:/b/c};[1,true]
{configuration:/b/c/0};1
{configuration:/b/c/1};true
{configuration:/b/c/2};{configuration:/b/c/2}
{configuration:/b/c/01};{configuration:/b/c/01}
{configuration:/b/c/-};{configuration:/b/c/-}
{configuration:/d};[null,-5,"q",{"k":"v"}]
{configuration:/d/0};null
{configuration:/d/1};-5
{configuration:/d/2};q
{configuration:/d/3};{"k":"v"}
{configuration:/d/3/k};v
{configuration:/n};18446744073709551615
{configuration:/t};false
{configuration:/};e
{configuration:/s~1t~0u};s
{configuration:/q"};say "hi"
{configuration:/z};{configuration:/z}
{configuration:a};{configuration:a}
{configuration:/~};{configuration:/~}
{configuration};{configuration}
{Configuration:/a};{Configuration:/a}
{artifacts:path};/gg/packages/artifacts/A/1.2.3
{artifacts:decompressedPath};/gg/packages/artifacts-unarchived/A/1.2.3
<{work:path}>;</gg/work/A>
{kernel:rootPath};/gg
{iot:thingName};thing-1
{work:path };{work:path }
{C:artifacts:path};/gg/packages/artifacts/C/2.0.0
{C:artifacts:decompressedPath};/gg/packages/artifacts-unarchived/C/2.0.0
{C:configuration:/p};7
{C:configuration:};{"p":7}
{C:kernel:rootPath};{C:kernel:rootPath}
{C:iot:thingName};{C:iot:thingName}
{C:C:work:path};{C:C:work:path}
{C:};{C:}
{:work:path};{:work:path}
{A:work:path};{A:work:path}
{D:work:path};{D:work:path}
{a:b:c};{a:b:c}
{configuration:work:path};/gg/work/configuration
é{é}{work:path}é;é{é}/gg/work/Aé"#;

fn place(alloc: Global, name: &str, version: &str, config: &str) -> Result<Place, Fail>
    ensures { IfOk result (λ p. IsRegular (view p.config)) }
{
    Ok(Place {
        name: Name::read(alloc, name.as_bytes())?,
        version: Version::read(alloc, version.as_bytes())?,
        config: Tree::read(alloc, config.as_bytes(), 5000)?,
    })
}

fn dependencies(alloc: Global) -> Result<List<Place>, Fail>
    ensures { IfOk result (λ ps. All (λ p. IsRegular (view p.config)) ps) }
{
    let mut places = List::empty(alloc);
    places.push(place(alloc, "C", "2.0.0", "{\"p\":7}")?)?;
    places.push(place(alloc, "C", "3.0.0", "{\"p\":8}")?)?;
    places.push(place(alloc, "configuration", "1.0.0", "{}")?)?;
    Ok(places)
}

fn scope_with(alloc: Global, config: &str) -> Result<Scope, Fail>
    ensures { IfOk result (λ s. HasRegularConfigs s) }
{
    Ok(Scope {
        root: Text::from_str(alloc, "/gg")?,
        thing: Label::read(alloc, b"thing-1")?,
        own: place(alloc, "A", "1.2.3", config)?,
        needed: dependencies(alloc)?,
    })
}

fn becomes(alloc: Global, scope: &Scope, text: &str, wanted: &str) -> Result<bool, Fail>
    requires { HasRegularConfigs scope.now }
{
    let text = Text::from_str(alloc, text)?;
    Ok(expand(alloc, &text, scope)?.as_str() == wanted)
}

fn is_row(alloc: Global, scope: &Scope, row: &str) -> Result<bool, Fail>
    requires { HasRegularConfigs scope.now }
{
    match row.split_once(';') {
        Some((text, wanted)) => becomes(alloc, scope, text, wanted),
        None => Ok(false),
    }
}

/// The first row that becomes another text than it should, or the empty text.
fn first_wrong<'t>(alloc: Global, scope: &Scope, rows: &'t str) -> Result<&'t str, Fail>
    requires { HasRegularConfigs scope.now }
{
    for row in rows.lines() {
        if !is_row(alloc, scope, row)? {
            return Ok(row);
        }
    }
    Ok("")
}

/// The same in the scope of the configuration above.
fn first_wrong_above(alloc: Global) -> Result<&'static str, Fail> {
    let scope = scope_with(alloc, CONFIG)?;
    let wrong = first_wrong(alloc, &scope, ROWS);
    drop(scope);
    wrong
}

/// A text of so many letters as JSON.
fn quoted(alloc: Global, letters: usize) -> Result<String, Fail> {
    let mut text = String::new(alloc);
    text.push('"')?;
    for _ in 0..letters {
        text.push('x')?;
    }
    text.push('"')?;
    Ok(text)
}

/// How many bytes `{configuration:}` becomes.
fn expanded_length(alloc: Global, scope: &Scope) -> Result<usize, Fail>
    requires { HasRegularConfigs scope.now }
{
    let text = Text::from_str(alloc, "{configuration:}")?;
    Ok(expand(alloc, &text, scope)?.len())
}

/// The same where the configuration is what is written.
fn expanded_length_with(alloc: Global, config: &str) -> Result<usize, Fail> {
    let scope = scope_with(alloc, config)?;
    let length = expanded_length(alloc, &scope);
    drop(scope);
    length
}

/// Whether `{configuration:}` is replaced where the configuration is a text of so many bytes.
fn is_put_in(alloc: Global, bytes: usize) -> Result<bool, Fail> {
    let config = quoted(alloc, bytes)?;
    Ok(expanded_length_with(alloc, config.as_str())? == bytes)
}

fn is_work_folder(alloc: Global, scope: &Scope, wanted: &str) -> Result<bool, Fail> {
    let folder = work_folder(alloc, &scope.root, &scope.own.name)?;
    Ok(folder.as_str() == wanted)
}

fn works_in(alloc: Global, wanted: &str) -> Result<bool, Fail> {
    let scope = scope_with(alloc, CONFIG)?;
    let is_wanted = is_work_folder(alloc, &scope, wanted);
    drop(scope);
    is_wanted
}

#[test]
fn variables_are_replaced(rt: HostRuntime) -> Result<(), Fail> {
    let alloc = rt.alloc();
    assert_eq!(rt; first_wrong_above(alloc)?, "");
    assert!(rt; is_put_in(alloc, 4096)? && !is_put_in(alloc, 4097)?);
    assert!(rt; works_in(alloc, "/gg/work/A")?);
    Ok(())
}
