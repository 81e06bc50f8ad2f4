// Configurations that an update makes, and the nodes that pointers name.
ghost use Rattle.std.specs.Prelude.{IfOk, IfSome};
ghost use Rattle.tree_core.specs.Regular.{IsRegular};
ghost use Rattle.tree_core.specs.View.{view};
ghost use Rattle.config_ops.specs.NewConfig.{IsRegularUpdate};

use config_ops::{Update, new_config};
use nuc_base::{List, Pointer};
use std::alloc::Global;
use std::test::Fail;
use tree_core::Tree;

// The default, what is kept (the empty text: nothing), the resets (the empty text: no update), the value to merge
// (the empty text: none), and the configuration. Computed by hand and by a program in another language that follows
// the rules over maps.
const ROWS: &str = concat!(
    r#"{"a":1,"b":{"c":2}};{"a":5,"b":{"c":9,"d":0},"m~n":8,"x/y":7};["/a","/b/d","/x~1y","/m~0n","/b/c/0"];{"l":[3]};{"a":1,"b":{"c":9},"l":[3]}
{"a":1,"b":{"c":2}};{"a":5,"b":{"c":9,"d":0},"m~n":8,"x/y":7};[""];{"b":{"c":null}};{"a":1,"b":{"c":null}}
{};{"l":[1,2],"o":{"p":1}};[];{"l":[3],"o":{"q":2}};{"l":[3],"o":{"p":1,"q":2}}
{"a":1,"b":{"c":2}};;;;{"a":1,"b":{"c":2}}
{"a":1,"b":{"c":2}};;[];;{"a":1,"b":{"c":2}}
{"a":1,"b":{"c":2}};{"a":5,"b":{"c":9,"d":0},"m~n":8,"x/y":7};;;{"a":5,"b":{"c":9,"d":0},"m~n":8,"x/y":7}
{};{};;;{}
{"a":{"b":{"c":1}}};{"a":{"b":{}}};;;{"a":{"b":{"c":1}}}
{"a":{"b":1},"c":[1],"d":"x"};{"a":7,"c":{"k":2},"d":null};;;{"a":7,"c":{"k":2},"d":null}
{"a":1};{"a":{"b":2}};;;{"a":{"b":2}}
{"b":1,"d":2,"f":3};{"a":0,"c":0,"e":0,"g":0};;;{"a":0,"b":1,"c":0,"d":2,"e":0,"f":3,"g":0}
{"a":1,"b":2};{"c":3,"d":4};;;{"a":1,"b":2,"c":3,"d":4}
{"c":1,"d":2};{"a":3,"b":4};;;{"a":3,"b":4,"c":1,"d":2}
{"":1,"a":2,"aa":3,"b":4};{"aa":5};;;{"":1,"a":2,"aa":5,"b":4}
{"o":{"p":{"q":1,"r":2},"s":3},"t":"text","l":[{"k":1}],"n":null,"f":false};"#,
    r#"{"t":{"u":5},"o":"text"};["/o/p"];;{"f":false,"l":[{"k":1}],"n":null,"o":"text","t":{"u":5}}
{"o":{"p":{"q":1,"r":2},"s":3},"t":"text","l":[{"k":1}],"n":null,"f":false};{"o":"text"};["/o/p/q"];;{"f":false,"l":[{"k":1}],"n":null,"o":"text","t":"text"}
{"o":{"p":{"q":1,"r":2},"s":3},"t":"text","l":[{"k":1}],"n":null,"f":false};{"o":{"p":"text"}};"#,
    r#"["/o/p/q"];;{"f":false,"l":[{"k":1}],"n":null,"o":{"p":"text","s":3},"t":"text"}
{"o":{"p":{"q":1,"r":2},"s":3},"t":"text","l":[{"k":1}],"n":null,"f":false};{"o":7};["/o/s"];;{"f":false,"l":[{"k":1}],"n":null,"o":7,"t":"text"}
{"o":{"p":{"q":1,"r":2},"s":3},"t":"text","l":[{"k":1}],"n":null,"f":false};{"o":null};["/o/s"];;{"f":false,"l":[{"k":1}],"n":null,"o":null,"t":"text"}
{"o":{"p":{"q":1,"r":2},"s":3},"t":"text","l":[{"k":1}],"n":null,"f":false};{"o":true};["/o/s"];;{"f":false,"l":[{"k":1}],"n":null,"o":true,"t":"text"}
{"o":{"p":{"q":1,"r":2},"s":3},"t":"text","l":[{"k":1}],"n":null,"f":false};{"t":"kept"};"#,
    r#"["/t/u"];;{"f":false,"l":[{"k":1}],"n":null,"o":{"p":{"q":1,"r":2},"s":3},"t":"kept"}
{"o":{"p":{"q":1,"r":2},"s":3},"t":"text","l":[{"k":1}],"n":null,"f":false};{"t":"kept"};"#,
    r#"["/t"];;{"f":false,"l":[{"k":1}],"n":null,"o":{"p":{"q":1,"r":2},"s":3},"t":"text"}
{"o":{"p":{"q":1,"r":2},"s":3},"t":"text","l":[{"k":1}],"n":null,"f":false};{"l":[{"k":2}]};"#,
    r#"["/l/0/k"];;{"f":false,"l":[{"k":2}],"n":null,"o":{"p":{"q":1,"r":2},"s":3},"t":"text"}
{"o":{"p":{"q":1,"r":2},"s":3},"t":"text","l":[{"k":1}],"n":null,"f":false};{"l":[{"k":2}]};"#,
    r#"["/l/0"];;{"f":false,"l":[{"k":2}],"n":null,"o":{"p":{"q":1,"r":2},"s":3},"t":"text"}
{"o":{"p":{"q":1,"r":2},"s":3},"t":"text","l":[{"k":1}],"n":null,"f":false};{"l":[{"k":2}]};"#,
    r#"["/l"];;{"f":false,"l":[{"k":1}],"n":null,"o":{"p":{"q":1,"r":2},"s":3},"t":"text"}
{"o":{"p":{"q":1,"r":2},"s":3},"t":"text","l":[{"k":1}],"n":null,"f":false};"#,
    r#"{"o":[{"s":9}]};["/o/s"];;{"f":false,"l":[{"k":1}],"n":null,"o":[{"s":9}],"t":"text"}
{"o":{"p":{"q":1,"r":2},"s":3},"t":"text","l":[{"k":1}],"n":null,"f":false};{"o":{"p":[]}};"#,
    r#"["/o/p/r"];;{"f":false,"l":[{"k":1}],"n":null,"o":{"p":[],"s":3},"t":"text"}
{};{"l":[1,[2]]};["/l/1/0","/l/-","/l/0"];;{"l":[1,[2]]}
{"l":{"0":"d"}};{"l":["kept"]};["/l/0"];;{"l":["kept"]}
{"l":{"0":"d"}};{"l":{"0":"kept"}};["/l/0"];;{"l":{"0":"d"}}
{"o":{"p":{"q":1,"r":2},"s":3},"t":"text","l":[{"k":1}],"n":null,"f":false};{"o":{"s":9}};"#,
    r#"["/o/p/q"];;{"f":false,"l":[{"k":1}],"n":null,"o":{"p":{"q":1,"r":2},"s":9},"t":"text"}
{"o":{"p":{"q":1,"r":2}}};{};["/x/y/z"];;{"o":{"p":{"q":1,"r":2}}}
{"o":{"p":1}};{"o":{"x":{"y":2}}};["/o/x/z","/o/x/y"];;{"o":{"p":1,"x":{}}}
{"o":{"p":1}};{"o":{"x":{"y":2}}};["/o/x"];;{"o":{"p":1}}
{"o":{"p":1}};{"x":{"y":2,"z":3}};["/x/y"];;{"o":{"p":1},"x":{"z":3}}
{"o":{"p":{"q":1,"r":2}}};{"o":{"p":{"q":5,"r":6},"z":7}};["/o/z","/o/p/q"];;{"o":{"p":{"q":1,"r":6}}}
{"a":{"b":1,"c":2}};{"a":{"b":5,"c":6}};["/a/b","/a"];;{"a":{"b":1,"c":2}}
{"a":{"b":1,"c":2}};{"a":{"b":5,"c":6,"d":7}};["/a","/a/d"];;{"a":{"b":1,"c":2}}
{"o":{"p":{"q":1,"r":2},"s":3},"t":"text","l":[{"k":1}],"n":null,"f":false};{"f":1,"l":2,"n":3,"o":4,"t":5};"#,
    r#"["/f","/l","/n","/o","/t"];;{"f":false,"l":[{"k":1}],"n":null,"o":{"p":{"q":1,"r":2},"s":3},"t":"text"}
{"o":{"p":{"q":1,"r":2},"s":3},"t":"text","l":[{"k":1}],"n":null,"f":false};{"f":1,"l":2,"n":3,"o":4,"t":5};["/n"];;{"f":1,"l":2,"n":null,"o":4,"t":5}
{"n":null};{"n":{"a":1}};["/n/a"];;{"n":{}}
{"a":1,"b":{"c":2}};{"z":[9]};[""];;{"a":1,"b":{"c":2}}
{"a":1,"b":{"c":2}};{"a":7,"z":[9]};["/z",""];;{"a":1,"b":{"c":2}}
{"a":1,"b":{"c":2}};{"a":7,"z":[9]};["","/z"];;{"a":1,"b":{"c":2}}
{"a":1};{"a":5};["/a"];{"a":2};{"a":2}
{"a":1};{"a":5,"b":6};["/b"];{"b":7};{"a":5,"b":7}
{"a":{"x":1,"y":2}};{"a":{"x":5}};["/a/x"];{"a":{"y":null,"z":[]}};{"a":{"x":1,"y":null,"z":[]}}
{"a":{"x":1}};{"a":{"x":5}};[];{"a":7};{"a":7}
{"a":{"x":1}};{"a":7};[];{"a":{"y":2}};{"a":{"x":1,"y":2}}
{"a":[1,2]};{"a":[3]};[];{"a":[]};{"a":[]}
{"a":1,"b":{"c":2}};;[];{"a":null,"b":{"c":null,"d":{"e":{}}}};{"a":null,"b":{"c":null,"d":{"e":{}}}}
{"a":{"b":{"c":{"d":1}}}};;[];{"a":{"b":{"c":{"e":2},"f":3},"g":4},"h":5};{"a":{"b":{"c":{"d":1,"e":2},"f":3},"g":4},"h":5}
{"b":2,"d":4};{"c":3};[];{"a":1,"b":0,"c":0,"e":5};{"a":1,"b":0,"c":0,"d":4,"e":5}
{"~1":1,"/":2,"~":3,"a/b~c":4};{"~1":"","/":"","~":"","a/b~c":""};["/~01"];;{"/":"","a/b~c":"","~":"","~1":1}
{"~1":1,"/":2,"~":3,"a/b~c":4};{"~1":"","/":"","~":"","a/b~c":""};["/~1","/~0"];;{"/":2,"a/b~c":"","~":3,"~1":""}
{"~1":1,"/":2,"~":3,"a/b~c":4};{"~1":"","/":"","~":"","a/b~c":""};["/a~1b~0c"];;{"/":"","a/b~c":4,"~":"","~1":""}
{"":{"":1}};{"":{"":2,"a":3}};["//"];;{"":{"":1,"a":3}}
{"":{"":1}};{"":{"":2,"a":3}};["/"];;{"":{"":1}}"#
);

const DOCUMENT: &str =
    r#"{"foo":["bar","baz"],"":0,"a/b":1,"c%d":2,"e^f":3,"g|h":4,"i\\j":5,"k\"l":6," ":7,"m~n":8}"#;

// The examples of RFC 6901, section 5, and what the document has at each.
const POINTERS: &str = r#"/foo;["bar","baz"]
/foo/0;"bar"
/;0
/a~1b;1
/c%d;2
/e^f;3
/g|h;4
/i\j;5
/k"l;6
/ ;7
/m~0n;8"#;

fn read(alloc: Global, text: &str) -> Result<Tree, Fail>
    ensures { IfOk result (λ t. IsRegular (view t)) }
{
    Ok(Tree::read(alloc, text.as_bytes(), 1000)?)
}

fn optional(alloc: Global, text: &str) -> Result<Option<Tree>, Fail>
    ensures { IfOk result (λ o. IfSome o (λ t. IsRegular (view t))) }
{
    if text.is_empty() {
        return Ok(None);
    }
    Ok(Some(read(alloc, text)?))
}

/// Adds the pointer that an item spells.
fn push_pointer(alloc: Global, pointers: &mut List<Pointer>, item: &Tree) -> Result<(), Fail> {
    if let Some(text) = item.as_text() {
        let pointer = Pointer::read(alloc, text.as_str())?;
        pointers.push(pointer)?;
    }
    Ok(())
}

fn push_pointers(alloc: Global, pointers: &mut List<Pointer>, tree: &Tree) -> Result<(), Fail> {
    if let Tree::Items(items) = tree {
        for item in items {
            push_pointer(alloc, pointers, item)?;
        }
    }
    Ok(())
}

fn pointers(alloc: Global, text: &str) -> Result<List<Pointer>, Fail> {
    let tree = read(alloc, text)?;
    let mut pointers = List::empty(alloc);
    let pushed = push_pointers(alloc, &mut pointers, &tree);
    drop(tree);
    pushed?;
    Ok(pointers)
}

fn update(alloc: Global, resets: &str, merge: &str) -> Result<Option<Update>, Fail>
    ensures { IfOk result (λ o. IfSome o IsRegularUpdate) }
{
    if resets.is_empty() {
        return Ok(None);
    }
    let resets = pointers(alloc, resets)?;
    let merge = optional(alloc, merge)?;
    Ok(Some(Update { resets, merge }))
}

fn is_written(alloc: Global, tree: &Tree, wanted: &str) -> Result<bool, Fail>
    requires { IsRegular (view tree.now) }
{
    Ok(tree.write(alloc)?.as_str() == wanted)
}

/// The configuration that an update makes is the wanted one.
fn makes(
    alloc: Global,
    default: &Tree,
    kept: Option<&Tree>,
    update: Option<&Update>,
    wanted: &str,
) -> Result<bool, Fail>
    requires default { IsRegular (view default.now) }
    requires kept { IfSome kept (λ t. IsRegular (view t.now)) }
    requires update { IfSome update (λ u. IsRegularUpdate u.now) }
{
    let tree = new_config(alloc, kept, default, update)?;
    let is_wanted = is_written(alloc, &tree, wanted);
    drop(tree);
    is_wanted
}

/// The same, of an update and a configuration that are written out.
fn makes_as_asked(
    alloc: Global,
    default: &Tree,
    kept: Option<&Tree>,
    asked: &str,
) -> Result<bool, Fail>
    requires default { IsRegular (view default.now) }
    requires kept { IfSome kept (λ t. IsRegular (view t.now)) }
{
    let Some((resets, rest)) = asked.split_once(';') else {
        return Ok(false);
    };
    let Some((merge, wanted)) = rest.split_once(';') else {
        return Ok(false);
    };
    let update = update(alloc, resets, merge)?;
    let is_wanted = makes(alloc, default, kept, update.as_ref(), wanted);
    drop(update);
    is_wanted
}

/// The same, and what is kept is written out too.
fn gives_of(alloc: Global, default: &Tree, kept: &str, asked: &str) -> Result<bool, Fail>
    requires { IsRegular (view default.now) }
{
    let kept = optional(alloc, kept)?;
    let is_wanted = makes_as_asked(alloc, default, kept.as_ref(), asked);
    drop(kept);
    is_wanted
}

/// The configuration that the first four parts of a row make is the last.
fn gives(alloc: Global, default: &str, kept: &str, asked: &str) -> Result<bool, Fail> {
    let default = read(alloc, default)?;
    let is_wanted = gives_of(alloc, &default, kept, asked);
    drop(default);
    is_wanted
}

fn is_row(alloc: Global, row: &str) -> Result<bool, Fail> {
    let Some((default, rest)) = row.split_once(';') else {
        return Ok(false);
    };
    let Some((kept, asked)) = rest.split_once(';') else {
        return Ok(false);
    };
    gives(alloc, default, kept, asked)
}

fn is_node(tree: &Tree, at: &Pointer, wanted: &Tree) -> bool
    requires { IsRegular (view tree.now) }
{
    match tree.get(at) {
        Some(node) => *node == *wanted,
        None => false,
    }
}

fn names_in(alloc: Global, tree: &Tree, pointer: &str, wanted: &Tree) -> Result<bool, Fail>
    requires { IsRegular (view tree.now) }
{
    let at = Pointer::read(alloc, pointer)?;
    Ok(is_node(tree, &at, wanted))
}

fn names_written(alloc: Global, tree: &Tree, pointer: &str, wanted: &str) -> Result<bool, Fail>
    requires { IsRegular (view tree.now) }
{
    let wanted = read(alloc, wanted)?;
    let is_named = names_in(alloc, tree, pointer, &wanted);
    drop(wanted);
    is_named
}

/// The pointer names the wanted node of the document.
fn names(alloc: Global, pointer: &str, wanted: &str) -> Result<bool, Fail> {
    let tree = read(alloc, DOCUMENT)?;
    let is_named = names_written(alloc, &tree, pointer, wanted);
    drop(tree);
    is_named
}

fn is_named(alloc: Global, row: &str) -> Result<bool, Fail> {
    let Some((pointer, wanted)) = row.split_once(';') else {
        return Ok(false);
    };
    names(alloc, pointer, wanted)
}

#[test]
fn rows(rt: HostRuntime) -> Result<(), Fail> {
    let alloc = rt.alloc();
    for row in ROWS.lines() {
        assert!(rt; is_row(alloc, row)?, "{row}");
    }
    for row in POINTERS.lines() {
        assert!(rt; is_named(alloc, row)?, "{row}");
    }
    assert!(rt; names(alloc, "", DOCUMENT)?);
    Ok(())
}
