// Rows of the tree reader, its writer and its nodes.
ghost use Rattle.tree_core.specs.Regular.{IsRegular};
ghost use Rattle.tree_core.specs.View.{view};

use nuc_base::{Copied, NoMemory, Pointer};
use std::alloc::Global;
use std::test::Fail;
use tree_core::{Tree, TreeFault};

fn fault_of(alloc: Global, text: &str) -> Option<TreeFault> {
    match Tree::read(alloc, text.as_bytes(), 300) {
        Ok(_) => None,
        Err(fault) => Some(fault),
    }
}

fn rewritten(alloc: Global, text: &str) -> Option<String> {
    match Tree::read(alloc, text.as_bytes(), 300) {
        Ok(tree) => match tree.write(alloc) {
            Ok(text) => Some(text.into_string()),
            Err(_) => None,
        },
        Err(_) => None,
    }
}

fn is_rewritten(alloc: Global, text: &str, wanted: &str) -> bool {
    match rewritten(alloc, text) {
        Some(found) => found.as_str() == wanted,
        None => false,
    }
}

/// Texts, and why they are no tree, if they are none.
const FAULTS: &[(&str, Option<TreeFault>)] = &[
    ("-0", Some(TreeFault::NotWhole)),
    ("1.0", Some(TreeFault::NotWhole)),
    ("1e3", Some(TreeFault::NotWhole)),
    ("18446744073709551616", Some(TreeFault::NotWhole)),
    ("-9223372036854775809", Some(TreeFault::NotWhole)),
    ("18446744073709551615", None),
    ("-9223372036854775808", None),
    ("", Some(TreeFault::NotJson)),
    ("01", Some(TreeFault::NotJson)),
    ("1e400", Some(TreeFault::NotJson)),
    ("[1e3,]", Some(TreeFault::NotJson)),
    ("{\"a\":1.5,\"a\":1}", None),
    ("{\"a\":1.5}", Some(TreeFault::NotWhole)),
];

/// Texts, and what is written of the tree that is read.
const TEXTS: &[(&str, &str)] = &[
    (
        " { \"b\" : [ 1 , true , null ] , \"a\" : \"\\u0041\\n\" , \"b\" : -5 } ",
        "{\"a\":\"A\\n\",\"b\":-5}",
    ),
    ("[]", "[]"),
    ("{\"\":1}", "{\"\":1}"),
    ("{\"a\":1,\"a\":2}", "{\"a\":2}"),
    (
        "{\"z\":{},\"aa\":[],\"a\":0}",
        "{\"a\":0,\"aa\":[],\"z\":{}}",
    ),
];

#[test]
fn texts_and_faults(rt: HostRuntime) {
    let alloc = rt.alloc();
    for (text, fault) in FAULTS {
        assert!(rt; fault_of(alloc, text) == *fault, "{text}");
    }
    for (text, wanted) in TEXTS {
        assert!(rt; is_rewritten(alloc, text, wanted), "{text}");
    }
}

/// Whether the number 8 stands at the pointer.
fn is_eight(alloc: Global, tree: &Tree, pointer: &str) -> bool
    requires { IsRegular (view tree.now) }
{
    match Pointer::read(alloc, pointer) {
        Ok(pointer) => matches!(tree.get(&pointer), Some(Tree::Whole(8))),
        Err(_) => false,
    }
}

/// Whether nothing stands at the pointer.
fn is_absent(alloc: Global, tree: &Tree, pointer: &str) -> bool
    requires { IsRegular (view tree.now) }
{
    match Pointer::read(alloc, pointer) {
        Ok(pointer) => tree.get(&pointer).is_none(),
        Err(_) => false,
    }
}

fn is_copied(alloc: Global, tree: &Tree) -> Result<bool, NoMemory> {
    let copy = tree.copy(alloc)?;
    Ok(copy == *tree)
}

/// Whether the tree of the text below is copied, and has the nodes that the text has.
fn are_nodes_found(alloc: Global, tree: &Tree) -> Result<bool, NoMemory>
    requires { IsRegular (view tree.now) }
{
    let is_copied = is_copied(alloc, tree)?;
    Ok(
        is_copied
            && is_eight(alloc, tree, "/a/1/")
            && is_absent(alloc, tree, "/a/01")
            && tree.is_object()
            && tree.member("n").is_some()
            && tree.present("n").is_none(),
    )
}

#[test]
fn nodes(rt: HostRuntime) -> Result<(), Fail> {
    let alloc = rt.alloc();
    let tree = Tree::read(alloc, b"{\"a\":[7,{\"\":8}],\"n\":null}", 100)?;
    let found = are_nodes_found(alloc, &tree)?;
    drop(tree);
    assert!(rt; found);
    Ok(())
}

fn nested_fault(alloc: Global, levels: usize) -> Option<TreeFault> {
    let mut text = String::new(alloc);
    for _ in 0..levels {
        if text.push('[').is_err() {
            return Some(TreeFault::NoMemory);
        }
    }
    for _ in 0..levels {
        if text.push(']').is_err() {
            return Some(TreeFault::NoMemory);
        }
    }
    match Tree::read(alloc, text.as_bytes(), 300) {
        Ok(_) => None,
        Err(fault) => Some(fault),
    }
}

#[test]
fn nesting(rt: HostRuntime) {
    let alloc = rt.alloc();
    assert!(rt; nested_fault(alloc, 64) == None);
    assert!(rt; nested_fault(alloc, 65) == Some(TreeFault::TooDeep));
    assert!(rt; nested_fault(alloc, 127) == Some(TreeFault::TooDeep));
    assert!(rt; nested_fault(alloc, 128) == Some(TreeFault::NotJson));
    assert!(rt; nested_fault(alloc, 151) == Some(TreeFault::TooLarge));
}
