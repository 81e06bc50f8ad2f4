// Documents, each with the fault that the first failing line names, or with what is read.
use config_ops::Update;
use deployment_doc::{DocFault, Document, Root};
use nuc_base::Policy;
use std::alloc::Global;
use std::test::Fail;
use test_support::{Reader, first_wrong, first_wrong_repeated, push_resets, repeated};
use tree_core::TreeFault;

// Each line is what is answered, a bar and the document. An answer is the printed reason of the fault; or the id, the
// group and the policy, the revision where it is not 0, and for each component its name and range, and for an update
// the word `update`, its resets by their tokens and its merge. Written by hand from the format; the digests are those
// of `sha256sum`.
const WHOLE: &str = concat!(
    r#"NotJson|
NotJson|{
NotJson|{"targetArn":"g",}
NotJson|{"targetArn":1e400}
NotWhole|{"targetArn":1.5}
NotWhole|{"targetArn":"g","other":1.0}
NotWhole|{"targetArn":"g","other":[18446744073709551616]}
NotWhole|[-0]
TooDeep|[[[[[[[[[[[[[[[[[[[[[[[[[[[[[[[[[[[[[[[[[[[[[[[[[[[[[[[[[[[[[[[[[]]]]]]]]]]]]]]]]]]]]]]]]]]]]]]]]]]]]]]]]]]]]]]]]]]]]]]]]]]]]]]]]]
TooDeep|{"targetArn":[[[[[[[[[[[[[[[[[[[[[[[[[[[[[[[[[[[[[[[[[[[[[[[[[[[[[[[[[[[[[[[[]]]]]]]]]]]]]]]]]]]]]]]]]]]]]]]]]]]]]]]]]]]]]]]]]]]]]]]]]]]]]]]]}
592dacb69dd8ed9efe93b5f3948642fc52915a6153e8a25a0d9d9115de0c41d1 g ROLLBACK|{"targetArn":"g"}
31c9258c14450ce734e311a918f6efd18e83ef2a722997524086d48fb7f4d1e6 g ROLLBACK|{"targetArn":"g","#,
    r#""other":[[[[[[[[[[[[[[[[[[[[[[[[[[[[[[[[[[[[[[[[[[[[[[[[[[[[[[[[[[[[[[[]]]]]]]]]]]]]]]]]]]]]]]]]]]]]]]]]]]]]]]]]]]]]]]]]]]]]]]]]]]]]]]}
c25937afc3a5dc146182eaef19a4a7f15598d01da7bd1ac7c7ab5dca7c73b93e g ROLLBACK|{"targetArn":1.5,"targetArn":"g"}
WrongKind targetArn|{"targetArn":"g","targetArn":1}
WrongKind document|null
WrongKind document|"g"
WrongKind document|[]
WrongKind document|[{"targetArn":"g"}]
WrongKind deploymentId|{"deploymentId":1,"targetArn":"g"}
WrongKind deploymentId|{"deploymentId":["d"]}
BadName deploymentId|{"deploymentId":"","targetArn":"g"}
BadName deploymentId|{"deploymentId":"a b","targetArn":3}
BadName deploymentId|{"deploymentId":"\u00e9","targetArn":"g"}
d594f688909e76f6c35da41d6b93c6cc4943da4d798c95c135f722f32cdeca18 g ROLLBACK|{"deploymentId":null,"targetArn":"g"}
1144a544024232e34083c0bfa13f2c3af3081359d6d23ecf8c62f67b5b679483 g ROLLBACK| { "targetArn" : "g" } 
512bd79b65ad54fcdc6dc957b3f62f17e1d6f8dd27b0c6de812203a0ee5f8ec3 g ROLLBACK|{"DeploymentId":1,"targetArn":"g"}
Missing targetArn|{}
Missing targetArn|{"deploymentId":"d","deploymentPolicies":[]}
WrongKind targetArn|{"targetArn":null}
WrongKind targetArn|{"targetArn":{},"components":[]}
BadName targetArn|{"targetArn":""}
BadName targetArn|{"targetArn":"a\nb","deploymentPolicies":1}
fd22ac9e7270bdcd93b5d411213d69aea9b397848d3709aaadd75a0ef36c7ad9 arn:aws:iot:us-west-2:123456789012:thinggroup/MyGreengrassCoreGroup ROLLBACK "#,
    r#"com.example.HelloWorld 1.0.0 update reset>network>useHttps reset>tags merge Fields([("tags", Items([Text("/boiler/1/temp"), "#,
    r#"Text("/boiler/1/pressure")]))])|{"targetArn":"arn:aws:iot:us-west-2:123456789012:thinggroup/MyGreengrassCoreGroup","#,
    r#""deploymentName":"Deployment for MyGreengrassCoreGroup","components":{"com.example.HelloWorld":{"componentVersion":"1.0.0","#,
    r#""configurationUpdate":{"reset":["/network/useHttps","/tags"],"merge":"{\"tags\":[\"/boiler/1/temp\",\"/boiler/1/pressure\"]}"},"#,
    r#""runWith":{"posixUser":"ggc_user"}}},"deploymentPolicies":{"failureHandlingPolicy":"ROLLBACK","componentUpdatePolicy":{"timeoutInSeconds":60,"#,
    r#""action":"NOTIFY_COMPONENTS"},"configurationValidationPolicy":{"timeoutInSeconds":60}},"iotJobConfiguration":{},"parentTargetArn":null}
d1 arn:aws:iot:us-east-1:123456789012:thinggroup/g1 ROLLBACK com.example.HelloWorld 1.0.0|"#,
    r#"{"deploymentId":"d1","targetArn":"arn:aws:iot:us-east-1:123456789012:thinggroup/g1","#,
    r#""deploymentName":"hello","components":{"com.example.HelloWorld":{"componentVersion":"1.0.0"}}}"#
);

const REVISION: &str = r#"{"deploymentId":"d","targetArn":"g","revision":"#;

const REVISIONS: &str = r#"d g ROLLBACK revision 1|1
d g ROLLBACK revision 9223372036854775807|9223372036854775807
d g ROLLBACK|null
BadRevision|0
BadRevision|-1
BadRevision|9223372036854775808
BadRevision|18446744073709551615
BadRevision|-9223372036854775808
BadRevision|0,"deploymentPolicies":1
WrongKind revision|"1"
WrongKind revision|true,"deploymentPolicies":1
WrongKind revision|[]
NotWhole|1.0
WrongKind targetArn|0,"targetArn":1"#;

const POLICY: &str = r#"{"deploymentId":"d","targetArn":"g","deploymentPolicies":"#;

const POLICIES: &str = r#"WrongKind deploymentPolicies|"ROLLBACK"
WrongKind deploymentPolicies|[],"components":[]
WrongKind failureHandlingPolicy|{"failureHandlingPolicy":true}
WrongKind failureHandlingPolicy|{"failureHandlingPolicy":{}},"components":1
BadPolicy|{"failureHandlingPolicy":"rollback"}
BadPolicy|{"failureHandlingPolicy":""},"components":1
d g ROLLBACK|null
d g ROLLBACK|{"failureHandlingPolicy":null}
d g ROLLBACK|{"failureHandlingPolicy":"ROLLBACK"}
d g DO_NOTHING|{"failureHandlingPolicy":"DO_NOTHING","componentUpdatePolicy":{"timeoutInSeconds":60}}"#;

const COMPONENT: &str = r#"{"deploymentId":"d","targetArn":"g","components":"#;

const COMPONENTS: &str = concat!(
    r#"WrongKind components|[]
WrongKind components|"A"
d g ROLLBACK|null
d g ROLLBACK|{}
BadName components|{"":{"componentVersion":"1.0.0"}}
BadName components|{"..":{}}
BadName components|{"a/b":1}
WrongKind components|{"A":null}
WrongKind components|{"A":"1.0.0"}
WrongKind components|{"B":{},"A":[]}
Missing componentVersion|{"A":{},"a b":{}}
BadName components|{"a b":{},"A":{"componentVersion":"1.0.0"}}
Missing componentVersion|{"A":{"configurationUpdate":1}}
WrongKind componentVersion|{"A":{"componentVersion":null}}
WrongKind componentVersion|{"A":{"componentVersion":1,"configurationUpdate":1}}
BadRange A|{"A":{"componentVersion":"^^1"}}
BadRange B.b|{"A":{"componentVersion":"1.0.0"},"B.b":{"componentVersion":"1.0.0.0","configurationUpdate":1}}
BadRange A|{"A":{"componentVersion":">=1.0.0 >=1.0.0 >=1.0.0 >=1.0.0 >=1.0.0 >=1.0.0 >=1.0.0 >=1.0.0 >=1.0.0 >=1.0.0 >=1.0.0 >=1.0.0 >=1.0.0 >=1.0.0 >=1.0.0 "#,
    r#">=1.0.0 >=1.0.0 >=1.0.0 >=1.0.0 >=1.0.0 >=1.0.0 >=1.0.0 >=1.0.0 >=1.0.0 >=1.0.0 >=1.0.0 >=1.0.0 >=1.0.0 >=1.0.0 >=1.0.0 >=1.0.0 >=1.0.0 >=1.0.0"}}
d g ROLLBACK A >=1.0.0 <2.0.0 B ^1.2.0|{"B":{"componentVersion":"^1.2.0"},"A":{"componentVersion":">=1.0.0 <2.0.0"}}
BadRange A|{"A":{"componentVersion":"^^1","configurationUpdate":"reset"}}
BadMerge A|{"A":{"componentVersion":"1.0.0","configurationUpdate":{"merge":true}},"B":1}"#
);

const UPDATE: &str =
    r#"{"deploymentId":"d","targetArn":"g","components":{"A":{"componentVersion":"1.0.0","configurationUpdate":"#;

const UPDATES: &str = r#"WrongKind configurationUpdate|[]
d g ROLLBACK A 1.0.0|null
d g ROLLBACK A 1.0.0 update|{}
DuplicateKey reset|{"reset":[],"RESET":[]}
DuplicateKey reset|{"reset":null,"RESET":["/a"]}
DuplicateKey reset|{"reset":1,"RESET":1,"merge":1,"MERGE":1}
DuplicateKey merge|{"merge":{},"MERGE":null}
DuplicateKey merge|{"merge":{},"MERGE":{},"reset":1}
d g ROLLBACK A 1.0.0 update|{"Reset":1,"Merge":1}
WrongKind reset|{"reset":{}}
WrongKind reset|{"RESET":"/a","merge":1}
WrongKind reset|{"reset":[1]}
WrongKind reset|{"reset":["/a",null,"b"]}
BadPointer A|{"reset":["a"]}
BadPointer A|{"reset":["/~2"],"merge":"["}
BadPointer A|{"RESET":["/~",1]}
d g ROLLBACK A 1.0.0 update|{"reset":null,"merge":null}
d g ROLLBACK A 1.0.0 update reset reset> reset>a/b>c~ reset>a|{"RESET":["","/","/a~1b/c~0","/a"]}
BadMerge A|{"merge":3}
BadMerge A|{"MERGE":[]}
BadMerge A|{"merge":"[]"}
BadMerge A|{"merge":"{"}
BadMerge A|{"merge":"{\"a\":1.5}"}
BadMerge A|{"merge":"{\"a\":[[[[[[[[[[[[[[[[[[[[[[[[[[[[[[[[[[[[[[[[[[[[[[[[[[[[[[[[[[[[[[[[]]]]]]]]]]]]]]]]]]]]]]]]]]]]]]]]]]]]]]]]]]]]]]]]]]]]]]]]]]]]]]]]}"}
d g ROLLBACK A 1.0.0 update merge Fields([])|{"merge":{}}
d g ROLLBACK A 1.0.0 update merge Fields([("a", Whole(-1)), ("b", Items([Null]))])|{"MERGE":{"b":[null],"a":-1}}
d g ROLLBACK A 1.0.0 update merge Fields([("a", Text("x")), ("b", Flag(true))])|{"merge":" {\"b\":true,\"a\":\"x\"} "}"#;

/// What reads documents.
#[derive(Clone, Copy)]
struct Documents;

impl Reader for Documents {
    fn answer(&self, alloc: Global, text: &str) -> Result<String, Fail> {
        let read = Document::read(alloc, text.as_bytes());
        let answer = answer_of(alloc, &read);
        drop(read);
        answer
    }
}

fn answer_of(alloc: Global, read: &Result<Document, DocFault>) -> Result<String, Fail> {
    match read {
        Ok(document) => shown(alloc, document),
        Err(fault) => Ok(fault.to_string(alloc)?),
    }
}

fn shown(alloc: Global, document: &Document) -> Result<String, Fail> {
    let policy = match document.policy {
        Policy::Rollback => "ROLLBACK",
        Policy::DoNothing => "DO_NOTHING",
    };
    let mut text = format!(in alloc; "{} {} {policy}", document.id, document.group)?;
    add_revision(alloc, &mut text, document.revision)?;
    add_roots(alloc, &mut text, document.roots.as_slice())?;
    Ok(text)
}

fn add_revision(alloc: Global, text: &mut String, revision: u64) -> Result<(), Fail> {
    if revision > 0 {
        text.push_str(&format!(in alloc; " revision {revision}")?)?;
    }
    Ok(())
}

fn add_roots(alloc: Global, text: &mut String, roots: &[Root]) -> Result<(), Fail> {
    for root in roots {
        add_root(alloc, text, root)?;
    }
    Ok(())
}

fn add_root(alloc: Global, text: &mut String, root: &Root) -> Result<(), Fail> {
    text.push_str(&format!(in alloc; " {} {}", root.name, root.range.text())?)?;
    if let Some(update) = &root.update {
        add_update(alloc, text, update)?;
    }
    Ok(())
}

fn add_update(alloc: Global, text: &mut String, update: &Update) -> Result<(), Fail> {
    text.push_str(" update")?;
    push_resets(text, &update.resets)?;
    if let Some(merge) = &update.merge {
        text.push_str(&format!(in alloc; " merge {merge:?}")?)?;
    }
    Ok(())
}

// Many parts of one form.
const MANY_COMPONENTS: &str = r#"TooMany components|129|"A|":{"componentVersion":"1.0.0"}
TooMany components|129|"A|":{}
Missing componentVersion|128|"A|":{}"#;

const MANY_RESETS: &str = r#"TooMany reset|257||
WrongKind reset|256||
BadPointer A|256|"|""#;

const RESETS: &str =
    r#"{"targetArn":"g","components":{"A":{"componentVersion":"1.0.0","configurationUpdate":{"reset":["#;

const PARTS: &str = r#"{"targetArn":"g","components":{"#;

fn is_too_large(alloc: Global, bytes: &[u8]) -> bool {
    let read = Document::read(alloc, bytes);
    let is_too_large = matches!(&read, Err(DocFault::Tree(TreeFault::TooLarge)));
    drop(read);
    is_too_large
}

fn is_read(alloc: Global, bytes: &[u8]) -> bool {
    let read = Document::read(alloc, bytes);
    let is_read = read.is_ok();
    drop(read);
    is_read
}

/// A document with blanks at its end, of so many bytes.
fn padded(alloc: Global, length: usize) -> Result<Vec<u8>, Fail> {
    let document = r#"{"deploymentId":"d","targetArn":"g"}"#;
    let mut bytes = Vec::from_slice(alloc, document.as_bytes())?;
    bytes.resize(length, b' ')?;
    Ok(bytes)
}

/// With blanks at its end a document is read up to 524,288 bytes.
fn is_limited(alloc: Global) -> Result<bool, Fail> {
    let mut bytes = padded(alloc, 524_288)?;
    let is_read = is_read(alloc, bytes.as_slice());
    bytes.push(b' ')?;
    Ok(is_read && is_too_large(alloc, bytes.as_slice()))
}

fn count_roots(alloc: Global, text: &str) -> Result<usize, Fail> {
    let document = Document::read(alloc, text.as_bytes())?;
    let count = document.roots.len();
    drop(document);
    Ok(count)
}

fn roots_of(alloc: Global, count: u32) -> Result<usize, Fail> {
    let part = (r#""A"#, r#"":{"componentVersion":"1.0.0"}"#);
    let text = repeated(alloc, PARTS, part, count, "}}")?;
    count_roots(alloc, text.as_str())
}

fn add_letters(text: &mut String, count: usize) -> Result<(), Fail> {
    for _ in 0..count {
        text.push('i')?;
    }
    Ok(())
}

/// A document whose id has so many letters.
fn text_with_id(alloc: Global, length: usize) -> Result<String, Fail> {
    let mut text = String::from_str(alloc, r#"{"targetArn":"g","deploymentId":""#)?;
    add_letters(&mut text, length)?;
    text.push_str(r#""}"#)?;
    Ok(text)
}

fn id_answer(alloc: Global, length: usize) -> Result<String, Fail> {
    let text = text_with_id(alloc, length)?;
    Documents.answer(alloc, text.as_str())
}

#[test]
fn documents_are_read(rt: HostRuntime) -> Result<(), Fail> {
    let alloc = rt.alloc();
    assert_eq!(rt; first_wrong(alloc, &Documents, "", WHOLE, "")?, "");
    assert_eq!(rt;
        first_wrong(alloc, &Documents, REVISION, REVISIONS, "}")?,
        ""
    );
    assert_eq!(rt; first_wrong(alloc, &Documents, POLICY, POLICIES, "}")?, "");
    assert_eq!(rt;
        first_wrong(alloc, &Documents, COMPONENT, COMPONENTS, "}")?,
        ""
    );
    assert_eq!(rt; first_wrong(alloc, &Documents, UPDATE, UPDATES, "}}}")?, "");
    Ok(())
}

#[test]
fn documents_are_limited(rt: HostRuntime) -> Result<(), Fail> {
    let alloc = rt.alloc();
    assert_eq!(rt;
        first_wrong_repeated(alloc, &Documents, PARTS, MANY_COMPONENTS, "}}")?,
        ""
    );
    assert_eq!(rt;
        first_wrong_repeated(alloc, &Documents, RESETS, MANY_RESETS, "]}}}}")?,
        ""
    );
    assert_eq!(rt; roots_of(alloc, 128)?, 128);
    assert!(rt; is_limited(alloc)?);
    assert_eq!(rt; id_answer(alloc, 256)?.len(), 267);
    assert_eq!(rt; id_answer(alloc, 257)?.as_str(), "BadName deploymentId");
    Ok(())
}
