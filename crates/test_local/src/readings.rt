// Requests and changes, each with the fault that the first failing line names, or with what is read.
use config_cmd::Change;
use config_ops::Update;
use local_deploy::{LocalFault, LocalRequest};
use npm_ranges::Range;
use nuc_base::Name;
use std::alloc::Global;
use std::test::Fail;
use test_support::{Reader, first_wrong, first_wrong_repeated, push_resets, repeated};

// Each line is what is answered, a bar and the text. An answer is the printed reason of the fault; or the id and the policy
// of a request, `+` and `-` before what it merges and removes, and `~` before what it updates, with its resets by their
// tokens and its merge; or the id of a change and its update. Written by hand from the format.
const WHOLE_REQUESTS: &str = r#"NotJson|{
NotWhole|{"deploymentId":1.5}
TooDeep|[[[[[[[[[[[[[[[[[[[[[[[[[[[[[[[[[[[[[[[[[[[[[[[[[[[[[[[[[[[[[[[[[]]]]]]]]]]]]]]]]]]]]]]]]]]]]]]]]]]]]]]]]]]]]]]]]]]]]]]]]]]]]]]]]]
TooDeep|{"other":[[[[[[[[[[[[[[[[[[[[[[[[[[[[[[[[[[[[[[[[[[[[[[[[[[[[[[[[[[[[[[[[]]]]]]]]]]]]]]]]]]]]]]]]]]]]]]]]]]]]]]]]]]]]]]]]]]]]]]]]]]]]]]]]}
WrongKind request|[]
WrongKind request|null
Missing deploymentId|{}
Missing deploymentId|{"DeploymentId":"l","merge":1}
WrongKind deploymentId|{"deploymentId":null}
WrongKind deploymentId|{"deploymentId":1,"failureHandlingPolicy":1}
BadName deploymentId|{"deploymentId":""}
BadName deploymentId|{"deploymentId":"a b","failureHandlingPolicy":1}"#;

const REQUEST: &str = r#"{"deploymentId":"l","#;

const REQUESTS: &str = r#"WrongKind failureHandlingPolicy|"failureHandlingPolicy":1,"merge":1
BadPolicy|"failureHandlingPolicy":"rollback","merge":1
WrongKind merge|"merge":[],"remove":1
BadName merge|"merge":{"..":1}
BadName merge|"merge":{"X":"*","a b":"^^1"}
WrongKind merge|"merge":{"X":1,"a b":"*"}
WrongKind merge|"merge":{"X":null}
BadRange X|"merge":{"Y":1,"X":"^^1"},"remove":1
WrongKind remove|"remove":{}
WrongKind remove|"remove":["X",1],"updateConfig":1
BadName remove|"remove":["X","a/b",1]
WrongKind updateConfig|"updateConfig":[]
WrongKind updateConfig|"merge":{"A":"*"},"remove":["A"],"updateConfig":1
BadName updateConfig|"updateConfig":{"":1}
WrongKind updateConfig|"updateConfig":{"X":[]}
DuplicateKey reset|"updateConfig":{"X":{"reset":[],"RESET":[],"merge":1}}
DuplicateKey merge|"updateConfig":{"X":{"merge":{},"MERGE":null,"reset":1}}
WrongKind reset|"updateConfig":{"X":{"reset":1,"merge":1}}
BadPointer X|"updateConfig":{"X":{"reset":["a"],"merge":1}}
BadMerge X|"updateConfig":{"X":{"merge":"[]"},"Y":1}
Both A|"merge":{"B":"*","A":"*"},"remove":["B","A"]
Both B|"merge":{"B":"*","C":"*"},"remove":["A","C","B"]
l ROLLBACK|"other":[]
l ROLLBACK|"other":[[[[[[[[[[[[[[[[[[[[[[[[[[[[[[[[[[[[[[[[[[[[[[[[[[[[[[[[[[[[[[[]]]]]]]]]]]]]]]]]]]]]]]]]]]]]]]]]]]]]]]]]]]]]]]]]]]]]]]]]]]]]]]
l ROLLBACK|"failureHandlingPolicy":null,"merge":null,"remove":null,"updateConfig":null
l ROLLBACK +X ^1.0.0 ~X merge Fields([("p", Whole(1))])|"merge":{"X":"^1.0.0"},"updateConfig":{"X":{"merge":{"p":1}}}
l DO_NOTHING -Y -X|"failureHandlingPolicy":"DO_NOTHING","remove":["Y","X","Y","X"]
l ROLLBACK +A * +B 1.0.0 ~A ~C reset>p>q reset|"merge":{"B":"1.0.0","A":"*"},"updateConfig":{"C":{"reset":["/p/q",""]},"A":{}}"#;

// Many parts of one form.
const MANY_MERGED: &str = r#"TooMany merge|129|"A|":"*"
TooMany merge|129|"A|":1
WrongKind merge|128|"A|":1"#;

const MANY_REMOVED: &str = r#"TooMany remove|129|"A|"
TooMany remove|129||
WrongKind remove|128||"#;

const MANY_UPDATED: &str = r#"TooMany updateConfig|129|"A|":{}
WrongKind updateConfig|128|"A|":1"#;

const WHOLE_CHANGES: &str = r#"NotJson|
NotWhole|{"deploymentId":"c","merge":{"p":0.5}}
TooDeep|[[[[[[[[[[[[[[[[[[[[[[[[[[[[[[[[[[[[[[[[[[[[[[[[[[[[[[[[[[[[[[[[[]]]]]]]]]]]]]]]]]]]]]]]]]]]]]]]]]]]]]]]]]]]]]]]]]]]]]]]]]]]]]]]]]
TooDeep|{"other":[[[[[[[[[[[[[[[[[[[[[[[[[[[[[[[[[[[[[[[[[[[[[[[[[[[[[[[[[[[[[[[[]]]]]]]]]]]]]]]]]]]]]]]]]]]]]]]]]]]]]]]]]]]]]]]]]]]]]]]]]]]]]]]]}
WrongKind document|[]
Missing deploymentId|{"merge":1}
WrongKind deploymentId|{"deploymentId":null,"reset":1}
BadName deploymentId|{"deploymentId":"","merge":1}
c1|{"deploymentId":"c1"}
c1 merge Fields([("Message", Text("you"))])|{"deploymentId":"c1","merge":{"Message":"you"}}"#;

const CHANGE: &str = r#"{"deploymentId":"c","#;

const CHANGES: &str = r#"DuplicateKey reset|"reset":[],"RESET":null,"merge":1
DuplicateKey merge|"merge":{},"MERGE":{},"reset":1
WrongKind reset|"reset":{},"merge":1
WrongKind reset|"RESET":["/a",1]
BadPointer com.example.HelloWorld|"reset":["a"],"merge":1
BadPointer com.example.HelloWorld|"reset":["/~2",1]
BadMerge com.example.HelloWorld|"merge":1
BadMerge com.example.HelloWorld|"merge":"[1]"
BadMerge com.example.HelloWorld|"MERGE":"{"
c reset>a~b reset merge Fields([("p", Null)])|"RESET":["/a~0b",""],"merge":"{\"p\":null}"
c|"reset":null,"MERGE":null
c|"other":[[[[[[[[[[[[[[[[[[[[[[[[[[[[[[[[[[[[[[[[[[[[[[[[[[[[[[[[[[[[[[[]]]]]]]]]]]]]]]]]]]]]]]]]]]]]]]]]]]]]]]]]]]]]]]]]]]]]]]]]]]]]]]"#;

/// What a text is read as.
#[derive(Clone, Copy)]
enum Kind {
    Request,
    Change,
}

impl Reader for Kind {
    fn answer(&self, alloc: Global, text: &str) -> Result<String, Fail> {
        match *self {
            Kind::Request => request_answer(alloc, text),
            Kind::Change => change_answer(alloc, text),
        }
    }
}

fn request_answer(alloc: Global, text: &str) -> Result<String, Fail> {
    match LocalRequest::read(alloc, text.as_bytes()) {
        Ok(request) => request_text(alloc, &request),
        Err(fault) => Ok(format!(in alloc; "{fault}")?),
    }
}

fn request_text(alloc: Global, request: &LocalRequest) -> Result<String, Fail> {
    let mut text = head_of(alloc, request)?;
    add_merged(alloc, &mut text, request.merge.as_slice())?;
    add_removed(alloc, &mut text, request.remove.as_slice())?;
    add_updated(alloc, &mut text, request.updates.as_slice())?;
    Ok(text)
}

fn head_of(alloc: Global, request: &LocalRequest) -> Result<String, Fail> {
    let policy = match request.policy {
        nuc_base::Policy::Rollback => "ROLLBACK",
        nuc_base::Policy::DoNothing => "DO_NOTHING",
    };
    Ok(format!(in alloc; "{} {policy}", request.id)?)
}

fn add_merged(alloc: Global, text: &mut String, merge: &[(Name, Range)]) -> Result<(), Fail> {
    for (name, range) in merge {
        text.push_str(&format!(in alloc; " +{name} {}", range.text())?)?;
    }
    Ok(())
}

fn add_removed(alloc: Global, text: &mut String, remove: &[Name]) -> Result<(), Fail> {
    for name in remove {
        text.push_str(&format!(in alloc; " -{name}")?)?;
    }
    Ok(())
}

fn add_updated(alloc: Global, text: &mut String, updates: &[(Name, Update)]) -> Result<(), Fail> {
    for (name, update) in updates {
        text.push_str(&format!(in alloc; " ~{name}")?)?;
        add_update(alloc, text, update)?;
    }
    Ok(())
}

fn add_update(alloc: Global, text: &mut String, update: &Update) -> Result<(), Fail> {
    push_resets(text, &update.resets)?;
    if let Some(merge) = &update.merge {
        text.push_str(&format!(in alloc; " merge {merge:?}")?)?;
    }
    Ok(())
}

fn change_answer(alloc: Global, text: &str) -> Result<String, Fail> {
    let name = Name::read(alloc, b"com.example.HelloWorld")?;
    match Change::read(alloc, text.as_bytes(), &name) {
        Ok(change) => change_text(alloc, &change),
        Err(fault) => Ok(format!(in alloc; "{fault}")?),
    }
}

fn change_text(alloc: Global, change: &Change) -> Result<String, Fail> {
    let mut text = format!(in alloc; "{}", change.id)?;
    add_update(alloc, &mut text, &change.update)?;
    Ok(text)
}

/// How many names are removed by a request that names one so many times.
fn count_removed(alloc: Global, count: u32) -> Result<usize, Fail> {
    let text = repeated(
        alloc,
        r#"{"deploymentId":"l","remove":["#,
        (r#""A","A"#, r#"""#),
        count,
        "]}",
    )?;
    let request = LocalRequest::read(alloc, text.as_bytes())?;
    let removed = request.remove.len();
    drop(request);
    Ok(removed)
}

/// An object with that id, and blanks behind it, of so many bytes.
fn padded(alloc: Global, length: usize) -> Result<String, Fail> {
    let mut text = String::from_str(alloc, r#"{"deploymentId":"d"}"#)?;
    for _blank in text.len()..length {
        text.push(' ')?;
    }
    Ok(text)
}

/// What is answered to so many bytes.
fn answer_at(alloc: Global, kind: Kind, length: usize) -> Result<String, Fail> {
    let text = padded(alloc, length)?;
    kind.answer(alloc, text.as_str())
}

/// Whether a text is answered so as long as it is no longer than 524,288 bytes, and else is too large.
fn is_limited(alloc: Global, kind: Kind, wanted: &str) -> Result<bool, Fail> {
    let most = answer_at(alloc, kind, 524_288)?;
    let more = answer_at(alloc, kind, 524_289)?;
    Ok(most.as_str() == wanted && more.as_str() == "TooLarge")
}

#[test]
fn requests_are_read(rt: HostRuntime) -> Result<(), Fail> {
    let alloc = rt.alloc();
    assert_eq!(rt;
        first_wrong(alloc, &Kind::Request, "", WHOLE_REQUESTS, "")?,
        ""
    );
    assert_eq!(rt;
        first_wrong(alloc, &Kind::Request, REQUEST, REQUESTS, "}")?,
        ""
    );
    Ok(())
}

#[test]
fn requests_are_limited(rt: HostRuntime) -> Result<(), Fail> {
    let alloc = rt.alloc();
    assert_eq!(rt;
        first_wrong_repeated(
            alloc,
            &Kind::Request,
            r#"{"deploymentId":"l","merge":{"#,
            MANY_MERGED,
            "}}"
        )?,
        ""
    );
    assert_eq!(rt;
        first_wrong_repeated(
            alloc,
            &Kind::Request,
            r#"{"deploymentId":"l","remove":["#,
            MANY_REMOVED,
            "]}"
        )?,
        ""
    );
    assert_eq!(rt;
        first_wrong_repeated(
            alloc,
            &Kind::Request,
            r#"{"deploymentId":"l","updateConfig":{"#,
            MANY_UPDATED,
            "}}"
        )?,
        ""
    );
    assert_eq!(rt; count_removed(alloc, 64)?, 65);
    assert!(rt; is_limited(alloc, Kind::Request, "d ROLLBACK")?);
    assert!(rt; is_limited(alloc, Kind::Change, "d")?);
    Ok(())
}

#[test]
fn changes_are_read(rt: HostRuntime) -> Result<(), Fail> {
    let alloc = rt.alloc();
    assert_eq!(rt;
        first_wrong(alloc, &Kind::Change, "", WHOLE_CHANGES, "")?,
        ""
    );
    assert_eq!(rt;
        first_wrong(alloc, &Kind::Change, CHANGE, CHANGES, "}")?,
        ""
    );
    Ok(())
}
