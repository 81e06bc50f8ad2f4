// One table of words and what they ask.
use command_words::{Order, WordsFault, read_words};
use nuc_base::Text;
use std::alloc::{AllocError, Global};
use std::test::Fail;

/// Lines of words, joined by `|` behind the program's name, and what they ask.
const TABLE: &str = "\
--root|/gg|init|--thing|t1|--nucleus|2.12.0|--os|linux|--arch|amd64 => /gg: init t1 2.12.0 linux amd64
--root|/gg|init|--arch|amd64|--os|linux|--nucleus|2.12.0|--thing|t1 => /gg: init t1 2.12.0 linux amd64
--root|/gg|deploy => /gg: deploy
--root|/gg|resume => /gg: resume
--root|/gg|plan => /gg: plan
--root|/gg|status => /gg: status
--root|/gg|status|--json => /gg: status json
--root|/gg|serve|--turns|1 => /gg: serve 1
--root|/gg|serve|--turns|4294967295 => /gg: serve 4294967295
--root|/gg|workload|--seed|0 => /gg: workload 0
--root|/gg|workload|--seed|18446744073709551615 => /gg: workload 18446744073709551615
--root|/gg|audit => /gg: audit
--root|/gg|local => /gg: local
--root|/gg|config-get|--component|A => /gg: config-get A 0
--root|/gg|config-get|--component|A|--pointer|/a/b => /gg: config-get A 2
--root|/gg|config-set|--component|A => /gg: config-set A
--root|/gg|why => /gg: why
--root|/gg|components => /gg: components
--root|/gg|about => /gg: about
--root|/gg|components|--json => usage
--root|/gg|about|--thing|t1 => usage
--root=/gg|deploy => /gg: deploy
--root=|deploy => : deploy
--root||deploy => : deploy
--root=a=b|deploy => a=b: deploy
--root=--json|deploy => --json: deploy
--root|-|deploy => -: deploy
--turns|7|serve|--root=/gg => /gg: serve 7
status|--json|--root|/gg => /gg: status json
--root|/gg|--|deploy => /gg: deploy
--root|deploy|deploy => deploy: deploy
deploy => usage
--root|/gg => usage
--root|-x|deploy => usage
--root|--|deploy => usage
--root|/gg|--root|/gg|deploy => usage
--root|/gg|status|--json|--json => usage
--root|/gg|status|--json=true => usage
--roo|/gg|deploy => usage
--root|/gg|deploy|extra => usage
--|deploy|--root|/gg => usage
--root|/gg|--help => usage
--root|/gg|deploy|-V => usage
--command|deploy|--root|/gg => usage
--root|/gg|help => usage
--root|/gg|Deploy => usage
--root|/gg|deploy|--json => usage
--root|/gg|status|--turns|1 => usage
--root|/gg|serve => usage
--root|/gg|serve|--turns|0 => usage
--root|/gg|serve|--turns|01 => usage
--root|/gg|serve|--turns|+1 => usage
--root|/gg|serve|--turns|4294967296 => usage
--root|/gg|workload|--seed|18446744073709551616 => usage
--root|/gg|init|--thing|t 1|--nucleus|2.12.0|--os|linux|--arch|amd64 => usage
--root|/gg|init|--thing|t1|--nucleus|2.12|--os|linux|--arch|amd64 => usage
--root|/gg|config-get|--component|A/b => usage
--root|/gg|config-get|--component|A|--pointer|a => usage
--root|/gg|config-get|--component|A|--pointer|/a\x1fb => usage
--root|/gg|config-get|--component|A|--pointer|/a~2 => usage
--root|/g\x1fg|deploy => usage";

fn push_word(alloc: Global, words: &mut Vec<String>, word: &str) -> Result<(), AllocError> {
    let word = String::from_str(alloc, word)?;
    words.push(word)?;
    Ok(())
}

fn push_words(alloc: Global, words: &mut Vec<String>, line: &str) -> Result<(), AllocError> {
    push_word(alloc, words, "nucleus")?;
    for word in line.split('|') {
        push_word(alloc, words, word)?;
    }
    Ok(())
}

fn words_of(alloc: Global, line: &str) -> Result<Vec<String>, AllocError> {
    let mut words = Vec::new(alloc);
    push_words(alloc, &mut words, line)?;
    Ok(words)
}

fn order_text(alloc: Global, order: &Order) -> Result<String, AllocError> {
    match order {
        Order::Init(o) => format!(in alloc;
            "init {} {} {} {}",
            o.thing.as_str(),
            o.nucleus.text(),
            o.platform.os.as_str(),
            o.platform.architecture.as_str()
        ),
        Order::Deploy => String::from_str(alloc, "deploy"),
        Order::Resume => String::from_str(alloc, "resume"),
        Order::Status(json) => String::from_str(
            alloc,
            if *json { "status json" } else { "status" },
        ),
        Order::Plan => String::from_str(alloc, "plan"),
        Order::Serve(turns) => format!(in alloc; "serve {turns}"),
        Order::Workload(seed) => format!(in alloc; "workload {seed}"),
        Order::Audit => String::from_str(alloc, "audit"),
        Order::Local => String::from_str(alloc, "local"),
        Order::ConfigGet(name, pointer) => format!(in alloc;
            "config-get {} {}",
            name.as_str(),
            pointer.tokens().len()
        ),
        Order::ConfigSet(name) => format!(in alloc; "config-set {}", name.as_str()),
        Order::Why => String::from_str(alloc, "why"),
        Order::Components => String::from_str(alloc, "components"),
        Order::About => String::from_str(alloc, "about"),
    }
}

/// The root and what is asked of it.
fn root_text(alloc: Global, root: &str, order: &Order) -> Result<String, AllocError> {
    let text = order_text(alloc, order)?;
    format!(in alloc; "{root}: {text}")
}

fn answer_text(
    alloc: Global,
    read: &Result<(Text, Order), WordsFault>,
) -> Result<String, AllocError> {
    match read {
        Ok((root, order)) => root_text(alloc, root.as_str(), order),
        Err(WordsFault::Usage) => String::from_str(alloc, "usage"),
        Err(WordsFault::NoMemory) => String::from_str(alloc, "memory"),
    }
}

fn asked(alloc: Global, line: &str) -> Result<String, AllocError> {
    let words = words_of(alloc, line)?;
    let read = read_words(alloc, &words);
    drop(words);
    let text = answer_text(alloc, &read);
    drop(read);
    text
}

/// Whether the words of a line ask what the line says.
fn is_answered(alloc: Global, line: &str) -> Result<bool, AllocError> {
    let Some((words, wanted)) = line.split_once(" => ") else {
        return Ok(false);
    };
    Ok(asked(alloc, words)?.as_str() == wanted)
}

/// The words `deploy` over a root of this many bytes.
fn line_at(alloc: Global, length: usize) -> Result<String, AllocError> {
    let mut line = String::from_str(alloc, "deploy|--root=")?;
    for _ in 0..length {
        line.push('r')?;
    }
    Ok(line)
}

fn is_refused(alloc: Global, line: &str) -> Result<bool, AllocError> {
    Ok(asked(alloc, line)?.as_str() == "usage")
}

/// Whether `deploy` over a root of this many bytes is refused.
fn is_refused_at(alloc: Global, length: usize) -> Result<bool, AllocError> {
    let line = line_at(alloc, length)?;
    is_refused(alloc, &line)
}

fn is_nothing_refused(alloc: Global) -> bool {
    let words = Vec::new(alloc);
    let read = read_words(alloc, &words);
    drop(words);
    let is_refused = matches!(&read, Err(WordsFault::Usage));
    drop(read);
    is_refused
}

#[test]
fn words_ask_what_the_table_says(rt: HostRuntime) -> Result<(), Fail> {
    let alloc = rt.alloc();
    for line in TABLE.lines() {
        assert!(rt; is_answered(alloc, line)?, "{line}");
    }
    assert!(rt; !is_refused_at(alloc, 1024)?);
    assert!(rt; is_refused_at(alloc, 1025)?);
    assert!(rt; is_nothing_refused(alloc));
    Ok(())
}
