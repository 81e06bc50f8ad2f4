// Calls of the top call over disks, libraries, documents, inboxes and children in memory, which are written in a few words.
ghost use Rattle.std.specs.Prelude.{◌≡◌, [], true, IfOk};
ghost use Rattle.std.specs.List.{list_all};
ghost use Rattle.step_runner.specs.Scripted.{living_of};
ghost use Rattle.step_runner.specs.Waits.{is_own};
ghost use Rattle.step_runner.specs.declared.ends.ScriptedEnd.{ScriptedEnd};

use disk_model::{Disk, MemoryDisk};
use edges::{Inbox, MemoryInbox, MemorySink, MemorySource};
use library_core::{MemoryLibrary, Stored};
use npm_ranges::Version;
use nuc_base::{Bytes, Exit, Label, List, Name, NoMemory, Status, Text};
use nucleus_top::nucleus;
use std::alloc::{AllocError, Global};
use std::test::Fail;
use step_runner::{ScriptedEnd, ScriptedRunner};

/// A step and its script, as a recipe has them. The step `again` is a bootstrap that runs again on the way back, and `skip` an
/// install step that is skipped where the file `/opt/x` is there.
fn step_of(alloc: Global, step: &str, script: &str) -> Result<String, AllocError> {
    match step {
        "again" => format!(in alloc;
            r#""bootstrap":{{"Script":"{script}","BootstrapOnRollback":true}}"#
        ),
        "skip" => format!(in alloc;
            r#""install":{{"Script":"{script}","Skipif":"exists /opt/x"}}"#
        ),
        step => format!(in alloc; r#""{step}":"{script}""#),
    }
}

/// The beginning of a recipe, up to its version.
fn recipe_beginning(alloc: Global, name: &str, version: &str) -> Result<String, AllocError> {
    format!(in alloc;
        r#"{{"RecipeFormatVersion":"2020-01-25","ComponentName":"{name}","ComponentVersion":"{version}""#
    )
}

/// Adds what a component needs, if anything, and all up to its first step.
fn add_needs(recipe: &mut String, needs: &str) -> Result<(), AllocError> {
    if !needs.is_empty() {
        recipe.push_str(r#","ComponentDependencies":"#)?;
        recipe.push_str(needs)?;
    }
    recipe.push_str(r#","Manifests":[{"Lifecycle":{"#)
}

/// Adds this text, and drops it.
fn add(document: &mut String, text: String) -> Result<(), AllocError> {
    let added = document.push_str(text.as_str());
    drop(text);
    added
}

/// Adds a step and its script, behind a comma where it is not the first.
fn add_step(
    alloc: Global,
    recipe: &mut String,
    is_first: bool,
    step: &str,
    script: &str,
) -> Result<(), AllocError> {
    if !is_first {
        recipe.push_str(",")?;
    }
    add(recipe, step_of(alloc, step, script)?)
}

/// Adds the steps of these words.
fn add_steps(alloc: Global, recipe: &mut String, steps: &str) -> Result<(), AllocError> {
    let mut words = steps.split_whitespace();
    let mut is_first = true;
    while let Some(step) = words.next() {
        let script = words.next().unwrap_or("");
        add_step(alloc, recipe, is_first, step, script)?;
        is_first = false;
    }
    Ok(())
}

/// What a component needs, or nothing, and its steps.
fn needs_and_steps(words: &str) -> (&str, &str) {
    if words.starts_with("{") {
        words.split_once(' ').unwrap_or((words, ""))
    } else {
        ("", words)
    }
}

/// Adds what a component needs, its steps, and what ends a recipe.
fn add_parts(alloc: Global, recipe: &mut String, words: &str) -> Result<(), AllocError> {
    let (needs, steps) = needs_and_steps(words);
    add_needs(recipe, needs)?;
    add_steps(alloc, recipe, steps)?;
    recipe.push_str("}}]}")
}

/// A recipe of these words: a name, a version, what it needs in JSON without blanks, or nothing, and then a step and its script,
/// any number of times.
fn recipe_of(alloc: Global, component: &str) -> Result<String, AllocError> {
    let mut words = component.splitn(3, ' ');
    let name = words.next().unwrap_or("");
    let version = words.next().unwrap_or("");
    let parts = words.next().unwrap_or("");
    let mut recipe = recipe_beginning(alloc, name, version)?;
    match add_parts(alloc, &mut recipe, parts) {
        Ok(()) => Ok(recipe),
        Err(fault) => {
            drop(recipe);
            Err(fault)
        }
    }
}

/// The bytes of a recipe of these words, or of one that is written out.
fn recipe_bytes(alloc: Global, component: &str) -> Result<Bytes, Fail> {
    if component.starts_with("{") {
        return Ok(Bytes::from_slice(alloc, component.as_bytes())?);
    }
    let recipe = recipe_of(alloc, component)?;
    let bytes = Bytes::from_slice(alloc, recipe.as_bytes());
    drop(recipe);
    Ok(bytes?)
}

/// Recipes, each of which is written out or of the words of `recipe_of`, with `;` behind each.
pub fn recipes_of(alloc: Global, components: &str) -> Result<List<Bytes>, Fail> {
    let mut recipes = List::empty(alloc);
    for component in components.split_terminator(';') {
        recipes.push(recipe_bytes(alloc, component)?)?;
    }
    Ok(recipes)
}

/// A library of these recipes and of no files.
pub fn library_of(alloc: Global, components: &str) -> Result<MemoryLibrary, Fail> {
    let recipes = recipes_of(alloc, components)?;
    Ok(MemoryLibrary::new(recipes, List::empty(alloc), List::empty(alloc)))
}

/// The file of this name of version 1.0.0 of a component, with these bytes.
fn stored_of(alloc: Global, component: &[u8], file: &[u8], bytes: Bytes) -> Result<Stored, Fail> {
    let file = Label::read(alloc, file)?;
    let name = Name::read(alloc, component)?;
    let version = Version::read(alloc, b"1.0.0")?;
    Ok(Stored {
        name,
        version,
        file,
        bytes,
    })
}

/// The files of a library that has one alone: that of this name of version 1.0.0 of a component, with these bytes.
pub fn files_with(
    alloc: Global,
    component: &[u8],
    file: &[u8],
    bytes: Bytes,
) -> Result<List<Stored>, Fail> {
    let stored = stored_of(alloc, component, file, bytes)?;
    let mut files = List::empty(alloc);
    files.push(stored)?;
    Ok(files)
}

/// The same with the bytes `abc`.
pub fn files_of(alloc: Global, component: &[u8], file: &[u8]) -> Result<List<Stored>, Fail> {
    let bytes = Bytes::from_slice(alloc, b"abc")?;
    files_with(alloc, component, file, bytes)
}

/// The beginning of a document, up to its first component: its id, with `@` and a revision behind it or without, and its policy.
fn document_beginning(alloc: Global, named: &str, policy: &str) -> Result<String, AllocError> {
    let mut named = named.splitn(2, '@');
    let id = named.next().unwrap_or("");
    let revision = named.next().unwrap_or("null");
    format!(in alloc;
        r#"{{"deploymentId":"{id}","revision":{revision},"targetArn":"g","deploymentPolicies":{{"failureHandlingPolicy":"{policy}"}},"components":{{"#
    )
}

/// A component and its range, and what is merged into its configuration where that stands behind the range.
fn component_of(alloc: Global, name: &str, range: &str) -> Result<String, AllocError> {
    match range.split_once('{') {
        Some((range, merged)) => format!(in alloc;
            r#""{name}":{{"componentVersion":"{range}","configurationUpdate":{{"merge":{{{merged}}}}}"#
        ),
        None => format!(in alloc; r#""{name}":{{"componentVersion":"{range}"}}"#),
    }
}

/// Adds a component and its range, behind a comma where it is not the first.
fn add_component(
    alloc: Global,
    document: &mut String,
    is_first: bool,
    name: &str,
    range: &str,
) -> Result<(), AllocError> {
    if !is_first {
        document.push_str(",")?;
    }
    add(document, component_of(alloc, name, range)?)
}

/// Adds the components of these words, and what ends a document.
fn add_components(alloc: Global, document: &mut String, words: &str) -> Result<(), AllocError> {
    let mut words = words.split_whitespace();
    let _id = words.next();
    let _policy = words.next();
    let mut is_first = true;
    while let Some(name) = words.next() {
        let range = words.next().unwrap_or("");
        add_component(alloc, document, is_first, name, range)?;
        is_first = false;
    }
    document.push_str("}}")
}

/// The document of these words: an id, with `@` and a revision behind it or without; a policy; and then a component and its
/// range, any number of times. Directly behind a range may stand what is merged into the component's configuration, in JSON
/// without blanks, as in `A ^1{"k":2}`. One that begins with `{` or `[` is written out.
pub fn document_of(alloc: Global, words: &str) -> Result<String, AllocError> {
    if words.starts_with("{") || words.starts_with("[") {
        return String::from_str(alloc, words);
    }
    let mut given = words.split_whitespace();
    let named = given.next().unwrap_or("");
    let policy = given.next().unwrap_or("");
    let mut document = document_beginning(alloc, named, policy)?;
    match add_components(alloc, &mut document, words) {
        Ok(()) => Ok(document),
        Err(fault) => {
            drop(document);
            Err(fault)
        }
    }
}

fn number_of(word: Option<&str>) -> u64 {
    match word {
        Some(word) => word.parse::<u64>().unwrap_or(0),
        None => 0,
    }
}

/// The numbers that stand behind this word, each in a part of its own; commas part these.
pub fn numbers_behind(alloc: Global, parts: &str, word: &str) -> Result<List<u64>, Fail> {
    let mut numbers = List::empty(alloc);
    for part in parts.split(',') {
        let mut words = part.split_whitespace();
        if words.next() == Some(word) {
            numbers.push(number_of(words.next()))?;
        }
    }
    Ok(numbers)
}

/// How a child ends: with this code, or lost.
fn exit_of(word: Option<&str>) -> Exit
    ensures { is_own result ≡ true }
{
    if word == Some("lost") {
        return Exit::Lost;
    }
    Exit::Code(number_of(word).min(255) as i32)
}

/// Adds the end of a child.
fn add_end(played: &mut List<ScriptedEnd>, child: u64, exit: Exit, at: u64) -> Result<(), NoMemory>
    requires own { is_own exit ≡ true }
    requires owned { list_all (λ (e : ScriptedEnd). is_own e.exit) played.old ≡ true }
    ensures { list_all (λ (e : ScriptedEnd). is_own e.exit) played.new ≡ true }
{
    let end = ScriptedEnd { child, exit, at };
    Ok(played.push(end)?)
}

/// The ends that are played, of the parts that begin with a number: that of a child, its code or the word `lost`, and the
/// moment.
fn played_of(alloc: Global, parts: &str) -> Result<List<ScriptedEnd>, Fail>
    ensures { IfOk result (λ l. list_all (λ (e : ScriptedEnd). is_own e.exit) l ≡ true) }
{
    let mut played = List::empty(alloc);
    for part in parts.split(',') {
        let mut words = part.split_whitespace();
        let child = words.next().unwrap_or("").parse::<u64>();
        let exit = exit_of(words.next());
        let at = number_of(words.next());
        if let Ok(child) = child {
            add_end(&mut played, child, exit, at)?;
        }
    }
    Ok(played)
}

/// A runner that plays these ends, refuses the starts whose numbers stand behind the word `refuse`, and has the file `/opt/x`.
pub fn runner_of(alloc: Global, ends: &str) -> Result<ScriptedRunner, Fail>
    ensures { IfOk result (λ r. living_of r ≡ []) }
{
    let mut present = List::empty(alloc);
    present.push(Text::from_str(alloc, "/opt/x")?)?;
    let played = played_of(alloc, ends)?;
    let refused = numbers_behind(alloc, ends, "refuse")?;
    Ok(ScriptedRunner::new(alloc, played, refused, present))
}

/// The words of a line, which has one blank between two.
pub fn split_words(alloc: Global, line: &str) -> Result<Vec<String>, AllocError> {
    let mut all = Vec::new(alloc);
    for word in line.split(' ') {
        all.push(String::from_str(alloc, word)?)?;
    }
    Ok(all)
}

/// The words of a call.
fn words_of(alloc: Global, command: &str) -> Result<Vec<String>, AllocError> {
    let line = format!(in alloc; "nucleus --root /gg {command}")?;
    let words = split_words(alloc, line.as_str());
    drop(line);
    words
}

/// A call over some disk.
#[derive(Clone, Copy, Drop)]
pub struct Asked<'a> {
    pub recipes: &'a str,
    pub command: &'a str,
    pub document: &'a str,
    pub ends: &'a str,
}

/// Which calls fail of the source and of the sink, counted from 0.
#[derive(Clone, Copy, Drop)]
pub struct Failing<'a> {
    pub source: &'a [u64],
    pub sink: &'a [u64],
}

/// The status, and behind it what is printed, with `;` for each line feed.
pub fn told(alloc: Global, status: Status, printed: &[u8]) -> Result<String, AllocError> {
    let mut text = format!(in alloc; "{}|", status.number())?;
    for byte in printed {
        text.push(if *byte == b'\n' {
            ';'
        } else {
            char::from(*byte)
        })?;
    }
    Ok(text)
}

fn numbers_of(alloc: Global, numbers: &[u64]) -> Result<List<u64>, AllocError> {
    Ok(List::new(Vec::from_slice(alloc, numbers)?))
}

/// A source of this document, which fails these calls.
fn source_of(alloc: Global, document: &str, failing: &[u64]) -> Result<MemorySource, Fail> {
    let failing = numbers_of(alloc, failing)?;
    let bytes = Bytes::from_slice(alloc, document.as_bytes())?;
    Ok(MemorySource::new(bytes, failing))
}

/// What the call of these words prints over this source and this inbox, to a sink that fails these calls.
fn answer_from<D: Disk, I: Inbox>(
    alloc: Global,
    disk: &mut D,
    library: &mut MemoryLibrary,
    inbox: &mut I,
    runner: &mut ScriptedRunner,
    words: &Vec<String>,
    source: &mut MemorySource,
    failing: &[u64],
) -> Result<String, Fail>
    requires none { living_of runner.old ≡ [] }
{
    let mut sink = MemorySink::new(alloc, numbers_of(alloc, failing)?);
    let status = nucleus(
        alloc, "1.0.0", words, disk, library, source, inbox, &mut sink, runner,
    );
    let text = told(alloc, status, sink.bytes());
    drop(sink);
    Ok(text?)
}

/// What the call of the words prints over this inbox, with `;` for each line feed, behind the status. The document at the source
/// is these bytes.
pub fn answer_with_inbox<D: Disk, I: Inbox>(
    alloc: Global,
    disk: &mut D,
    library: &mut MemoryLibrary,
    inbox: &mut I,
    runner: &mut ScriptedRunner,
    command: &str,
    document: &str,
    failing: Failing<'_>,
) -> Result<String, Fail>
    requires none { living_of runner.old ≡ [] }
{
    let mut source = source_of(alloc, document, failing.source)?;
    match words_of(alloc, command) {
        Ok(words) => {
            let text = answer_from(
                alloc,
                disk,
                library,
                inbox,
                runner,
                &words,
                &mut source,
                failing.sink,
            );
            drop(words);
            drop(source);
            text
        }
        Err(fault) => {
            drop(source);
            Err(fault.into())
        }
    }
}

/// The same over an inbox that is closed and has no document.
pub fn answer_failing<D: Disk>(
    alloc: Global,
    disk: &mut D,
    library: &mut MemoryLibrary,
    runner: &mut ScriptedRunner,
    command: &str,
    document: &str,
    failing: Failing<'_>,
) -> Result<String, Fail>
    requires none { living_of runner.old ≡ [] }
{
    let mut inbox = MemoryInbox::new(List::empty(alloc), true, List::empty(alloc));
    let text = answer_with_inbox(
        alloc, disk, library, &mut inbox, runner, command, document, failing,
    );
    drop(inbox);
    text
}

/// The same where the sink alone fails these calls.
pub fn answer<D: Disk>(
    alloc: Global,
    disk: &mut D,
    library: &mut MemoryLibrary,
    runner: &mut ScriptedRunner,
    command: &str,
    document: &str,
    failing: &[u64],
) -> Result<String, Fail>
    requires none { living_of runner.old ≡ [] }
{
    let failing = Failing {
        source: &[],
        sink: failing,
    };
    answer_failing(alloc, disk, library, runner, command, document, failing)
}

/// The same with a runner of its own, all of whose children run on.
pub fn answer_alone<D: Disk>(
    alloc: Global,
    disk: &mut D,
    library: &mut MemoryLibrary,
    command: &str,
    document: &str,
    failing: &[u64],
) -> Result<String, Fail> {
    let mut runner = runner_of(alloc, "")?;
    let text = answer(
        alloc,
        disk,
        library,
        &mut runner,
        command,
        document,
        failing,
    );
    drop(runner);
    text
}

/// The same over a library of these recipes.
fn answer_over<D: Disk>(
    alloc: Global,
    disk: &mut D,
    recipes: &str,
    runner: &mut ScriptedRunner,
    command: &str,
    document: &str,
) -> Result<String, Fail>
    requires none { living_of runner.old ≡ [] }
{
    let mut library = library_of(alloc, recipes)?;
    let text = answer(alloc, disk, &mut library, runner, command, document, &[]);
    drop(library);
    text
}

/// The same of a call that is written in a few words, with this runner.
pub fn call_with<D: Disk>(
    alloc: Global,
    disk: &mut D,
    asked: Asked<'_>,
    runner: &mut ScriptedRunner,
) -> Result<String, Fail>
    requires none { living_of runner.old ≡ [] }
{
    let document = document_of(alloc, asked.document)?;
    let text = answer_over(
        alloc,
        disk,
        asked.recipes,
        runner,
        asked.command,
        document.as_str(),
    );
    drop(document);
    text
}

/// The same with a runner that plays the ends of the call.
pub fn call<D: Disk>(alloc: Global, disk: &mut D, asked: Asked<'_>) -> Result<String, Fail> {
    let mut runner = runner_of(alloc, asked.ends)?;
    let text = call_with(alloc, disk, asked, &mut runner);
    drop(runner);
    text
}

/// Makes a store.
fn init(alloc: Global, disk: &mut MemoryDisk) -> Result<(), Fail> {
    let asked = Asked {
        recipes: "",
        command: "init --thing t1 --nucleus 2.12.0 --os linux --arch amd64",
        document: "",
        ends: "",
    };
    drop(call(alloc, disk, asked)?);
    Ok(())
}

/// A disk with a new store.
pub fn begin(alloc: Global) -> Result<MemoryDisk, Fail> {
    let mut disk = MemoryDisk::new(alloc);
    match init(alloc, &mut disk) {
        Ok(()) => Ok(disk),
        Err(fault) => {
            drop(disk);
            Err(fault)
        }
    }
}
